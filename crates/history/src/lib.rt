// Demand 3 has no code: its definitions are in specs/, its theorems in proofs/ (docs/HISTORY.md).
#![tactic(auto)]
