// The cases M of document 01 have no code: their list is in specs/, the claim in proofs/.
#![tactic(auto)]
