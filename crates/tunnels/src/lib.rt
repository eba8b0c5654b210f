// Tunnels from end to end have no code: what is said of them is in specs/, the theorem in proofs/.
#![tactic(auto)]
