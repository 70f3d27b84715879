// Demand 3, one claim over every list of the world's steps: the history and the claim stand in
// specs/, the proof in proofs/.
#![tactic(auto)]
