// No code: single-decree Paxos over any value. The messages and majorities stand in specs/, the
// proofs in proofs/.
#![tactic(auto)]
