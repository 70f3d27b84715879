// The numbers of the world's messages, who is down, and whether a message's receiver is.
#![tactic(auto)]

pub mod parties;
pub mod send;
