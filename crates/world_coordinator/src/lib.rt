// A coordinator: its queue, the round of the ballot that it opened last, and what it learns.
// `model_protocol` has the definitions.
#![tactic(auto)]

pub mod learn;
mod limits;
pub mod queue;
pub mod round;
