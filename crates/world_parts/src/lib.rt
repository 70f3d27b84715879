// What a step does to the parts of the world that it touches.
#![tactic(auto)]

pub mod changes;
pub mod place;
pub mod refusal;
