// The world: its steps.
#![tactic(auto)]

pub mod advance;
mod plan;
mod send;
mod store;
