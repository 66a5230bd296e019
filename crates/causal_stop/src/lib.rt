//! Causal stops: the least cut of a run that holds an event, the greatest one without it, and how two
//! events stand to each other. Nothing here takes memory: a walk through the list keeps two numbers for
//! each process.
#![tactic(auto)]

mod cuts;
mod free;
mod past;
mod standing;

pub use cuts::{avoid_at, stop_at};
pub use standing::{Order, order_of};
