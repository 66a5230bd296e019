//! Worlds: processes with the letters on their way, one turn at a time. A world stands for a run:
//! a turn is that of the definitions in `event_list`, with the gate's rule.
#![tactic(auto)]

mod seats;
#[cfg(test)]
mod tests;
mod world;

pub use world::{Idle, Turned, World};
