//! Schedules: which process makes each turn, with which pick. They are read from text, or made
//! from a seed.
#![tactic(auto)]

mod generator;
mod reader;
mod schedule;
#[cfg(test)]
mod tests;

pub use generator::generated;
pub use reader::{ScheduleFault, read_schedule};
pub use schedule::{Schedule, Turn};
