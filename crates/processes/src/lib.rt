//! What a process is to the run that it takes part in: the trait `Proc`, and processes typed by
//! what they do next. A process is seen as a script: what it does next is a function of the
//! letters that it accepted and of the number of its events.
#![tactic(auto)]

mod listed;
mod proc;
mod states;
#[cfg(test)]
mod tests;

pub use listed::Listed;
pub use proc::{Look, Proc};
pub use states::{Able, Over, Seat, Stepped, Waiting};
