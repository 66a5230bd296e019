//! Replays: runs that are bound by a trace. The gate of the trace says which letter a receive may
//! accept and how far a process may go; each turn is that of the definitions in `event_list` under
//! the trace, and finishing goes by round robin until all recorded counts are reached or no process
//! can go on.
#![tactic(auto)]

mod asleep;
mod back;
mod finish;
mod gate;
mod replay;
mod round;
mod step;
#[cfg(test)]
mod tests;

pub use finish::{Finished, ReplayFault};
pub use gate::TraceGate;
pub use replay::Replay;
