//! Records a run: makes its turns, and writes its trace as it goes, without a list of events, letters or receives.
#![tactic(auto)]

mod ending;
mod fault;
pub mod laws;
mod receive;
mod recording;
mod seen;
mod turns;

pub use fault::RecordFault;
pub use recording::{Recorded, record_run};

#[cfg(test)]
mod tests;
