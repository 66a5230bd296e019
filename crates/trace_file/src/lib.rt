//! The trace file: its bytes, a reader that names the damage, and a writer.
#![tactic(auto)]

mod entries;
mod fault;
mod header;
mod item;
mod laws;
mod trace;
mod writer;

pub use fault::{DamageKind, TraceFault};
pub use laws::{count_law, one_damage_law, one_trace_law};
pub use trace::{Trace, decode};
pub use writer::TraceWriter;

#[cfg(test)]
mod tests;
