//! The printed texts: the block of a process, the summary of a run, the lines of traces and replays,
//! certificates, the lines of refusals and the replies of a debugger. Each call writes its text to a
//! sink piece by piece and takes no memory.
#![tactic(auto)]

mod breaks;
mod cause;
mod certificates;
mod events;
mod laws;
mod letters;
mod notices;
mod one_process;
mod places;
mod progress;
mod put;
mod refusals;
mod replies;
mod runs;
mod summaries;
#[cfg(test)]
mod tests;
mod traces;
mod values;

pub use breaks::{cleared_line, set_line};
pub use cause::Refusal;
pub use certificates::{certificate, certificates_line};
pub use events::{broke_line, event_line, watcher_line};
pub use laws::{follows_law, full_law};
pub use letters::{clock_line, waiting_line};
pub use notices::{detached_line, notice_line, watch_line};
pub use one_process::block;
pub use places::{at_line, frame_line, where_line};
pub use refusals::refusal;
pub use replies::{Notice, Spot};
pub use runs::{blocks, run_summary};
pub use summaries::summary;
pub use traces::{soak_line, stopped_line, trace_line, turns_line, upgraded_line, watched_line};
pub use values::{output_text, value_line};
