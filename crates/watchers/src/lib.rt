//! Watchers: they are told of events, say one line, and may stop a debugger.
#![tactic(auto)]

mod any_watcher;
mod fault_stop;
mod kind_count;
mod letter_log;
mod note;
mod telling;
#[cfg(test)]
mod tests;
mod watcher;

pub use any_watcher::AnyWatcher;
pub use fault_stop::FaultStop;
pub use kind_count::KindCount;
pub use letter_log::LetterLog;
pub use note::Note;
pub use telling::{detach, tell};
pub use watcher::Watcher;
