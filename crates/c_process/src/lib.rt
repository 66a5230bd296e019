//! Processes that run code: what such a process does next is what the program means whose code it runs.
#![tactic(auto)]

mod answers;
mod inspection;
mod laws;
mod process;
mod script;
mod seats;

pub use answers::{FrameSeen, LookFault, Seen};
pub use laws::{compiled_code_law, look_law};
pub use process::CProc;
pub use seats::seats_of;
