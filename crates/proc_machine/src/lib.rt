//! The machine that runs code: it stops before each event, makes the event when it is asked to, and
//! runs on to the next.
#![tactic(auto)]

mod call_stack;
mod callers;
mod calls;
mod events;
mod execute;
mod execution;
mod heights;
mod machine;
mod messages;
mod onward;
mod operands;
mod pause;
mod printing;
mod run;
mod scratch;
mod start;
mod step;
mod words;

pub use machine::{Machine, MachineFrame};
pub use pause::Pause;
