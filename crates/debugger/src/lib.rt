//! Sessions of a debugger: a replay that goes forwards and back, under breakpoints, with lines that
//! look at it.
#![tactic(auto)]

mod answer;
mod backward;
mod beginning;
mod breakpoints;
mod dispatch;
mod fault;
mod forward;
mod latest;
mod line;
mod looking;
mod looks;
mod placing;
mod rows;
mod session;
mod watching;
mod words;

pub use breakpoints::Break;
pub use dispatch::Next;
pub use fault::SessionFault;
pub use session::Session;
