//! Code for a stack machine.
#![tactic(auto)]

mod code;
mod instr;
mod laws;
mod layout;
mod seek;

pub use code::{Block, Code, CodeFunction, FunctionFrame, Variable};
pub use instr::Instr;
pub use laws::{run_law, step_law};
pub use seek::{CodePlace, Found, Home};
