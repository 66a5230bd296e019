//! Turns a syntax tree into a checked program, or names a rule that it breaks.
//!
//! The definition stands in `specs/`. A part of a tree has what it stands for, the state after it, and the list
//! of each rule that it breaks (`Found`); it goes on after a broken rule with something in its place, so that
//! the list has the rules of all its parts. `checks` of `Units` puts them together: the list of a whole tree is
//! empty exactly where it stands for a program, which is one.
#![tactic(auto)]

mod body;
mod calls;
mod constants;
mod entries;
mod expr;
mod fault;
mod format;
mod functions;
mod globals;
mod headings;
mod heads;
mod labels;
mod laws;
mod named;
mod operators;
mod program;
mod scope;
mod state;
mod stmts;
mod typed;
mod types;

pub use fault::CheckFault;
pub use functions::check;
pub use laws::checked_law;
