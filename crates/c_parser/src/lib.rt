//! The parser: tokens to syntax trees.
#![tactic(auto)]

mod decl;
mod expr;
mod fault;
mod inner;
mod labels;
mod laws;
mod leaves;
mod nodes;
mod operators;
mod parser;
mod stmt;
#[cfg(test)]
mod tests;
mod tokens;
mod unit;

pub use fault::ParseFault;
pub use laws::tree_law;
pub use parser::parse;
pub use unit::MAX_HEIGHT;
