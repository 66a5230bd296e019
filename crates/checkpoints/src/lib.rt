//! Kept worlds, to go back to.
#![tactic(auto)]

mod kept;
mod parts;
#[cfg(test)]
mod tests;

pub use kept::{Checkpoints, MOST_KEPT};
