//! Certificates: for a logged letter a run that keeps the pasts of its send and of the last receive that
//! could have taken it, and in which that receive takes it.
#![tactic(auto)]

mod certificates;
mod comparing;
mod comparisons;
mod earlier;
mod held;
mod kept;
pub mod laws;
mod listing;
mod lookups;
mod making;
mod posts;
mod query;
mod quiet;
#[cfg(test)]
mod tests;

pub use certificates::{Witness, WitnessTurn};
pub use comparing::compare;
pub use comparisons::Compared;
pub use making::witness;
