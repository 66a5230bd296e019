//! The test for races, made as letters are received: a letter is logged where it could have been
//! taken by an earlier receive, and the last such receive did not happen before its send. On an
//! ordered channel only receives count that come after the receive of the letter's last predecessor.
//! The timestamps decide it with one comparison of numbers, whatever the run's length. To log only
//! letters that race is an idea of Netzer and Miller (Supercomputing 1992); the exact rule is this
//! project's own.
#![tactic(auto)]

mod calls;
pub mod laws;
mod tables;
#[cfg(test)]
mod tests;

pub use calls::Tracer;
pub use nm_base::AcceptNote;
