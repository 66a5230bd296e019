//! Lists of events: runs, happened-before (Lamport), vector timestamps (Fidge, Mattern), races, which
//! letters are logged, replay and witnesses. To log only letters that race is an idea of Netzer and
//! Miller (Supercomputing 1992); the exact rule is this project's own.
#![tactic(auto)]

use nm_base::{Kind, ProcNo};

pub mod laws;
mod list;
#[cfg(test)]
mod tests;

pub use list::EventList;

/// One event: the number-th of its process, counted from 1.
#[derive(Clone, Copy, Debug, PartialEq, Eq)]
pub struct Event {
    pub proc: ProcNo,
    pub number: u32,
    pub kind: Kind,
}
