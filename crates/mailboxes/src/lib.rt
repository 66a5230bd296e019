//! The letters on their way, and the gates that say which of them a receive may accept.
#![tactic(auto)]

mod gate;
mod list_mail;
mod mail;
mod ordered_mail;
mod queues;
mod ready;
#[cfg(test)]
mod tests;

pub use gate::{FreeGate, Gate};
pub use list_mail::ListMail;
pub use mail::Mail;
pub use ordered_mail::OrderedMail;
