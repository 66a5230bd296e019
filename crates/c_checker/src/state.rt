//! What is known so far.

use crate::entries::Entries;
use crate::headings::Headings;
use c_tree::{Global, Slot};
use nm_base::{Bytes, List};

/// What is known of a unit so far.
#[derive(Drop)]
pub struct File {
    pub texts: List<Bytes>,
    pub globals: List<Global>,
    /// The words of the globals.
    pub words: u32,
    /// The functions.
    pub headings: Headings,
    /// The names that are visible.
    pub entries: Entries,
}

/// What is known in a function's body so far.
#[derive(Drop)]
pub struct Body {
    pub texts: List<Bytes>,
    /// How many parameters the function has. They are its first slots, and its locals the others.
    pub params: u32,
    pub locals: List<Slot>,
    /// The names that are visible.
    pub entries: Entries,
    /// How many blocks were begun.
    pub blocks: u32,
}

/// What a statement stands in.
#[derive(Clone, Copy)]
pub struct Around {
    pub in_loop: bool,
    /// In a loop or a switch.
    pub breaks: bool,
}
