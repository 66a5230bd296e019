//! What a look at a process answers.

use nm_base::Ctype;

/// The value of a variable or of an element of an array, by its bits, with the type by which it is read.
#[derive(Clone, Copy, Debug, PartialEq, Eq)]
pub struct Seen {
    pub bits: u32,
    pub of: Ctype,
}

/// Why a name shows no value.
#[derive(Clone, Copy, Debug, PartialEq, Eq)]
pub enum LookFault {
    /// Nothing has the name.
    NoName,
    /// It is an array, and no index is given.
    NeedsIndex,
    /// It is a scalar with an index, or the index isn't below the length.
    NoIndex,
}

/// A call that hasn't returned: the number of its function, and the line at which it is.
#[derive(Clone, Copy, Debug, PartialEq, Eq)]
pub struct FrameSeen {
    pub function: u32,
    pub line: u32,
}
