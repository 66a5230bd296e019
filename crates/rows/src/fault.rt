//! Why a table can't be read or carried out.

use nm_base::WantOfMemory;
use std::alloc::{AllocError, AllocFailed};
use std::{fmt, io};

/// What stops the work on a table.
#[derive(Clone, Copy, Debug, PartialEq, Eq)]
pub enum Fault {
    /// The first word is none of those that begin a line, or the line says too little or too much.
    Line,
    /// A word that has to be a number is none.
    Number,
    /// No bytes have that name.
    Name,
    /// The digits aren't pairs of hexadecimal ones.
    Digits,
    /// No status has that name.
    Status,
    /// No watcher has that name.
    Watcher,
    /// The line stands where it can't.
    Place,
    /// The file of the table couldn't be read, or nothing could be printed.
    Outside,
    Memory,
}

impl fmt::Display for Fault {
    fn fmt<W: fmt::Write>(&self, f: &mut fmt::Formatter<W>) -> fmt::Result {
        match self {
            Fault::Line => write!(f, "no line of a table"),
            Fault::Number => write!(f, "no number that fits"),
            Fault::Name => write!(f, "no bytes of that name"),
            Fault::Digits => write!(f, "no pairs of hexadecimal digits"),
            Fault::Status => write!(f, "no status of that name"),
            Fault::Watcher => write!(f, "no watcher of that name"),
            Fault::Place => write!(f, "a line that can't stand here"),
            Fault::Outside => write!(f, "reading or printing failed"),
            Fault::Memory => write!(f, "out of memory"),
        }
    }
}

impl From<AllocError> for Fault {
    fn from(_error: AllocError) -> Fault {
        Fault::Memory
    }
}

impl<T: Drop> From<AllocFailed<T>> for Fault {
    fn from(_error: AllocFailed<T>) -> Fault {
        Fault::Memory
    }
}

impl From<WantOfMemory> for Fault {
    fn from(_error: WantOfMemory) -> Fault {
        Fault::Memory
    }
}

impl From<io::Error> for Fault {
    fn from(_error: io::Error) -> Fault {
        Fault::Outside
    }
}
