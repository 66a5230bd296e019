//! The kinds of events and the causes of faults.

use crate::letter::{LetterId, ProcNo};

/// What one event of a process is.
#[derive(Clone, Copy, Debug, PartialEq, Eq)]
pub enum Kind {
    /// Execution came to this line, counted from 1.
    Line {
        line: u32,
    },
    /// The process sent its letter `number`, counted from 0. Words past `len` are 0.
    Sent {
        number: u32,
        dest: ProcNo,
        chan: u8,
        len: u8,
        words: [u32; 8],
    },
    /// A receive with this set of channels (bit c stands for channel c) accepted a letter.
    Accepted {
        set: u32,
        id: LetterId,
    },
    /// The process's output grew by so many bytes.
    Printed {
        bytes: u32,
    },
    /// `main` returned this value.
    Ended {
        value: i32,
    },
    /// The process met a fault and goes no further.
    Faulted {
        cause: FaultCause,
    },
}

/// Why a process can't go on.
#[derive(Clone, Copy, Debug, PartialEq, Eq)]
pub enum FaultCause {
    /// The exact result of an operation on int lies outside -2147483648 to 2147483647.
    Overflow,
    /// The right operand of `/` or `%` is 0.
    DivideByZero,
    /// A shift count is outside 0 to 31.
    Shift,
    /// A subscript is outside 0 to length - 1.
    Index,
    /// A send names a process that there isn't or a channel outside 0 to 31.
    Address,
    /// A receive names no channel.
    EmptySet,
    /// A letter is looked at before one was accepted, or past its last word.
    NoLetter,
    /// A call is made with 256 live frames.
    DepthFull,
    /// A call would bring the data words above 65,536.
    DataFull,
    /// A print would bring the output above 1,048,576 bytes.
    OutputFull,
}
