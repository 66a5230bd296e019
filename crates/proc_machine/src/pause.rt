//! What a machine does next.

use nm_base::FaultCause;

/// The event before which a machine stands.
#[derive(Clone, Copy, Debug, PartialEq, Eq)]
pub enum Pause {
    /// Execution comes to this line.
    Line { line: u32 },
    /// It sends a letter.
    Send,
    /// It waits for a letter on a channel of the set: bit c stands for channel c.
    Receive { set: u32 },
    /// It prints.
    Print,
    /// `main` returns this value.
    End { value: i32 },
    /// It meets a fault.
    Fault { cause: FaultCause },
    /// Nothing: it ended or met a fault.
    Done,
}
