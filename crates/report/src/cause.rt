//! Why a command was refused.

use nm_base::LetterId;

/// Why a command was refused.
#[derive(Clone, Copy, Debug, PartialEq, Eq)]
pub enum Refusal<'a> {
    /// No command has these words.
    Usage,
    /// The file isn't there.
    Absent {
        name: &'a str,
    },
    /// The file can't be read.
    ReadFault {
        name: &'a str,
    },
    /// The input of a debugger can't be read.
    InputFault,
    /// The file passes its limit.
    TooLong {
        name: &'a str,
    },
    /// The text is no program: the kind of refusal and the line, counted from 1.
    ProgramRefused {
        kind: &'a str,
        line: u32,
    },
    /// The text is no schedule: the kind of refusal and the place of the word's first byte.
    ScheduleRefused {
        kind: &'a str,
        place: u32,
    },
    /// The bytes are no trace: the kind of damage and its place.
    TraceDamaged {
        kind: &'a str,
        place: u32,
    },
    /// The trace is that of another program: the digest in the trace and that of the file.
    OtherProgram {
        of_trace: [u8; 32],
        of_file: [u8; 32],
    },
    /// Finishing is stuck: for each of n processes the events made, and its count in the trace.
    Stuck {
        n: u8,
        events: [u32; 32],
        counts: [u32; 32],
    },
    /// A recording lacked memory after so many turns.
    Stopped {
        turns: u32,
    },
    /// The run has another trace: a letter in which they differ.
    NotItsTrace {
        letter: LetterId,
    },
    /// The input of a debugger is too long.
    InputFull,
}
