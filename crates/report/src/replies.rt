//! The replies of a debugger.

/// Where a breakpoint fits.
#[derive(Clone, Copy, Debug, PartialEq, Eq)]
pub enum Spot {
    /// After an event of its process whose next event is a Line of this line, counted from 1.
    Line { line: u32 },
    /// After an event of its process that accepted a letter.
    Receive,
}

/// A reply without a number.
#[derive(Clone, Copy, Debug, PartialEq, Eq)]
pub enum Notice {
    /// No place for a breakpoint is free.
    Full,
    /// No breakpoint has the number.
    NoBreak,
    /// All recorded counts are reached.
    Finished,
    /// No process can go on, and some count isn't reached.
    Stuck,
    /// The process is over.
    IdleOver,
    /// The process has its recorded count.
    IdleCount,
    /// The process waits, and no letter that waits for it is allowed.
    IdleLetter,
    /// There is no such event.
    NoEvent,
    /// Nothing has the name.
    NoName,
    /// An array was named without an index.
    NeedsIndex,
    /// A scalar was named with an index, or the index isn't below the length.
    NoIndex,
    /// The process has no frame.
    NoFrame,
    /// No letter waits for the process.
    NoMail,
    /// No watcher has the number.
    NoWatcher,
    /// No process has the number.
    NoProcess,
    /// The line isn't one of a debugger.
    Unknown,
    /// Both are one event.
    Same,
    /// The first event happened before the second.
    Before,
    /// The second event happened before the first.
    After,
    /// Neither of two events happened before the other.
    Unordered,
    /// The line has more than 255 bytes.
    TooLong,
}
