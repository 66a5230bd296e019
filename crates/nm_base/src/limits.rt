//! The limits of the product. Each stands here once; code and contracts cite it by its name.

/// A program's text has at most so many bytes.
pub const MAX_PROGRAM_BYTES: u32 = 262_144;

/// A schedule's text has at most so many bytes.
pub const MAX_SCHEDULE_BYTES: u32 = 4_194_304;

/// A trace file has at most so many bytes.
pub const MAX_TRACE_BYTES: u32 = 16_777_216;

/// A run has at most so many processes.
pub const MAX_PROCESSES: u8 = 32;

/// A schedule has at most so many turns.
pub const MAX_TURNS: u32 = 1_000_000;

/// A run has at most so many events, one for each turn.
pub const MAX_EVENTS: u32 = 1_000_000;

/// A process's output has at most so many bytes.
pub const MAX_OUTPUT_BYTES: u32 = 1_048_576;

/// A process has at most so many words of data: its globals and its live frames.
pub const MAX_DATA_WORDS: u32 = 65_536;
