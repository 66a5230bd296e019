//! Why a recording failed.

/// Why a recording failed.
#[derive(Clone, Copy, Debug, PartialEq, Eq)]
pub enum RecordFault {
    /// A write of the trace file failed.
    Write,
    /// Memory was refused before the first turn.
    Memory,
}
