//! What comparing a trace with a list of events tells.

use nm_base::LetterId;

/// Whether a trace has the entries of a list of events.
#[derive(Clone, Copy, Debug, PartialEq, Eq)]
pub enum Compared {
    Same,
    /// The letter of the trace's first entry that the list lacks, else of the list's first entry that the
    /// trace lacks.
    Differs { first: LetterId },
}
