//! A source over any reader of std.

ghost use Rattle.std.specs.Prelude.{◌≡◌};

use crate::cabinet::Failed;
use crate::fault_count::FaultCount;
use crate::source::Source;
use std::io::Read;

/// Takes the bytes from a reader, and tells what is left as far as the reader does.
#[derive(Drop)]
pub struct ReaderSource<R> {
    reader: R,
    taken: u64,
    faults: FaultCount,
}

impl<R: Read> ReaderSource<R> {
    /// Over a reader. Nothing was taken, and nothing failed yet.
    pub fn new(reader: R) -> ReaderSource<R>
        ensures left { ⟦<ReaderSource<R> as Source>⟧.left result ≡ R.remaining reader }
        ensures taken { ⟦<ReaderSource<R> as Source>⟧.taken result ≡ 0 }
        ensures faults { ⟦<ReaderSource<R> as Source>⟧.faults result ≡ 0 }
    {
        ReaderSource {
            reader,
            taken: 0,
            faults: FaultCount::new(),
        }
    }
}

impl<R: Read> Source for ReaderSource<R> {
    ghost left = { λ s. R.remaining s.reader };

    ghost taken = { λ s. s.taken };

    ghost faults = { λ s. s.faults.count };

    fn take(&mut self, buf: &mut [u8]) -> Result<usize, Failed> {
        let count = self.faults.read(&mut self.reader, buf)?;
        self.taken = self.taken.saturating_add(count as u64);
        Ok(count)
    }
}
