//! A cabinet over real files.

ghost use Rattle.std.specs.Prelude.{◌≡◌, ◌+◌, None, Some, IfSome, IsOk, IsTrue, OnOk, OnErr, is_err, is_some, [], false};
ghost use Rattle.nm_outside.specs.Causes.{BelongsTo};
ghost use Rattle.std.specs.Io.KnownBytes.{Appends};
ghost use Rattle.nm_outside.specs.Files.{extended, file_in, ExtendsPart, HasRoom};
ghost use Rattle.nm_outside.specs.Fetched.{IsWithin, Tells, is_absent, is_failed};

use crate::cabinet::{BeginFault, Cabinet, Failed, Fetched};
use crate::fault_count::{FaultCount, Opened};
use crate::writer_sink::write_whole;
use std::alloc::Global;
use std::io::Read;
use std::rt::Files;

// Bytes are read in pieces of so many.
const PIECE: usize = 65_536;

/// Reads and writes real files. It doesn't tell what they hold. A name that isn't found is absent;
/// a folder, or a path through a file, is a read that fails.
#[derive(Drop)]
pub struct DiskCabinet<'a, R: Files> {
    rt: &'a R,
    file: Option<R::File>,
    reads: FaultCount,
    writes: FaultCount,
    absents: FaultCount,
}

impl<'a, R: Files> DiskCabinet<'a, R> {
    /// Over the files that the runtime opens. No file is open, and nothing failed yet.
    pub fn new(rt: &'a R) -> DiskCabinet<'a, R>
        ensures closed { ⟦<DiskCabinet<'a, R> as Cabinet>⟧.is_open result ≡ false }
        ensures read_faults { ⟦<DiskCabinet<'a, R> as Cabinet>⟧.read_faults result ≡ 0 }
        ensures write_faults { ⟦<DiskCabinet<'a, R> as Cabinet>⟧.write_faults result ≡ 0 }
        ensures absents { ⟦<DiskCabinet<'a, R> as Cabinet>⟧.absents result ≡ 0 }
    {
        DiskCabinet {
            rt,
            file: None,
            reads: FaultCount::new(),
            writes: FaultCount::new(),
            absents: FaultCount::new(),
        }
    }
}

// The bytes that a reader has left, or the first `limit + 1` where it has more. A refused growth is want of memory,
// and each failure of a read is a failure, one for want of memory in the system too.
pub(crate) fn first_bytes<R: Read>(
    alloc: Global,
    faults: &mut FaultCount,
    reader: &mut R,
    limit: u32,
) -> Fetched
    ensures answer { IfSome (R.remaining reader.old) (λ left. Tells (Some left) limit result) }
    ensures bound { IsWithin (limit + 1) result }
    ensures found { is_absent result ≡ false }
    ensures cause { BelongsTo (is_failed result) faults.old.count faults.new.count }
{
    let count = limit as usize + 1;
    let mut bytes = Vec::new(alloc);
    let mut piece = [0; PIECE];
    while bytes.len() < count {
        let part = piece.split_at_mut((count - bytes.len()).min(PIECE)).0;
        match faults.read(reader, part) {
            Ok(0) => return Fetched::Bytes(bytes),
            Ok(read) => {
                if bytes.extend_from_slice(part.split_at(read).0).is_err() {
                    return Fetched::Memory;
                }
            }
            Err(_) => return Fetched::Failed,
        }
    }
    Fetched::Bytes(bytes)
}

impl<R: Files> Cabinet for DiskCabinet<'_, R> {
    ghost files = { λ c. None };

    ghost is_open = { λ c. is_some c.file };

    ghost open_name = { λ c. [] };

    ghost sure_room = { λ c. None };

    ghost read_faults = { λ c. c.reads.count };

    ghost write_faults = { λ c. c.writes.count };

    ghost absents = { λ c. c.absents.count };

    fn fetch(&mut self, alloc: Global, name: &str, limit: u32) -> Fetched {
        match self.reads.open(&mut self.absents, self.rt, name) {
            Opened::File(mut file) => first_bytes(alloc, &mut self.reads, &mut file, limit),
            Opened::Absent => Fetched::Absent,
            Opened::Failed => Fetched::Failed,
        }
    }

    fn begin(&mut self, _alloc: Global, name: &str) -> Result<(), BeginFault> {
        match self.writes.create(self.rt, name) {
            Ok(file) => {
                self.file = Some(file);
                Ok(())
            }
            Err(Failed) => Err(BeginFault::Failed),
        }
    }

    /// The open file grows by the piece, where it tells what it holds.
    fn append(&mut self, piece: &[u8]) -> Result<(), Failed>
        requires { IsTrue (is_some self.old.file) }
        ensures grows { OnOk result (IfSome self.old.file (λ old. IfSome self.new.file (λ new.
            Appends (R.File.contents old) (R.File.contents new) piece.now))) }
        ensures ok { OnOk result (None ≡ extended None [] piece.now) }
        ensures err { OnErr result (ExtendsPart None [] piece.now None) }
        ensures failed { BelongsTo (is_err result) self.old.writes.count self.new.writes.count }
        ensures sure { HasRoom None (file_in None []) piece.now → IsOk result }
        ensures is_open { is_some self.new.file ≡ is_some self.old.file }
        ensures read_faults { self.new.reads.count ≡ self.old.reads.count }
        ensures absents { self.new.absents.count ≡ self.old.absents.count }
    {
        match &mut self.file {
            Some(file) => write_whole(&mut self.writes, file, piece),
            None => Err(Failed),
        }
    }

    fn close(&mut self) -> Result<(), Failed> {
        match self.file.take() {
            Some(mut file) => self.writes.flush(&mut file),
            None => Err(Failed),
        }
    }
}
