//! The calls of std that reach outside, one by one. A failed one is counted, and nothing else raises the count.

ghost use Rattle.std.specs.Prelude.{◌≡◌, ◌<◌, ◌≤◌, IfOk, is_err, length};
ghost use Rattle.std.specs.Io.{ReadsAtMost, WritesAtMost};
ghost use Rattle.std.specs.Io.KnownBytes.{Keeps, ReadConsumes, WriteAppends};
ghost use Rattle.nm_outside.specs.Causes.{BelongsTo, Rose};
ghost use Rattle.nm_outside.specs.private.Opened.{is_missing, is_unopened};

use crate::cabinet::Failed;
use std::fs;
use std::io::{ErrorKind, Read, Write};
use std::rt::Files;

/// How often calls of one kind have failed. The count stops at the last value of its type.
#[derive(Drop)]
pub struct FaultCount {
    count: u64,
}

/// What opening a file answers.
#[derive(Drop)]
pub enum Opened<F: Drop> {
    /// The file, from its front.
    File(F),
    /// There is no such file.
    Absent,
    /// It couldn't be opened.
    Failed,
}

impl FaultCount {
    /// No call has failed yet.
    pub fn new() -> FaultCount
        ensures { result.count ≡ 0 }
    {
        FaultCount { count: 0 }
    }

    // A call failed.
    fn raise(&mut self)
        ensures rose { Rose self.old.count self.new.count }
        ensures later { self.old.count ≤ self.new.count }
    {
        self.count = self.count.saturating_add(1);
    }

    /// One read. No byte is the end.
    pub fn read<R: Read>(&mut self, reader: &mut R, buf: &mut [u8]) -> Result<usize, Failed>
        ensures bound { ReadsAtMost result buf.new }
        ensures bytes { ReadConsumes (R.remaining reader.old) (R.remaining reader.new) result buf.new }
        ensures cause { BelongsTo (is_err result) self.old.count self.new.count }
    {
        match reader.read(buf) {
            Ok(count) => Ok(count),
            Err(_) => {
                self.raise();
                Err(Failed)
            }
        }
    }

    /// One write of a piece that isn't empty. Where it takes no byte it has failed.
    pub fn write<W: Write>(&mut self, writer: &mut W, piece: &[u8]) -> Result<usize, Failed>
        requires { 0 < length piece.now }
        ensures bound { WritesAtMost result piece.now }
        ensures some { IfOk result (λ count. 0 < count) }
        ensures bytes { WriteAppends (W.contents writer.old) (W.contents writer.new) result piece.now }
        ensures cause { BelongsTo (is_err result) self.old.count self.new.count }
    {
        match writer.write(piece) {
            Ok(count) if count > 0 => Ok(count),
            _ => {
                self.raise();
                Err(Failed)
            }
        }
    }

    /// Hands on what a writer holds back.
    pub fn flush<W: Write>(&mut self, writer: &mut W) -> Result<(), Failed>
        ensures bytes { Keeps (W.contents writer.old) (W.contents writer.new) }
        ensures cause { BelongsTo (is_err result) self.old.count self.new.count }
    {
        match writer.flush() {
            Ok(()) => Ok(()),
            Err(_) => {
                self.raise();
                Err(Failed)
            }
        }
    }

    /// Makes the named file empty, and opens it for writing.
    pub fn create<R: Files>(&mut self, rt: &R, name: &str) -> Result<R::File, Failed>
        ensures cause { BelongsTo (is_err result) self.old.count self.new.count }
    {
        match fs::create(rt, name) {
            Ok(file) => Ok(file),
            Err(_) => {
                self.raise();
                Err(Failed)
            }
        }
    }

    /// Opens the named file for reading. One that isn't found is counted in `absents`.
    pub fn open<R: Files>(
        &mut self,
        absents: &mut FaultCount,
        rt: &R,
        name: &str,
    ) -> Opened<R::File>
        ensures failed { BelongsTo (is_unopened result) self.old.count self.new.count }
        ensures absent { BelongsTo (is_missing result) absents.old.count absents.new.count }
    {
        match fs::open(rt, name) {
            Ok(file) => Opened::File(file),
            Err(error) if error.kind() == ErrorKind::NotFound => {
                absents.raise();
                Opened::Absent
            }
            Err(_) => {
                self.raise();
                Opened::Failed
            }
        }
    }
}
