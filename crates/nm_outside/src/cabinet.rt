//! A cabinet of files.

ghost use Rattle.std.specs.Prelude.{◌≡◌, ℕ, ◌+◌, List, Bool, true, false, IsTrue, IsSome, IsOk, OnOk, OnErr, is_err};
ghost use Rattle.std.specs.declared.option.Option.{Option};
ghost use Rattle.nm_outside.specs.Begun.{has_failed};
ghost use Rattle.nm_outside.specs.Causes.{BelongsTo};
ghost use Rattle.nm_outside.specs.Files.{Files, file_in, emptied, extended, ExtendsPart, HasRoom};
ghost use Rattle.nm_outside.specs.Fetched.{Fetches, IsWithin, is_absent, is_failed};

use std::alloc::Global;

/// A call of the outside failed.
#[derive(Clone, Copy, Debug, PartialEq, Eq)]
pub struct Failed;

/// What a fetch answers.
#[derive(Debug, Drop)]
pub enum Fetched {
    /// The file's bytes, as far as they were asked for.
    Bytes(Vec<u8>),
    /// There is no such file.
    Absent,
    /// A read failed.
    Failed,
    /// Memory was refused.
    Memory,
}

/// Why a file couldn't be begun.
#[derive(Clone, Copy, Debug, PartialEq, Eq)]
pub enum BeginFault {
    /// It couldn't be made.
    Failed,
    /// Memory was refused.
    Memory,
}

/// Files under their names, which are fetched whole and written one at a time from their front.
/// What the files hold may be told or not. The answers for a missing file, a failed read and a
/// failed write each have a count, which rose exactly where the answer was given.
pub trait Cabinet {
    /// The files, where they are told.
    ghost files: { Self → Option Files };

    /// Whether a file is open for appending.
    ghost is_open: { Self → Bool };

    /// The name of the open file, where the files are told and one is open.
    ghost open_name: { Self → List ℕ };

    /// The bytes of a new file that will surely be taken, where that is told.
    ghost sure_room: { Self → Option ℕ };

    /// How often a read has failed.
    ghost read_faults: { Self → ℕ };

    /// How often a write has failed.
    ghost write_faults: { Self → ℕ };

    /// How often a file wasn't there.
    ghost absents: { Self → ℕ };

    /// All bytes of the file, or its first `limit + 1` where it has more.
    fn fetch(&mut self, alloc: Global, name: &str, limit: u32) -> Fetched
        ensures answer { Fetches (files self.old) name.now limit result }
        ensures bound { IsWithin (limit + 1) result }
        ensures absent { BelongsTo (is_absent result) (absents self.old) (absents self.new) }
        ensures failed { BelongsTo (is_failed result) (read_faults self.old) (read_faults self.new) }

        // Nothing else changes.
        ensures files { files self.new ≡ files self.old }
        ensures is_open { is_open self.new ≡ is_open self.old }
        ensures open_name { open_name self.new ≡ open_name self.old }
        ensures sure_room { sure_room self.new ≡ sure_room self.old }
        ensures write_faults { write_faults self.new ≡ write_faults self.old };

    /// Makes the named file empty and opens it. A file that was open is left.
    fn begin(&mut self, alloc: Global, name: &str) -> Result<(), BeginFault>
        ensures ok { OnOk result (files self.new ≡ emptied (files self.old) name.now) }
        ensures opened { OnOk result (IsTrue (is_open self.new)) }
        ensures name { OnOk result (IsSome (files self.new) → open_name self.new ≡ name.now) }
        ensures err { OnErr result (files self.new ≡ files self.old) }
        ensures err_open { OnErr result (is_open self.new ≡ is_open self.old) }
        ensures err_name { OnErr result (open_name self.new ≡ open_name self.old) }
        ensures failed { BelongsTo (has_failed result) (write_faults self.old) (write_faults self.new) }
        ensures sure { IsSome (sure_room self.old) → has_failed result ≡ false }

        // Nothing else changes.
        ensures sure_room { sure_room self.new ≡ sure_room self.old }
        ensures read_faults { read_faults self.new ≡ read_faults self.old }
        ensures absents { absents self.new ≡ absents self.old };

    /// Puts the piece at the end of the open file, or fails after a part of it.
    fn append(&mut self, piece: &[u8]) -> Result<(), Failed>
        requires { IsTrue (is_open self.old) }
        ensures ok { OnOk result (files self.new ≡ extended (files self.old) (open_name self.old) piece.now) }
        ensures err { OnErr result (ExtendsPart (files self.old) (open_name self.old) piece.now (files self.new)) }
        ensures failed { BelongsTo (is_err result) (write_faults self.old) (write_faults self.new) }
        ensures sure { HasRoom (sure_room self.old) (file_in (files self.old) (open_name self.old)) piece.now
            → IsOk result }

        // Nothing else changes.
        ensures is_open { is_open self.new ≡ is_open self.old }
        ensures open_name { open_name self.new ≡ open_name self.old }
        ensures sure_room { sure_room self.new ≡ sure_room self.old }
        ensures read_faults { read_faults self.new ≡ read_faults self.old }
        ensures absents { absents self.new ≡ absents self.old };

    /// Ends the open file.
    fn close(&mut self) -> Result<(), Failed>
        requires { IsTrue (is_open self.old) }
        ensures closed { is_open self.new ≡ false }
        ensures failed { BelongsTo (is_err result) (write_faults self.old) (write_faults self.new) }
        ensures sure { IsSome (sure_room self.old) → IsOk result }

        // Nothing else changes.
        ensures files { files self.new ≡ files self.old }
        ensures sure_room { sure_room self.new ≡ sure_room self.old }
        ensures read_faults { read_faults self.new ≡ read_faults self.old }
        ensures absents { absents self.new ≡ absents self.old };
}
