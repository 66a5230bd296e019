//! A sink of bytes.

ghost use Rattle.std.specs.Prelude.{◌≡◌, ℕ, List, OnOk, OnErr, is_err};
ghost use Rattle.std.specs.declared.option.Option.{Option};
ghost use Rattle.std.specs.Io.KnownBytes.{Appends};
ghost use Rattle.nm_outside.specs.Causes.{BelongsTo};
ghost use Rattle.nm_outside.specs.Files.{AppendsPart};

use crate::cabinet::Failed;

/// A place that takes bytes in order. What it was given may be told or not.
pub trait Sink {
    /// The bytes given so far, where they are told.
    ghost given: { Self → Option (List ℕ) };

    /// How often a put has failed.
    ghost faults: { Self → ℕ };

    /// Gives the whole piece, or fails after a part of it.
    fn put(&mut self, piece: &[u8]) -> Result<(), Failed>
        ensures ok { OnOk result (Appends (given self.old) (given self.new) piece.now) }
        ensures err { OnErr result (AppendsPart (given self.old) (given self.new) piece.now) }
        ensures cause { BelongsTo (is_err result) (faults self.old) (faults self.new) };
}
