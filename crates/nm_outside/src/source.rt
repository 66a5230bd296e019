//! A source of bytes.

ghost use Rattle.std.specs.Prelude.{◌<◌, ℕ, List, is_err, length};
ghost use Rattle.std.specs.declared.option.Option.{Option};
ghost use Rattle.std.specs.Io.{ReadsAtMost};
ghost use Rattle.std.specs.Io.KnownBytes.{ReadConsumes};
ghost use Rattle.nm_outside.specs.Causes.{BelongsTo, IsCounted};

use crate::cabinet::Failed;

/// A place that gives bytes in order. What it has left may be told or not.
pub trait Source {
    /// The bytes that are left, where they are told.
    ghost left: { Self → Option (List ℕ) };

    /// How many bytes were taken.
    ghost taken: { Self → ℕ };

    /// How often a take has failed.
    ghost faults: { Self → ℕ };

    /// Moves the next bytes to the front of the buffer, and answers how many: 0 is the end. A failure takes nothing.
    fn take(&mut self, buf: &mut [u8]) -> Result<usize, Failed>
        requires { 0 < length buf.old }
        ensures bound { ReadsAtMost result buf.new }
        ensures bytes { ReadConsumes (left self.old) (left self.new) result buf.new }
        ensures counted { IsCounted result (taken self.old) (taken self.new) }
        ensures cause { BelongsTo (is_err result) (faults self.old) (faults self.new) };
}
