//! A source in memory.

ghost use Rattle.std.specs.Prelude.{◌≡◌, ◌<◌, ◌≤◌, Some, IfOk, is_err, length, min, take};
ghost use Rattle.std.specs.Io.{ReadsAtMost};
ghost use Rattle.std.specs.Io.KnownBytes.{ReadConsumes};
ghost use Rattle.nm_outside.specs.Causes.{BelongsTo, IsCounted};
ghost use Rattle.nm_outside.specs.Failing.{next_number, names_take};

use crate::cabinet::Failed;
use crate::source::Source;

/// Gives its bytes in pieces of at most so many.
#[derive(Drop)]
pub struct ListSource {
    bytes: Vec<u8>,
    place: usize,
    piece: u32,
    fails: Vec<u32>,
    takes: u64,
    taken: u64,
    faults: u64,

    ghost some: { 0 < piece },
    ghost within: { place ≤ length bytes.items },
}

impl ListSource {
    ghost use Rattle.nm_outside.specs.Held.{left_in, piece_of, take_fails, takes_of};

    /// The takes whose numbers stand in `fails` fail, counted from 1.
    pub fn new(bytes: Vec<u8>, piece: u32, fails: Vec<u32>) -> ListSource
        requires { 0 < piece }
        ensures left { left_in result ≡ bytes.items }
        ensures piece { piece_of result ≡ piece }
        ensures fails { take_fails result ≡ fails.items }
        ensures takes { takes_of result ≡ 0 }
    {
        ListSource {
            bytes,
            place: 0,
            piece,
            fails,
            takes: 0,
            taken: 0,
            faults: 0,
        }
    }
}

// Whether the nth take is to fail.
fn is_failing(fails: &[u32], nth: u64) -> bool
    ensures { result ≡ names_take fails.now nth }
{
    for fail in fails {
        if u64::from(*fail) == nth {
            return true;
        }
    }
    false
}

// Copies the next bytes to the front of the buffer, at most so many, and answers how many.
fn copy_front(rest: &[u8], piece: u32, buf: &mut [u8]) -> usize
    ensures count { result ≡ min (min (length rest.now) (length buf.old)) piece }
    ensures bytes { take result buf.new ≡ take result rest.now }
    ensures same_length { length buf.new ≡ length buf.old }
{
    let count = rest.len().min(buf.len()).min(piece as usize);
    let front = rest.split_at(count).0;
    buf.split_at_mut(count).0.copy_from_slice(front);
    count
}

impl Source for ListSource {
    ghost use Rattle.nm_outside.specs.Held.{left_in, piece_of, take_fails, takes_of};

    ghost left = { λ s. Some (left_in s) };

    ghost taken = { λ s. s.taken };

    ghost faults = { λ s. s.faults };

    /// Fails exactly where this take is to fail.
    fn take(&mut self, buf: &mut [u8]) -> Result<usize, Failed>
        requires { 0 < length buf.old }
        ensures bound { ReadsAtMost result buf.new }
        ensures bytes { ReadConsumes (Some (left_in self.old)) (Some (left_in self.new)) result buf.new }
        ensures counted { IsCounted result self.old.taken self.new.taken }
        ensures cause { BelongsTo (is_err result) self.old.faults self.new.faults }

        // Which take fails, and how many bytes are given.
        ensures fails { is_err result ≡ names_take (take_fails self.old) (next_number (takes_of self.old)) }
        ensures count { IfOk result (λ count.
            count ≡ min (min (length (left_in self.old)) (length buf.old)) (piece_of self.old)) }
        ensures takes { takes_of self.new ≡ next_number (takes_of self.old) }
        ensures same_piece { piece_of self.new ≡ piece_of self.old }
        ensures same_fails { take_fails self.new ≡ take_fails self.old }
    {
        self.takes = self.takes.saturating_add(1);
        if is_failing(&self.fails, self.takes) {
            self.faults = self.faults.saturating_add(1);
            return Err(Failed);
        }
        let rest = self.bytes.split_at(self.place).1;
        let count = copy_front(rest, self.piece, buf);
        self.place += count;
        self.taken = self.taken.saturating_add(count as u64);
        Ok(count)
    }
}
