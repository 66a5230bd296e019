//! The line of an input that is begun.

ghost use Rattle.std.specs.Prelude.{◌≡◌, ◌==◌, ◌++◌, ◌∷◌, ℕ, List, [], length, option_copied};
ghost use Rattle.nm_top.specs.Debugging.{without_return};
ghost use Rattle.nm_top.specs.private.LineFronts.{front_of, short};

use std::marker::Model;

/// A line has at most so many bytes.
pub const MAX_LINE_BYTES: usize = 255;
// A line and a carriage return.
const ROOM: usize = 256;

/// The first bytes of a line as far as it was read, and whether it has more.
#[derive(Drop)]
pub struct LineBuffer {
    bytes: [u8; ROOM],
    len: usize,
    more: bool,
}

impl Model for LineBuffer {
    ghost use Rattle.std.specs.Prelude.{◌≤◌, length, take};
    ghost use Rattle.nm_top.specs.private.LineFronts.{Front};

    ghost Value = { Front };

    ghost view = { λ b. record { bytes = take b.len b.bytes; more = b.more } };

    ghost invariant = { λ b. b.len ≤ 256 };
}

// The line without the carriage return before its newline.
fn without_return(line: &[u8]) -> &[u8]
    ensures { result.now ≡ without_return line.now }
{
    let len = line.len();
    if len == 0 {
        return line;
    }
    if line[len - 1] == b'\r' {
        return &line[..len - 1];
    }
    line
}

// The line, if it isn't too long.
fn short(line: &[u8]) -> Option<&[u8]>
    ensures { option_copied result ≡ short line.now }
{
    if line.len() <= MAX_LINE_BYTES {
        Some(line)
    } else {
        None
    }
}

impl LineBuffer {
    /// No line is begun.
    pub fn new() -> LineBuffer
        ensures { result ≡ front_of [] }
    {
        LineBuffer {
            bytes: [0; ROOM],
            len: 0,
            more: false,
        }
    }

    /// A byte more of the line.
    pub fn put(&mut self, byte: u8)
        ensures { (line : List ℕ) → self.old ≡ front_of line → self.new ≡ front_of (line ++ byte ∷ []) }
    {
        if self.len < ROOM {
            self.bytes[self.len] = byte;
            self.len += 1;
        } else {
            self.more = true;
        }
    }

    /// Begins the next line.
    pub fn clear(&mut self)
        ensures { self.new ≡ front_of [] }
    {
        self.len = 0;
        self.more = false;
    }

    /// Whether no line is begun.
    pub fn is_empty(&self) -> bool
        ensures { (line : List ℕ) → self.now ≡ front_of line → result ≡ (length line == 0) }
    {
        self.len == 0
    }

    /// The line that a newline ended, without the carriage return before that, if it isn't too long.
    pub fn ended(&self) -> Option<&[u8]>
        ensures { (line : List ℕ) → self.now ≡ front_of line → option_copied result ≡ short (without_return line) }
    {
        if self.more {
            return None;
        }
        short(without_return(&self.bytes[..self.len]))
    }

    /// The last line of an input, which no newline ended, if it isn't too long.
    pub fn last(&self) -> Option<&[u8]>
        ensures { (line : List ℕ) → self.now ≡ front_of line → option_copied result ≡ short line }
    {
        if self.more {
            return None;
        }
        short(&self.bytes[..self.len])
    }
}
