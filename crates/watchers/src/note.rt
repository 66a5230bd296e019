//! The line that a watcher says.

ghost use Rattle.std.specs.Prelude.{◌≡◌, ◌+◌, ◌^◌, ◌<◌, ◌≤◌, [], ◌++◌, length, decimal};
ghost use Rattle.watchers.specs.Lines.{text_in};

use itoa::Buffer;

/// A line of at most 192 bytes, without its newline: the first `len` of `bytes`.
#[derive(Clone, Copy, Debug)]
pub struct Note {
    pub len: u8,
    pub bytes: [u8; 192],
}

impl Note {
    /// The line's bytes.
    pub fn text(&self) -> &[u8]
        requires { self.now.len ≤ 192 }
        ensures { result.now ≡ text_in self.now }
    {
        &self.bytes[..self.len as usize]
    }
}

/// A line without bytes.
pub(crate) fn empty() -> Note
    ensures len { result.len ≡ 0 }
    ensures text { text_in result ≡ [] }
{
    Note {
        len: 0,
        bytes: [0; 192],
    }
}

/// The line with a word and a number put behind it.
pub(crate) fn with_count(mut note: Note, word: &[u8], count: u64) -> Note
    requires room { note.len + length word.now + 20 ≤ 192 }
    ensures len { result.len ≤ note.len + length word.now + 20 }
    ensures text { text_in result ≡ text_in note ++ word.now ++ decimal count }
    ensures small { count < 2 ^ 64 }
{
    let mut digits = Buffer::new();
    put(&mut note, word);
    put(&mut note, digits.format(count).as_bytes());
    note
}

// Puts bytes behind a line.
fn put(note: &mut Note, text: &[u8])
    requires room { note.old.len + length text.now ≤ 192 }
    ensures len { note.new.len ≡ note.old.len + length text.now }
    ensures text { text_in note.new ≡ text_in note.old ++ text.now }
{
    for byte in text {
        note.bytes[note.len as usize] = *byte;
        note.len += 1;
    }
}
