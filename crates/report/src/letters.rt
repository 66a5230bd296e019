//! Letters that wait, and clocks.

ghost use Rattle.std.specs.Prelude.{◌≡◌, ℕ, slice_index, take};
ghost use Rattle.std.specs.List.{flat_map};
ghost use Rattle.nm_base.specs.Message.{message_of};
ghost use Rattle.report.specs.Printing.{Prints};
ghost use Rattle.report.specs.Replies as replies;
ghost use Rattle.report.specs.Replies.{AgreeBelow};

use crate::put::put_pieces;
use itoa::Buffer;
use nm_base::{Letter, LetterId, Stamp, as_int};
use nm_outside::{Failed, Sink};

// The name of a letter and its channel.
fn put_letter<O: Sink>(out: &mut O, id: LetterId, chan: u8) -> Result<(), Failed>
    ensures { Prints (O.given out.old) (O.given out.new) (O.faults out.old) (O.faults out.new)
        (replies.letter_text id chan) result }
{
    let mut sender_digits = Buffer::new();
    let mut number_digits = Buffer::new();
    let mut chan_digits = Buffer::new();
    put_pieces(
        out,
        &[
            sender_digits.format(id.sender.no).as_bytes(),
            b".",
            number_digits.format(id.number).as_bytes(),
            b" on ",
            chan_digits.format(chan).as_bytes(),
            b":",
        ],
    )
}

// The words that a letter has.
fn words_of(letter: &Letter) -> &[u32]
    ensures { result.now ≡ take letter.now.len letter.now.words }
{
    let len = letter.len as usize;
    if len < 8 {
        &letter.words[..len]
    } else {
        letter.words.as_slice()
    }
}

// A word, as an int.
fn put_word<O: Sink>(out: &mut O, bits: u32) -> Result<(), Failed>
    ensures { Prints (O.given out.old) (O.given out.new) (O.faults out.old) (O.faults out.new)
        (replies.word_text bits) result }
{
    let mut digits = Buffer::new();
    put_pieces(out, &[b" ", digits.format(as_int(bits)).as_bytes()])
}

// The words, one behind the other.
fn put_words<O: Sink>(out: &mut O, words: &[u32]) -> Result<(), Failed>
    ensures { Prints (O.given out.old) (O.given out.new) (O.faults out.old) (O.faults out.new)
        (flat_map replies.word_text words.now) result }
{
    for word in words {
        put_word(out, *word)?;
    }
    Ok(())
}

// The words that a letter has.
fn put_letter_words<O: Sink>(out: &mut O, letter: &Letter) -> Result<(), Failed>
    ensures { Prints (O.given out.old) (O.given out.new) (O.faults out.old) (O.faults out.new)
        (flat_map replies.word_text (take letter.now.len letter.now.words)) result }
{
    put_words(out, words_of(letter))
}

// The part of a process in a timestamp.
fn part_of(stamp: &Stamp, process: u8) -> u32
    ensures { result ≡ slice_index stamp.now.parts process }
{
    match stamp.parts.get(process as usize) {
        Some(part) => *part,
        None => 0,
    }
}

// The part of a process.
fn put_part<O: Sink>(out: &mut O, stamp: &Stamp, process: u8) -> Result<(), Failed>
    ensures { Prints (O.given out.old) (O.given out.new) (O.faults out.old) (O.faults out.new)
        (replies.part_text (slice_index stamp.now.parts) process) result }
{
    let part = part_of(stamp, process);
    let mut digits = Buffer::new();
    put_pieces(out, &[b" ", digits.format(part).as_bytes()])
}

// The parts of n processes.
fn put_parts<O: Sink>(out: &mut O, n: u8, stamp: &Stamp) -> Result<(), Failed>
    ensures { Prints (O.given out.old) (O.given out.new) (O.faults out.old) (O.faults out.new)
        (replies.parts_text n (slice_index stamp.now.parts)) result }
{
    for process in 0..n {
        put_part(out, stamp, process)?;
    }
    Ok(())
}

// The timestamp behind a letter.
fn put_stamp<O: Sink>(out: &mut O, n: u8, stamp: &Stamp) -> Result<(), Failed>
    ensures { Prints (O.given out.old) (O.given out.new) (O.faults out.old) (O.faults out.new)
        (replies.stamp_text n (slice_index stamp.now.parts)) result }
{
    put_pieces(out, &[b" @"])?;
    put_parts(out, n, stamp)?;
    put_pieces(out, &[b"\n"])
}

// A letter that waits, with the parts of its timestamp.
fn put_waiting<O: Sink>(out: &mut O, n: u8, letter: &Letter) -> Result<(), Failed>
    ensures { Prints (O.given out.old) (O.given out.new) (O.faults out.old) (O.faults out.new)
        (replies.waiting_line n (message_of letter.now) (slice_index letter.now.stamp.parts)) result }
{
    put_letter(out, letter.id, letter.chan)?;
    put_letter_words(out, letter)?;
    put_stamp(out, n, &letter.stamp)
}

/// The line of a letter that waits: its name, its channel, its words, and the timestamp of its send
/// for n processes.
pub fn waiting_line<O: Sink>(out: &mut O, n: u8, letter: &Letter) -> Result<(), Failed>
    ensures { (parts : ℕ → ℕ) → AgreeBelow n (slice_index letter.now.stamp.parts) parts
        → Prints (O.given out.old) (O.given out.new) (O.faults out.old) (O.faults out.new)
        (replies.waiting_line n (message_of letter.now) parts) result }
{
    put_waiting(out, n, letter)
}

// Whose clock it is.
fn put_clock<O: Sink>(out: &mut O, process: u8) -> Result<(), Failed>
    ensures { Prints (O.given out.old) (O.given out.new) (O.faults out.old) (O.faults out.new)
        (replies.clock_text process) result }
{
    let mut digits = Buffer::new();
    put_pieces(out, &[b"clock ", digits.format(process).as_bytes(), b":"])
}

// The clock of a process, with its parts.
fn put_clock_parts<O: Sink>(out: &mut O, process: u8, n: u8, stamp: &Stamp) -> Result<(), Failed>
    ensures { Prints (O.given out.old) (O.given out.new) (O.faults out.old) (O.faults out.new)
        (replies.clock_line process n (slice_index stamp.now.parts)) result }
{
    put_clock(out, process)?;
    put_parts(out, n, stamp)?;
    put_pieces(out, &[b"\n"])
}

/// The line of a process's clock, with the parts of n processes.
pub fn clock_line<O: Sink>(out: &mut O, process: u8, n: u8, stamp: &Stamp) -> Result<(), Failed>
    ensures { (parts : ℕ → ℕ) → AgreeBelow n (slice_index stamp.now.parts) parts
        → Prints (O.given out.old) (O.given out.new) (O.faults out.old) (O.faults out.new)
        (replies.clock_line process n parts) result }
{
    put_clock_parts(out, process, n, stamp)
}
