//! The lines of traces and replays.

ghost use Rattle.std.specs.Prelude.{◌≡◌};
ghost use Rattle.report.specs.Printing.{Prints};
ghost use Rattle.report.specs.Texts as texts;

use crate::put::{put_number, put_pieces};
use itoa::Buffer;
use nm_outside::{Failed, Sink};

// A line with the numbers of a trace's notes, lost entries and bytes.
fn put_sizes<O: Sink>(
    out: &mut O,
    start: &[u8],
    notes: u32,
    lost: u32,
    bytes: u32,
) -> Result<(), Failed>
    ensures { Prints (O.given out.old) (O.given out.new) (O.faults out.old) (O.faults out.new)
        (texts.sizes_line start.now notes lost bytes) result }
{
    let mut note_digits = Buffer::new();
    let mut lost_digits = Buffer::new();
    let mut byte_digits = Buffer::new();
    put_pieces(
        out,
        &[
            start,
            note_digits.format(notes).as_bytes(),
            b", lost ",
            lost_digits.format(lost).as_bytes(),
            b", bytes ",
            byte_digits.format(bytes).as_bytes(),
            b"\n",
        ],
    )
}

/// The line of a recorded trace: how many notes, lost entries and bytes it has.
pub fn trace_line<O: Sink>(out: &mut O, notes: u32, lost: u32, bytes: u32) -> Result<(), Failed>
    ensures { Prints (O.given out.old) (O.given out.new) (O.faults out.old) (O.faults out.new)
        (texts.trace_line notes lost bytes) result }
{
    put_sizes(out, b"== trace notes ", notes, lost, bytes)
}

/// The line of a trace that was written in the newer version.
pub fn upgraded_line<O: Sink>(out: &mut O, notes: u32, lost: u32, bytes: u32) -> Result<(), Failed>
    ensures { Prints (O.given out.old) (O.given out.new) (O.faults out.old) (O.faults out.new)
        (texts.upgraded_line notes lost bytes) result }
{
    put_sizes(out, b"upgraded: notes ", notes, lost, bytes)
}

/// The line of a replay: how many turns it had, and how many of them were idle.
pub fn turns_line<O: Sink>(out: &mut O, turns: u32, idle: u32) -> Result<(), Failed>
    ensures { Prints (O.given out.old) (O.given out.new) (O.faults out.old) (O.faults out.new)
        (texts.turns_line turns idle) result }
{
    let mut turn_digits = Buffer::new();
    let mut idle_digits = Buffer::new();
    put_pieces(
        out,
        &[
            b"== turns ",
            turn_digits.format(turns).as_bytes(),
            b", idle ",
            idle_digits.format(idle).as_bytes(),
            b"\n",
        ],
    )
}

/// What a watcher says at the end of a replay.
pub fn watched_line<O: Sink>(out: &mut O, k: usize, said: &[u8]) -> Result<(), Failed>
    ensures { Prints (O.given out.old) (O.given out.new) (O.faults out.old) (O.faults out.new)
        (texts.watched_line k said.now) result }
{
    let mut digits = Buffer::new();
    put_pieces(
        out,
        &[
            b"== watch ",
            digits.format(k).as_bytes(),
            b": ",
            said,
            b"\n",
        ],
    )
}

/// The line of a recording that lacked memory after so many turns.
pub fn stopped_line<O: Sink>(out: &mut O, turns: u32) -> Result<(), Failed>
    ensures { Prints (O.given out.old) (O.given out.new) (O.faults out.old) (O.faults out.new)
        (texts.stopped_line turns) result }
{
    put_number(out, b"stopped: want of memory after ", turns, b" turns\n")
}

/// The first line of a generated run: its seed, how many processes it has, and how many turns.
pub fn soak_line<O: Sink>(out: &mut O, seed: u32, n: u8, turns: u32) -> Result<(), Failed>
    ensures { Prints (O.given out.old) (O.given out.new) (O.faults out.old) (O.faults out.new)
        (texts.soak_line seed n turns) result }
{
    let mut seed_digits = Buffer::new();
    let mut process_digits = Buffer::new();
    let mut turn_digits = Buffer::new();
    put_pieces(
        out,
        &[
            b"soak ",
            seed_digits.format(seed).as_bytes(),
            b": N ",
            process_digits.format(n).as_bytes(),
            b", turns ",
            turn_digits.format(turns).as_bytes(),
            b"\n",
        ],
    )
}
