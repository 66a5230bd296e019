//! Where a run, a process and its frames are.

ghost use Rattle.std.specs.Prelude.{◌≡◌};
ghost use Rattle.report.specs.Printing.{Prints};
ghost use Rattle.report.specs.Replies as replies;

use crate::one_process::put_status;
use crate::put::{put_number, put_pieces};
use itoa::Buffer;
use nm_outside::{Failed, Sink};
use processes::Look;

/// The line of a run that was gone to: how many events it has.
pub fn at_line<O: Sink>(out: &mut O, events: u32) -> Result<(), Failed>
    ensures { Prints (O.given out.old) (O.given out.new) (O.faults out.old) (O.faults out.new)
        (replies.at_line events) result }
{
    put_number(out, b"at ", events, b" events\n")
}

// Which process it is.
fn put_process<O: Sink>(out: &mut O, process: u8) -> Result<(), Failed>
    ensures { Prints (O.given out.old) (O.given out.new) (O.faults out.old) (O.faults out.new)
        (replies.of_process process) result }
{
    let mut digits = Buffer::new();
    put_pieces(out, &[b"process ", digits.format(process).as_bytes(), b" "])
}

// The line at which a process is, and its events.
fn put_place<O: Sink>(out: &mut O, line: u32, events: u32, count: u32) -> Result<(), Failed>
    ensures { Prints (O.given out.old) (O.given out.new) (O.faults out.old) (O.faults out.new)
        (replies.place_text line events count) result }
{
    let mut line_digits = Buffer::new();
    let mut event_digits = Buffer::new();
    let mut count_digits = Buffer::new();
    put_pieces(
        out,
        &[
            b" line ",
            line_digits.format(line).as_bytes(),
            b", ",
            event_digits.format(events).as_bytes(),
            b" of ",
            count_digits.format(count).as_bytes(),
            b" events\n",
        ],
    )
}

/// The line of a process: how it stands, the line at which it is, how many events it made, and how
/// many it has in the recording.
pub fn where_line<O: Sink>(
    out: &mut O,
    process: u8,
    look: Look,
    line: u32,
    events: u32,
    count: u32,
) -> Result<(), Failed>
    ensures { Prints (O.given out.old) (O.given out.new) (O.faults out.old) (O.faults out.new)
        (replies.where_line process look line events count) result }
{
    put_process(out, process)?;
    put_status(out, look)?;
    put_place(out, line, events, count)
}

/// The line of a frame: its number, its function's name and the line at which it is.
pub fn frame_line<O: Sink>(out: &mut O, i: u32, name: &[u8], line: u32) -> Result<(), Failed>
    ensures { Prints (O.given out.old) (O.given out.new) (O.faults out.old) (O.faults out.new)
        (replies.frame_line i name.now line) result }
{
    let mut digits = Buffer::new();
    let mut line_digits = Buffer::new();
    put_pieces(
        out,
        &[
            b"#",
            digits.format(i).as_bytes(),
            b" ",
            name,
            b" line ",
            line_digits.format(line).as_bytes(),
            b"\n",
        ],
    )
}
