//! The lines of breakpoints.

ghost use Rattle.std.specs.Prelude.{◌≡◌};
ghost use Rattle.report.specs.Printing.{Prints};
ghost use Rattle.report.specs.Replies as replies;

use crate::put::{put_number, put_pieces};
use crate::replies::Spot;
use itoa::Buffer;
use nm_outside::{Failed, Sink};

// Where a breakpoint fits.
fn put_spot<O: Sink>(out: &mut O, at: Spot) -> Result<(), Failed>
    ensures { Prints (O.given out.old) (O.given out.new) (O.faults out.old) (O.faults out.new)
        (replies.spot_text at) result }
{
    let mut digits = Buffer::new();
    match at {
        Spot::Line { line } => put_pieces(out, &[b" line ", digits.format(line).as_bytes()]),
        Spot::Receive => put_pieces(out, &[b" recv"]),
    }
}

// The number of a breakpoint, and its process.
fn put_break<O: Sink>(out: &mut O, k: u32, process: u8) -> Result<(), Failed>
    ensures { Prints (O.given out.old) (O.given out.new) (O.faults out.old) (O.faults out.new)
        (replies.break_text k process) result }
{
    let mut digits = Buffer::new();
    let mut process_digits = Buffer::new();
    put_pieces(
        out,
        &[
            b"break ",
            digits.format(k).as_bytes(),
            b": process ",
            process_digits.format(process).as_bytes(),
        ],
    )
}

/// The line of a breakpoint that was set: its number, its process, and where it fits.
pub fn set_line<O: Sink>(out: &mut O, k: u32, process: u8, at: Spot) -> Result<(), Failed>
    ensures { Prints (O.given out.old) (O.given out.new) (O.faults out.old) (O.faults out.new)
        (replies.set_line k process at) result }
{
    put_break(out, k, process)?;
    put_spot(out, at)?;
    put_pieces(out, &[b"\n"])
}

/// The line of a breakpoint that was cleared.
pub fn cleared_line<O: Sink>(out: &mut O, k: u32) -> Result<(), Failed>
    ensures { Prints (O.given out.old) (O.given out.new) (O.faults out.old) (O.faults out.new)
        (replies.cleared_line k) result }
{
    put_number(out, b"cleared ", k, b"\n")
}
