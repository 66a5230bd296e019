//! The summary of a run.

ghost use Rattle.std.specs.Prelude.{◌≡◌};
ghost use Rattle.report.specs.Printing.{Prints};
ghost use Rattle.report.specs.Texts as texts;

use crate::put::put_pieces;
use itoa::Buffer;
use nm_outside::{Failed, Sink};

/// The last line of a run: how many events happened, and how many letters were sent, were accepted
/// and wait.
pub fn summary<O: Sink>(
    out: &mut O,
    events: u32,
    sent: u32,
    accepted: u32,
    waiting: u32,
) -> Result<(), Failed>
    ensures { Prints (O.given out.old) (O.given out.new) (O.faults out.old) (O.faults out.new)
        (texts.summary events sent accepted waiting) result }
{
    let mut event_digits = Buffer::new();
    let mut sent_digits = Buffer::new();
    let mut accepted_digits = Buffer::new();
    let mut waiting_digits = Buffer::new();
    put_pieces(
        out,
        &[
            b"== events ",
            event_digits.format(events).as_bytes(),
            b", sent ",
            sent_digits.format(sent).as_bytes(),
            b", accepted ",
            accepted_digits.format(accepted).as_bytes(),
            b", waiting ",
            waiting_digits.format(waiting).as_bytes(),
            b"\n",
        ],
    )
}
