//! Replies without a number, and the lines of watchers.

ghost use Rattle.std.specs.Prelude.{◌≡◌};
ghost use Rattle.report.specs.Printing.{Prints};
ghost use Rattle.report.specs.Replies as replies;

use crate::put::{put_number, put_pieces};
use crate::replies::Notice;
use itoa::Buffer;
use nm_outside::{Failed, Sink};

// The line of a reply without a number.
fn notice_text(notice: Notice) -> &'static [u8]
    ensures { result.now ≡ replies.notice_line notice }
{
    match notice {
        Notice::Full => b"full\n",
        Notice::NoBreak => b"no break\n",
        Notice::Finished => b"finished\n",
        Notice::Stuck => b"stuck\n",
        Notice::IdleOver => b"idle over\n",
        Notice::IdleCount => b"idle count\n",
        Notice::IdleLetter => b"idle letter\n",
        Notice::NoEvent => b"no event\n",
        Notice::NoName => b"no name\n",
        Notice::NeedsIndex => b"needs index\n",
        Notice::NoIndex => b"no index\n",
        Notice::NoFrame => b"no frame\n",
        Notice::NoMail => b"no mail\n",
        Notice::NoWatcher => b"no watcher\n",
        Notice::NoProcess => b"no process\n",
        Notice::Unknown => b"?\n",
        Notice::Same => b"same\n",
        Notice::Before => b"before\n",
        Notice::After => b"after\n",
        Notice::Unordered => b"unordered\n",
        Notice::TooLong => b"too long\n",
    }
}

/// The line of a reply without a number.
pub fn notice_line<O: Sink>(out: &mut O, notice: Notice) -> Result<(), Failed>
    ensures { Prints (O.given out.old) (O.given out.new) (O.faults out.old) (O.faults out.new)
        (replies.notice_line notice) result }
{
    put_pieces(out, &[notice_text(notice)])
}

/// What a watcher says, in a debugger.
pub fn watch_line<O: Sink>(out: &mut O, k: usize, said: &[u8]) -> Result<(), Failed>
    ensures { Prints (O.given out.old) (O.given out.new) (O.faults out.old) (O.faults out.new)
        (replies.watch_line k said.now) result }
{
    let mut digits = Buffer::new();
    put_pieces(
        out,
        &[b"watch ", digits.format(k).as_bytes(), b": ", said, b"\n"],
    )
}

/// The line of a watcher that was detached.
pub fn detached_line<O: Sink>(out: &mut O, k: u32) -> Result<(), Failed>
    ensures { Prints (O.given out.old) (O.given out.new) (O.faults out.old) (O.faults out.new)
        (replies.detached_line k) result }
{
    put_number(out, b"detached ", k, b"\n")
}
