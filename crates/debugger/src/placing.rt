//! Lines on breakpoints.

ghost use Rattle.std.specs.Prelude.{◌≡◌, position, slice_get};
ghost use Rattle.c_tree.specs.declared.program.Program.{Program};
ghost use Rattle.report.specs.Printing.{Prints};
ghost use Rattle.debugger.specs.Breaks.{is_free, is_taken};
ghost use Rattle.debugger.specs.Sessions.{Session as Defined};
ghost use Rattle.debugger.specs.Sittings.{IsSameSitting, IsSessionOf};
ghost use Rattle.debugger.specs.private.Making.{cleared_text, set_text, with_break, with_breaks, without_break};

use crate::breakpoints::Break;
use crate::session::Session;
use mailboxes::Mail;
use nm_outside::{Failed, Sink};
use report::{Notice, cleared_line, notice_line, set_line};

/// `break P L` and `break P recv`: takes the lowest free place, if there is one.
pub(crate) fn put_break<'c, M: Mail, O: Sink>(
    session: &mut Session<'c, M>,
    b: Break,
    out: &mut O,
) -> Result<(), Failed>
    ensures text { Prints (O.given out.old) (O.given out.new) (O.faults out.old) (O.faults out.new)
        (set_text b (position is_free session.old.breaks)) result }
    ensures stands { (p : Program) (s : Defined) → IsSessionOf session.old p s
        → IsSessionOf session.new p (with_breaks s (with_break b s.breaks)) }
    ensures same { IsSameSitting session.old session.new }
{
    let place = take_place(session, b);
    put_set(out, b, place)
}

fn take_place<'c, M: Mail>(session: &mut Session<'c, M>, b: Break) -> Option<u32>
    ensures place { result ≡ position is_free session.old.breaks }
    ensures stands { (p : Program) (s : Defined) → IsSessionOf session.old p s
        → IsSessionOf session.new p (with_breaks s (with_break b s.breaks)) }
    ensures same { IsSameSitting session.old session.new }
{
    session.breaks.set(b)
}

fn put_set<O: Sink>(out: &mut O, b: Break, place: Option<u32>) -> Result<(), Failed>
    ensures { Prints (O.given out.old) (O.given out.new) (O.faults out.old) (O.faults out.new)
        (set_text b place) result }
{
    match place {
        None => notice_line(out, Notice::Full),
        Some(k) => set_line(out, k, b.proc.no, b.at),
    }
}

/// `clear K`: frees a place, if it is taken.
pub(crate) fn put_cleared<'c, M: Mail, O: Sink>(
    session: &mut Session<'c, M>,
    k: u32,
    out: &mut O,
) -> Result<(), Failed>
    ensures text { Prints (O.given out.old) (O.given out.new) (O.faults out.old) (O.faults out.new)
        (cleared_text k (is_taken (slice_get session.old.breaks k))) result }
    ensures stands { (p : Program) (s : Defined) → IsSessionOf session.old p s
        → IsSessionOf session.new p (with_breaks s (without_break k s.breaks)) }
    ensures same { IsSameSitting session.old session.new }
{
    let taken = free_place(session, k);
    put_freed(out, k, taken)
}

fn free_place<'c, M: Mail>(session: &mut Session<'c, M>, k: u32) -> bool
    ensures taken { result ≡ is_taken (slice_get session.old.breaks k) }
    ensures stands { (p : Program) (s : Defined) → IsSessionOf session.old p s
        → IsSessionOf session.new p (with_breaks s (without_break k s.breaks)) }
    ensures same { IsSameSitting session.old session.new }
{
    session.breaks.clear(k)
}

fn put_freed<O: Sink>(out: &mut O, k: u32, taken: bool) -> Result<(), Failed>
    ensures { Prints (O.given out.old) (O.given out.new) (O.faults out.old) (O.faults out.new)
        (cleared_text k taken) result }
{
    if taken {
        cleared_line(out, k)
    } else {
        notice_line(out, Notice::NoBreak)
    }
}
