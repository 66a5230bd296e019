//! The replies to lines that only look.

ghost use Rattle.std.specs.Prelude.{◌≡◌, ◌<◌, List};
ghost use Rattle.c_tree.specs.declared.program.Program.{Program};
ghost use Rattle.nm_outside.specs.Causes.{BelongsTo};
ghost use Rattle.watchers.specs.Watched.{Watched};
ghost use Rattle.debugger.specs.Lines as lines;
ghost use Rattle.debugger.specs.Sessions.{Session as Defined};
ghost use Rattle.debugger.specs.Sittings.{HasReplied, IsSessionOf};
ghost use Rattle.debugger.specs.Faults.{is_write};

use crate::fault::SessionFault;
use crate::looks::{put_clock, put_frames, put_last, put_mail, put_output, put_places, put_value};
use crate::session::Session;
use mailboxes::Mail;
use nm_base::ProcNo;
use nm_outside::Sink;
use report::{Notice, notice_line};

/// `print P NAME` and `print P NAME I`
pub(crate) fn look_value<'c, M: Mail, O: Sink>(
    session: &Session<'c, M>,
    q: ProcNo,
    name: &[u8],
    index: Option<u32>,
    out: &mut O,
) -> Result<(), SessionFault>
    requires { q.no < session.now.trace.n }
    ensures replied { (p : Program) (s : Defined) (watch : List Watched) → IsSessionOf session.now p s
        → HasReplied (lines.Print q.no name.now index) p s watch session.now watch
        (O.given out.old) (O.given out.new) result }
    ensures cause { BelongsTo (is_write result) (O.faults out.old) (O.faults out.new) }
{
    put_value(out, session.replay.world(), q, name, index)?;
    Ok(())
}

/// `frames P`
pub(crate) fn look_frames<'c, M: Mail, O: Sink>(
    session: &Session<'c, M>,
    q: ProcNo,
    out: &mut O,
) -> Result<(), SessionFault>
    requires { q.no < session.now.trace.n }
    ensures replied { (p : Program) (s : Defined) (watch : List Watched) → IsSessionOf session.now p s
        → HasReplied (lines.Frames q.no) p s watch session.now watch (O.given out.old) (O.given out.new) result }
    ensures cause { BelongsTo (is_write result) (O.faults out.old) (O.faults out.new) }
{
    put_frames(out, session.replay.world(), session.code, q)?;
    Ok(())
}

/// `where`
pub(crate) fn look_places<'c, M: Mail, O: Sink>(
    session: &Session<'c, M>,
    out: &mut O,
) -> Result<(), SessionFault>
    ensures replied { (p : Program) (s : Defined) (watch : List Watched) → IsSessionOf session.now p s
        → HasReplied lines.Where p s watch session.now watch (O.given out.old) (O.given out.new) result }
    ensures cause { BelongsTo (is_write result) (O.faults out.old) (O.faults out.new) }
{
    put_places(out, session.replay.world(), session.trace)?;
    Ok(())
}

/// `output P`
pub(crate) fn look_output<'c, M: Mail, O: Sink>(
    session: &Session<'c, M>,
    q: ProcNo,
    out: &mut O,
) -> Result<(), SessionFault>
    requires { q.no < session.now.trace.n }
    ensures replied { (p : Program) (s : Defined) (watch : List Watched) → IsSessionOf session.now p s
        → HasReplied (lines.Output q.no) p s watch session.now watch (O.given out.old) (O.given out.new) result }
    ensures cause { BelongsTo (is_write result) (O.faults out.old) (O.faults out.new) }
{
    put_output(out, session.replay.world(), q)?;
    Ok(())
}

/// `mail P`
pub(crate) fn look_mail<'c, M: Mail, O: Sink>(
    session: &Session<'c, M>,
    q: ProcNo,
    out: &mut O,
) -> Result<(), SessionFault>
    requires { q.no < session.now.trace.n }
    ensures replied { (p : Program) (s : Defined) (watch : List Watched) → IsSessionOf session.now p s
        → HasReplied (lines.Mail q.no) p s watch session.now watch (O.given out.old) (O.given out.new) result }
    ensures cause { BelongsTo (is_write result) (O.faults out.old) (O.faults out.new) }
{
    put_mail(out, session.replay.world(), q)?;
    Ok(())
}

/// `clock P`
pub(crate) fn look_clock<'c, M: Mail, O: Sink>(
    session: &Session<'c, M>,
    q: ProcNo,
    out: &mut O,
) -> Result<(), SessionFault>
    requires { q.no < session.now.trace.n }
    ensures replied { (p : Program) (s : Defined) (watch : List Watched) → IsSessionOf session.now p s
        → HasReplied (lines.Clock q.no) p s watch session.now watch (O.given out.old) (O.given out.new) result }
    ensures cause { BelongsTo (is_write result) (O.faults out.old) (O.faults out.new) }
{
    put_clock(out, session.replay.world(), q)?;
    Ok(())
}

/// `last`
pub(crate) fn look_last<'c, M: Mail, O: Sink>(
    session: &Session<'c, M>,
    out: &mut O,
) -> Result<(), SessionFault>
    ensures replied { (p : Program) (s : Defined) (watch : List Watched) → IsSessionOf session.now p s
        → HasReplied lines.Last p s watch session.now watch (O.given out.old) (O.given out.new) result }
    ensures cause { BelongsTo (is_write result) (O.faults out.old) (O.faults out.new) }
{
    put_last(out, &session.latest)?;
    Ok(())
}

/// A line that fits no row.
pub(crate) fn not_a_line<'c, M: Mail, O: Sink>(
    session: &Session<'c, M>,
    out: &mut O,
) -> Result<(), SessionFault>
    ensures replied { (p : Program) (s : Defined) (watch : List Watched) → IsSessionOf session.now p s
        → HasReplied lines.NotALine p s watch session.now watch (O.given out.old) (O.given out.new) result }
    ensures cause { BelongsTo (is_write result) (O.faults out.old) (O.faults out.new) }
{
    let _told = session;
    notice_line(out, Notice::Unknown)?;
    Ok(())
}

/// A line that fits a row, but for a process that there isn't.
pub(crate) fn not_a_process<'c, M: Mail, O: Sink>(
    session: &Session<'c, M>,
    out: &mut O,
) -> Result<(), SessionFault>
    ensures replied { (p : Program) (s : Defined) (watch : List Watched) → IsSessionOf session.now p s
        → HasReplied lines.NotAProcess p s watch session.now watch (O.given out.old) (O.given out.new) result }
    ensures cause { BelongsTo (is_write result) (O.faults out.old) (O.faults out.new) }
{
    let _told = session;
    notice_line(out, Notice::NoProcess)?;
    Ok(())
}
