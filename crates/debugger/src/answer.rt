//! The replies to lines that make no event.

ghost use Rattle.std.specs.Prelude.{◌≡◌, List, map};
ghost use Rattle.c_tree.specs.declared.program.Program.{Program};
ghost use Rattle.nm_outside.specs.Causes.{BelongsTo};
ghost use Rattle.watchers.specs.Watched.{Watched};
ghost use Rattle.debugger.specs.Lines as lines;
ghost use Rattle.debugger.specs.Sessions.{Session as Defined};
ghost use Rattle.debugger.specs.Sittings.{HasReplied, IsSameSitting, IsSessionOf};
ghost use Rattle.debugger.specs.Faults.{is_write};

use crate::breakpoints::Break;
use crate::fault::SessionFault;
use crate::placing::{put_break, put_cleared};
use crate::session::Session;
use crate::watching::{put_detached, put_watchers};
use mailboxes::Mail;
use nm_outside::Sink;
use watchers::Watcher;

/// `break P L` and `break P recv`
pub(crate) fn set_break<'c, M: Mail, O: Sink>(
    session: &mut Session<'c, M>,
    b: Break,
    out: &mut O,
) -> Result<(), SessionFault>
    ensures replied { (p : Program) (s : Defined) (watch : List Watched) → IsSessionOf session.old p s
        → HasReplied (lines.SetBreak b.proc.no b.at) p s watch session.new watch
        (O.given out.old) (O.given out.new) result }
    ensures cause { BelongsTo (is_write result) (O.faults out.old) (O.faults out.new) }
    ensures same { IsSameSitting session.old session.new }
{
    put_break(session, b, out)?;
    Ok(())
}

/// `clear K`
pub(crate) fn clear_break<'c, M: Mail, O: Sink>(
    session: &mut Session<'c, M>,
    k: u32,
    out: &mut O,
) -> Result<(), SessionFault>
    ensures replied { (p : Program) (s : Defined) (watch : List Watched) → IsSessionOf session.old p s
        → HasReplied (lines.Clear k) p s watch session.new watch (O.given out.old) (O.given out.new) result }
    ensures cause { BelongsTo (is_write result) (O.faults out.old) (O.faults out.new) }
    ensures same { IsSameSitting session.old session.new }
{
    put_cleared(session, k, out)?;
    Ok(())
}

/// `watch`
pub(crate) fn list_watchers<'c, M: Mail, W: Watcher, O: Sink>(
    session: &Session<'c, M>,
    watch: &Vec<W>,
    out: &mut O,
) -> Result<(), SessionFault>
    ensures replied { (p : Program) (s : Defined) → IsSessionOf session.now p s
        → HasReplied lines.Watch p s (map W.watched watch.now.items) session.now (map W.watched watch.now.items)
        (O.given out.old) (O.given out.new) result }
    ensures cause { BelongsTo (is_write result) (O.faults out.old) (O.faults out.new) }
{
    put_watchers(watch, out)?;
    Ok(())
}

/// `detach K`
pub(crate) fn drop_watcher<'c, M: Mail, W: Watcher, O: Sink>(
    session: &Session<'c, M>,
    watch: &mut Vec<W>,
    k: u32,
    out: &mut O,
) -> Result<(), SessionFault>
    ensures replied { (p : Program) (s : Defined) → IsSessionOf session.now p s
        → HasReplied (lines.Detach k) p s (map W.watched watch.old.items) session.now (map W.watched watch.new.items)
        (O.given out.old) (O.given out.new) result }
    ensures cause { BelongsTo (is_write result) (O.faults out.old) (O.faults out.new) }
{
    put_detached(watch, k, out)?;
    Ok(())
}
