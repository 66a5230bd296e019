//! Lines on watchers.

ghost use Rattle.std.specs.Prelude.{◌≡◌, map, take, drop, ◌++◌, ◌+◌, is_err, position, slice_get, None, Some, ⊤};
ghost use Rattle.nm_outside.specs.Causes.{BelongsTo};
ghost use Rattle.watchers.specs.Lines.{IsLine};
ghost use Rattle.report.specs.Printing.{Prints};
ghost use Rattle.debugger.specs.Sessions.{is_stopping, watch_lines, watch_text};
ghost use Rattle.debugger.specs.private.Making.{detach_text, detached_from, said_line};

use nm_outside::{Failed, Sink};
use report::{Notice, detached_line, notice_line, watch_line};
use watchers::{Note, Watcher, detach};

// Whether a watcher stops.
fn stops<W: Watcher>(watcher: &W) -> bool
    ensures { result ≡ is_stopping (W.watched watcher.now) }
{
    watcher.stop()
}

/// The lowest watcher that stops.
pub(crate) fn first_stop<W: Watcher>(watch: &Vec<W>) -> Option<usize>
    ensures { result ≡ position (λ w. is_stopping (W.watched w)) watch.now.items }
{
    for k in 0..watch.len() {
        if stops(&watch[k]) {
            return Some(k);
        }
    }
    None
}

/// `watch`: what each watcher says.
pub(crate) fn put_watchers<W: Watcher, O: Sink>(watch: &Vec<W>, out: &mut O) -> Result<(), Failed>
    ensures { Prints (O.given out.old) (O.given out.new) (O.faults out.old) (O.faults out.new)
        (watch_text (map W.watched watch.now.items)) result }
{
    if watch.is_empty() {
        notice_line(out, Notice::NoWatcher)
    } else {
        put_each(watch, out)
    }
}

fn put_each<W: Watcher, O: Sink>(watch: &Vec<W>, out: &mut O) -> Result<(), Failed>
    ensures { Prints (O.given out.old) (O.given out.new) (O.faults out.old) (O.faults out.new)
        (watch_lines 0 (map W.watched watch.now.items)) result }
{
    for k in 0..watch.len() {
        put_said(out, k, &watch[k])?;
    }
    Ok(())
}

// What a watcher of this number says.
fn put_said<W: Watcher, O: Sink>(out: &mut O, k: usize, watcher: &W) -> Result<(), Failed>
    ensures { Prints (O.given out.old) (O.given out.new) (O.faults out.old) (O.faults out.new)
        (said_line k (W.watched watcher.now)) result }
{
    watch_line(out, k, line_of(watcher).text())
}

fn line_of<W: Watcher>(watcher: &W) -> Note
    ensures { IsLine ((W.watched watcher.now).kind.said (W.watched watcher.now).notes) result }
{
    watcher.line()
}

/// `detach K`: drops one.
pub(crate) fn put_detached<W: Watcher, O: Sink>(
    watch: &mut Vec<W>,
    k: u32,
    out: &mut O,
) -> Result<(), Failed>
    ensures text { Prints (O.given out.old) (O.given out.new) (O.faults out.old) (O.faults out.new)
        (detach_text k (slice_get (map W.watched watch.old.items) k)) result }
    ensures left { map W.watched watch.new.items
        ≡ detached_from (map W.watched watch.old.items) k (slice_get (map W.watched watch.old.items) k) }
{
    if detach(watch, k) {
        detached_line(out, k)
    } else {
        notice_line(out, Notice::NoWatcher)
    }
}
