//! Watchers: they are told of events, and each says a line.

ghost use Rattle.std.specs.Prelude.{map};
ghost use Rattle.watchers.specs.Lines.{IsLine};
ghost use Rattle.report.specs.Printing.{Prints};
ghost use Rattle.report.specs.Texts as texts;
ghost use Rattle.nm_top.specs.Watches.{Hear, given, watch_lines};

use event_list::EventList;
use nm_outside::{Failed, Sink};
use report::watched_line;
use std::alloc::Global;
use watchers::{Watcher, tell};

/// Tells the watchers of each event, in order.
pub fn tell_each<W: Watcher>(alloc: Global, watch: &mut Vec<W>, events: &EventList)
    ensures { Hear events.now.events (given (map W.watched watch.old.items) (map W.watched watch.new.items)) }
{
    for i in 0..events.len() {
        let _ = tell(alloc, watch, events.at(i));
    }
}

// Prints the line of a watcher.
fn put_watcher<O: Sink, W: Watcher>(out: &mut O, k: usize, watcher: &W) -> Result<(), Failed>
    ensures { Prints (O.given out.old) (O.given out.new) (O.faults out.old) (O.faults out.new)
        (texts.watched_line k ((W.watched watcher.now).kind.said (W.watched watcher.now).notes)) result }
{
    let note = watcher.line();
    watched_line(out, k, note.text())
}

/// Prints a line for each watcher, with its place.
pub fn put_watchers<O: Sink, W: Watcher>(out: &mut O, watch: &Vec<W>) -> Result<(), Failed>
    ensures { Prints (O.given out.old) (O.given out.new) (O.faults out.old) (O.faults out.new)
        (watch_lines 0 (map W.watched watch.now.items)) result }
{
    for k in 0..watch.len() {
        put_watcher(out, k, &watch[k])?;
    }
    Ok(())
}
