//! What a watcher is.

ghost use Rattle.std.specs.Prelude.{◌≡◌, true, OnOk, OnErr, IsOk};
ghost use Rattle.watchers.specs.Watched.{Watched, told};
ghost use Rattle.watchers.specs.Lines.{IsLine};

use crate::note::Note;
use event_list::Event;
use nm_base::WantOfMemory;
use std::alloc::Global;

/// A watcher is told of events. It has a kind, which never changes, and notes; its answers follow
/// from the two.
pub trait Watcher: Drop {
    ghost watched: { Self → Watched };

    /// Notes an event. Where memory is refused its notes are as before; where it is steady none is.
    fn see(&mut self, alloc: Global, e: &Event) -> Result<(), WantOfMemory>
        ensures noted { OnOk result (watched self.new ≡ told (watched self.old) e.now) }
        ensures refused { OnErr result (watched self.new ≡ watched self.old) }
        ensures steady { (watched self.old).kind.steady ≡ true → IsOk result };

    /// Whether a debugger is to stop after the last event.
    fn stop(&self) -> bool
        ensures { result ≡ (watched self.now).kind.stops (watched self.now).notes };

    /// What it says of the events that it noted.
    fn line(&self) -> Note
        ensures { IsLine ((watched self.now).kind.said (watched self.now).notes) result };
}
