//! One of the three watchers, for lists that hold any of them.

ghost use Rattle.std.specs.Prelude.{◌≡◌};

use crate::fault_stop::FaultStop;
use crate::kind_count::KindCount;
use crate::letter_log::LetterLog;
use crate::note::Note;
use crate::watcher::Watcher;
use event_list::Event;
use nm_base::WantOfMemory;
use std::alloc::Global;

/// A watcher of any kind.
#[derive(Drop)]
pub enum AnyWatcher {
    Kinds(KindCount),
    Faults(FaultStop),
    Letters(LetterLog),
}

impl Watcher for AnyWatcher {
    ghost use Rattle.watchers.specs.Any.{any_watched};

    ghost watched = { any_watched };

    fn see(&mut self, alloc: Global, e: &Event) -> Result<(), WantOfMemory> {
        match self {
            AnyWatcher::Kinds(w) => w.see(alloc, e),
            AnyWatcher::Faults(w) => w.see(alloc, e),
            AnyWatcher::Letters(w) => w.see(alloc, e),
        }
    }

    fn stop(&self) -> bool {
        match self {
            AnyWatcher::Kinds(w) => w.stop(),
            AnyWatcher::Faults(w) => w.stop(),
            AnyWatcher::Letters(w) => w.stop(),
        }
    }

    fn line(&self) -> Note {
        match self {
            AnyWatcher::Kinds(w) => w.line(),
            AnyWatcher::Faults(w) => w.line(),
            AnyWatcher::Letters(w) => w.line(),
        }
    }
}
