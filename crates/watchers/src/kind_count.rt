//! Counts of the kinds of events.

ghost use Rattle.std.specs.Prelude.{◌≡◌, ◌<◌, [], ◌∷◌};
ghost use Rattle.watchers.specs.Kinds.{kind_count, one_more, place_of};

use crate::note::{Note, empty, with_count};
use crate::watcher::Watcher;
use event_list::Event;
use nm_base::{Kind, WantOfMemory};
use std::alloc::Global;

/// Counts the events of each of the six kinds.
#[derive(Drop)]
pub struct KindCount {
    counts: [u64; 6],
}

impl KindCount {
    /// Six counts of 0.
    pub fn new() -> KindCount
        ensures { ⟦<KindCount as Watcher>⟧.watched result
            ≡ record { kind = kind_count; notes = 0 ∷ 0 ∷ 0 ∷ 0 ∷ 0 ∷ 0 ∷ [] } }
    {
        KindCount { counts: [0; 6] }
    }
}

impl Watcher for KindCount {
    ghost watched = { λ w. record { kind = kind_count; notes = w.counts } };

    fn see(&mut self, _alloc: Global, e: &Event) -> Result<(), WantOfMemory> {
        let place = place_of(&e.kind);
        self.counts[place] = one_more(self.counts[place]);
        Ok(())
    }

    fn stop(&self) -> bool {
        false
    }

    fn line(&self) -> Note {
        let [lines, sent, accepted, printed, ended, faulted] = self.counts;
        let note = with_count(empty(), b"lines ", lines);
        let note = with_count(note, b" sent ", sent);
        let note = with_count(note, b" accepted ", accepted);
        let note = with_count(note, b" printed ", printed);
        let note = with_count(note, b" ended ", ended);
        with_count(note, b" faulted ", faulted)
    }
}

/// The count after one more; at the end of its type it stays.
pub(crate) fn one_more(count: u64) -> u64
    ensures { result ≡ one_more count }
{
    if count < u64::MAX { count + 1 } else { count }
}

fn place_of(kind: &Kind) -> usize
    ensures place { result ≡ place_of kind.now }
    ensures within { result < 6 }
{
    match kind {
        Kind::Line { .. } => 0,
        Kind::Sent { .. } => 1,
        Kind::Accepted { .. } => 2,
        Kind::Printed { .. } => 3,
        Kind::Ended { .. } => 4,
        Kind::Faulted { .. } => 5,
    }
}
