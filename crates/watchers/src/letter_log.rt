//! A watcher that keeps the accepted letters.

ghost use Rattle.std.specs.Prelude.{◌≡◌, [], IfOk};
ghost use Rattle.event_list.specs.Events.{taken_in};
ghost use Rattle.watchers.specs.Kinds.{letter_log};

use crate::note::{Note, empty, with_count};
use crate::watcher::Watcher;
use event_list::Event;
use nm_base::{Kind, LetterId, WantOfMemory};
use std::alloc::Global;

/// Keeps the names of the letters that were accepted, in order. It isn't steady.
#[derive(Drop)]
pub struct LetterLog {
    letters: Vec<LetterId>,
}

impl LetterLog {
    /// No letter was seen.
    pub fn new(alloc: Global) -> Result<LetterLog, WantOfMemory>
        ensures { IfOk result (λ log. ⟦<LetterLog as Watcher>⟧.watched log ≡ record { kind = letter_log; notes = [] }) }
    {
        Ok(LetterLog {
            letters: Vec::new(alloc),
        })
    }
}

impl Watcher for LetterLog {
    ghost use Rattle.std.specs.Prelude.{flat_map};
    ghost use Rattle.watchers.specs.Kinds.{name_notes};

    ghost watched = { λ w. record { kind = letter_log; notes = flat_map name_notes w.letters.items } };

    fn see(&mut self, _alloc: Global, e: &Event) -> Result<(), WantOfMemory> {
        if let Some(id) = taken_in(&e.kind) {
            self.letters.push(id).map_err(|_| WantOfMemory)?;
        }
        Ok(())
    }

    fn stop(&self) -> bool {
        false
    }

    fn line(&self) -> Note {
        with_count(empty(), b"letters ", self.letters.len() as u64)
    }
}

fn taken_in(kind: &Kind) -> Option<LetterId>
    ensures { result ≡ taken_in kind.now }
{
    match kind {
        Kind::Accepted { id, .. } => Some(*id),
        _ => None,
    }
}
