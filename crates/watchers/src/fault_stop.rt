//! A watcher that stops at faults.

ghost use Rattle.std.specs.Prelude.{◌≡◌, [], ◌∷◌, false};
ghost use Rattle.watchers.specs.Kinds.{fault_notes, fault_stop, is_fault};

use crate::kind_count::one_more;
use crate::note::{Note, empty, with_count};
use crate::watcher::Watcher;
use event_list::Event;
use nm_base::{Kind, WantOfMemory};
use std::alloc::Global;

/// Counts the faults, and stops exactly while the last event that it saw is one.
#[derive(Drop)]
pub struct FaultStop {
    faults: u64,
    at_fault: bool,
}

impl FaultStop {
    /// No fault was seen.
    pub fn new() -> FaultStop
        ensures { ⟦<FaultStop as Watcher>⟧.watched result ≡ record { kind = fault_stop; notes = 0 ∷ 0 ∷ [] } }
    {
        FaultStop {
            faults: 0,
            at_fault: false,
        }
    }
}

impl Watcher for FaultStop {
    ghost watched = { λ w. record { kind = fault_stop; notes = fault_notes w.faults w.at_fault } };

    fn see(&mut self, _alloc: Global, e: &Event) -> Result<(), WantOfMemory> {
        self.at_fault = is_fault(&e.kind);
        if self.at_fault {
            self.faults = one_more(self.faults);
        }
        Ok(())
    }

    fn stop(&self) -> bool {
        self.at_fault
    }

    fn line(&self) -> Note {
        with_count(empty(), b"faults ", self.faults)
    }
}

fn is_fault(kind: &Kind) -> bool
    ensures { result ≡ is_fault kind.now }
{
    matches!(kind, Kind::Faulted { .. })
}
