//! The events that were made last.

ghost use Rattle.std.specs.Prelude.{◌≡◌, ◌∷◌, ◌++◌, [], List, length, slice_get, IfOk};
ghost use Rattle.event_list.specs.declared.Event.{Event};
ghost use Rattle.debugger.specs.Latest.{latest_of};

use circular_buffer::HeapCircularBuffer;
use event_list::Event;
use nm_base::WantOfMemory;
use std::alloc::Global;
use std::marker::Model;

/// So many of the events that were made last are kept.
pub const MAX_LATEST: usize = 16;

/// The events that were made last, seen as their list, the oldest first.
#[derive(Drop)]
pub(crate) struct Latest {
    ring: HeapCircularBuffer<Event>,
}

impl Model for Latest {
    ghost use Rattle.std.specs.Prelude.{◌≡◌, List};
    ghost use Rattle.event_list.specs.declared.Event.{Event};
    ghost use Rattle.debugger.specs.declared.latest.TheConstants.{MAX_LATEST};

    ghost Value = { List Event };

    ghost view = { λ l. l.ring.items };

    ghost invariant = { λ l. l.ring.capacity ≡ MAX_LATEST };
}

impl Latest {
    /// No event was made.
    pub(crate) fn new(alloc: Global) -> Result<Latest, WantOfMemory>
        ensures { IfOk result (λ l. l ≡ []) }
    {
        let ring = HeapCircularBuffer::with_capacity(alloc, MAX_LATEST)?;
        Ok(Latest { ring })
    }

    /// Keeps an event that was made, and the fifteen before it.
    pub(crate) fn push(&mut self, event: &Event)
        ensures { (made : List Event) → self.old ≡ latest_of made
            → self.new ≡ latest_of (made ++ event.now ∷ []) }
    {
        self.ring.push_back(*event);
    }

    /// How many events are kept.
    pub(crate) fn len(&self) -> usize
        ensures { result ≡ length self.now }
    {
        self.ring.len()
    }

    /// The event of this number, the oldest first.
    pub(crate) fn get(&self, i: usize) -> Option<Event>
        ensures { result ≡ slice_get self.now i }
    {
        self.ring.get(i).copied()
    }
}
