//! A list of events.

ghost use Rattle.std.specs.Prelude.{◌≡◌, ◌+◌, ◌<◌, ◌≤◌, [], ◌∷◌, ◌++◌, length, take, slice_get, Some, IfOk, OnOk, OnErr, IsOk, position};
ghost use Rattle.event_list.specs.Stored.{IsBounded, is_numbered};

use crate::Event;
use nm_base::{MAX_EVENTS, MAX_PROCESSES, ProcNo, WantOfMemory};
use std::alloc::Global;
use std::marker::Model;

/// At most 1,000,000 events of processes below 32, in order. Contracts see the list, and how many more
/// it takes in without memory.
#[derive(Drop)]
pub struct EventList {
    events: Vec<Event>,
}

impl Model for EventList {
    ghost use Rattle.std.specs.Prelude.{◌-◌};
    ghost use Rattle.std.specs.Vec.{vec_len, vec_capacity};
    ghost use Rattle.event_list.specs.Stored.{Stored, IsBounded};

    ghost Value = { Stored };

    ghost view = { λ l. record { events = l.events.items; spare = vec_capacity l.events - vec_len l.events } };

    ghost invariant = { λ l. IsBounded l.events.items };
}

impl EventList {
    /// A list without events.
    pub fn new(alloc: Global) -> Result<EventList, WantOfMemory>
        ensures { IfOk result (λ l. l.events ≡ []) }
    {
        Ok(EventList {
            events: Vec::new(alloc),
        })
    }

    /// Makes room for one more event. Where memory is refused the list is as before.
    pub fn reserve(&mut self, _alloc: Global) -> Result<(), WantOfMemory>
        ensures same { self.new.events ≡ self.old.events }
        ensures room { OnOk result (0 < self.new.spare) }
    {
        self.events.reserve(1).map_err(|_| WantOfMemory)
    }

    /// Puts an event last. It takes no memory where there is room. Where memory is refused the list
    /// is as before.
    pub fn push(&mut self, _alloc: Global, e: Event) -> Result<(), WantOfMemory>
        requires room { length self.old.events < MAX_EVENTS }
        requires process { e.proc.no < MAX_PROCESSES }
        ensures pushed { OnOk result (self.new.events ≡ self.old.events ++ e ∷ []) }
        ensures refused { OnErr result (self.new.events ≡ self.old.events) }
        ensures sure { 0 < self.old.spare → IsOk result }
    {
        self.events.push(e).map_err(|_| WantOfMemory)
    }

    /// The number of events.
    pub fn len(&self) -> u32
        ensures exact { result ≡ length self.now.events }
        ensures bounded { IsBounded self.now.events }
    {
        self.events.len() as u32
    }

    /// The event at this place, from 0.
    pub fn at(&self, i: u32) -> &Event
        requires { i < length self.now.events }
        ensures event { slice_get self.now.events i ≡ Some result.now }
        ensures process { result.now.proc.no < MAX_PROCESSES }
    {
        &self.events[i as usize]
    }

    /// The first place of the process's event of this number, if it stands in the list.
    pub fn place(&self, p: ProcNo, number: u32) -> Option<u32>
        ensures { result ≡ position (is_numbered p.no number) self.now.events }
    {
        let place = place_of(self.events.as_slice(), p, number)?;
        Some(place as u32)
    }

    /// Keeps the first events.
    pub fn cut(&mut self, len: u32)
        requires { len ≤ length self.old.events }
        ensures { self.new.events ≡ take len self.old.events }
    {
        self.events.truncate(len as usize);
    }
}

fn place_of(events: &[Event], p: ProcNo, number: u32) -> Option<usize>
    ensures { result ≡ position (is_numbered p.no number) events.now }
{
    events
        .iter()
        .position(|e| e.proc.no == p.no && e.number == number)
}
