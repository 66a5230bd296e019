//! A replay and its turns.

ghost use Rattle.std.specs.Prelude.{◌≡◌, ℕ, ◌==◌, ◌+◌, ◌*◌, ◌^◌, ◌<◌, ◌≤◌, List, [], length, map, Some, slice_get, slice_index, IfOk, OnErr};
ghost use Rattle.nm_base.specs.declared.limits.TheConstants.{MAX_EVENTS, MAX_PROCESSES};
ghost use Rattle.nm_base.specs.Scripts.{Script};
ghost use Rattle.processes.specs.Seats.{process_in};
ghost use Rattle.event_list.specs.declared.Event.{Event};
ghost use Rattle.event_list.specs.Events.{count};
ghost use Rattle.event_list.specs.Traces as traces;
ghost use Rattle.event_list.specs.Turns as turns;
ghost use Rattle.trace_file.specs.Rules.{IsTrace};
ghost use Rattle.world.specs.Worlds.{AreNumbered};
ghost use Rattle.world.specs.Outcomes.{Begins, outcome};
ghost use Rattle.replay_core.specs.Gates.{seen_trace};
ghost use Rattle.replay_core.specs.Replaying.{IsReplayOf, ReplaysAll, IsSameRun, HasGone};

use crate::gate::TraceGate;
use event_list::EventList;
use mailboxes::Mail;
use nm_base::{ProcNo, WantOfMemory};
use processes::{Proc, Seat};
use schedules::Turn;
use std::alloc::Global;
use std::marker::Model;
use trace_file::Trace;
use world::{Turned, World};

/// The processes of a replay under the gate of its trace, with the list of the events so far. It
/// stands for scripts, a trace and a replay of these scripts under it.
#[derive(Drop)]
pub struct Replay<P: Proc, M: Mail> {
    pub(crate) world: World<P, M>,
    pub(crate) gate: TraceGate,
    pub(crate) events: EventList,
}

impl<P: Proc, M: Mail> Model for Replay<P, M> {
    ghost use Rattle.replay_core.specs.Replaying.{Replaying, IsSomeReplay};

    ghost Value = { Replaying P M };

    ghost view = { λ r. record { world = r.world; gate = r.gate; events = r.events.events } };

    ghost invariant = { λ r.
        IsSomeReplay P.stands_for (record { world = r.world; gate = r.gate; events = r.events.events }) };
}

impl<P: Proc, M: Mail> Replay<P, M> {
    /// A replay before its first event, under a trace that keeps the rules of a trace file: one seat
    /// for each of the trace's processes, the i-th with number i, each of which made no event and
    /// accepted no letter.
    pub fn new(
        alloc: Global,
        seats: Vec<Seat<P>>,
        trace: &Trace,
    ) -> Result<Replay<P, M>, WantOfMemory>
        requires trace { IsTrace trace.now }
        requires seats { length seats.items ≡ trace.now.n }
        requires names { AreNumbered P.name_of (map process_in seats.items) }
        requires begins { (p : ℕ) (x : P) → slice_get (map process_in seats.items) p ≡ Some x
            → (s : Script) × P.stands_for x s [] 0 }
        ensures begins { IfOk result (λ r. (s : ℕ → Script) → Begins P.stands_for (map process_in seats.items) s
            → IsReplayOf P.stands_for r s (seen_trace trace.now) []) }
        ensures processes { IfOk result (λ r. r.world.processes ≡ map process_in seats.items) }
    {
        let gate = TraceGate::new(alloc, trace)?;
        let events = EventList::new(alloc)?;
        let world = World::new(alloc, seats, trace.mask())?;
        Ok(Replay {
            world,
            gate,
            events,
        })
    }

    /// One turn under the trace, of the process and with the pick that it names: at most one event.
    /// Where memory is refused no event happened, and the replay stands for the same.
    pub fn turn(&mut self, alloc: Global, t: Turn) -> Result<Turned, WantOfMemory>
        requires { t.proc.no < length self.old.world.processes }
        ensures gone { IfOk result (λ what. (s : ℕ → Script) (T : traces.Trace) (R : List Event)
            → IsReplayOf P.stands_for self.old s T R
            → HasGone P.stands_for self.new s T R (record { proc = t.proc.no; pick = t.pick }) what) }
        ensures refused { OnErr result (ReplaysAll P.stands_for self.old self.new) }
        ensures same { IsSameRun P.origin_of self.old self.new }
    {
        self.events.reserve(alloc)?;
        let turned = self.world.turn(alloc, t, &self.gate)?;
        keep(&mut self.events, alloc, &turned);
        Ok(turned)
    }

    /// The events so far.
    pub fn events(&self) -> &EventList
        ensures { result.now.events ≡ self.now.events }
    {
        &self.events
    }

    /// The world after these events.
    pub fn world(&self) -> &World<P, M>
        ensures { result.now ≡ self.now.world }
    {
        &self.world
    }

    /// Whether each process has its recorded count.
    pub(crate) fn is_complete(&self) -> bool
        ensures { (s : ℕ → Script) (T : traces.Trace) (R : List Event)
            → IsReplayOf P.stands_for self.now s T R → result ≡ turns.all_reached T R }
    {
        self.world.events() == self.gate.total()
    }

    /// The number of processes.
    pub(crate) fn n(&self) -> u8
        ensures n { result ≡ length self.now.world.processes }
        ensures some { 0 < result }
        ensures few { result ≤ MAX_PROCESSES }
    {
        self.world.n()
    }

    /// So many turns of the round robin are enough to finish.
    pub(crate) fn enough_turns(&self) -> u32
        ensures is { (s : ℕ → Script) (T : traces.Trace) (R : List Event)
            → IsReplayOf P.stands_for self.now s T R → result ≡ turns.enough_turns T }
        ensures few { result < 2 ^ 31 }
    {
        u32::from(self.world.n()) * (self.gate.total() + 1)
    }

    /// Each process's number of events, and 0 for processes that there aren't.
    pub(crate) fn counts(&self) -> [u32; 32]
        ensures { (s : ℕ → Script) (T : traces.Trace) (R : List Event)
            → IsReplayOf P.stands_for self.now s T R → (p : ℕ) → slice_index result p ≡ count R p }
    {
        let n = self.n();
        let mut counts = [0; 32];
        for p in 0..n {
            counts[p as usize] = self.count(ProcNo { no: p });
        }
        counts
    }

    /// The process's number of events.
    pub(crate) fn count(&self, p: ProcNo) -> u32
        requires { p.no < length self.now.world.processes }
        ensures { (s : ℕ → Script) (T : traces.Trace) (R : List Event)
            → IsReplayOf P.stands_for self.now s T R → result ≡ count R p.no }
    {
        self.world.count(p)
    }
}

/// Puts the event of a turn last. It takes no memory.
fn keep(events: &mut EventList, alloc: Global, turned: &Turned)
    requires spare { 0 < events.old.spare }
    requires room { (e : Event) → outcome turned.now ≡ turns.Went e → length events.old.events < MAX_EVENTS }
    requires process { (e : Event) → outcome turned.now ≡ turns.Went e → e.proc.no < MAX_PROCESSES }
    ensures { events.new.events ≡ turns.after events.old.events (outcome turned.now) }
{
    match turned {
        Turned::Idle(_) => {}
        Turned::Went { event, .. } => match events.push(alloc, *event) {
            Ok(()) => {}
            Err(_) => unreachable!(),
        },
    }
}
