//! Stepping through a replay.

ghost use Rattle.std.specs.Prelude.{◌≡◌, ℕ, ◌<◌, List, length, slice_get, IfOk, OnErr};
ghost use Rattle.nm_base.specs.Scripts.{Script};
ghost use Rattle.event_list.specs.declared.Event.{Event};
ghost use Rattle.event_list.specs.Traces.{Trace};
ghost use Rattle.replay_core.specs.Replaying.{IsReplayOf, ReplaysAll, IsSameRun};
ghost use Rattle.replay_core.specs.Stepping.{HasStepped, next_in_turn};

use crate::replay::Replay;
use event_list::Event;
use mailboxes::Mail;
use nm_base::{ProcNo, WantOfMemory};
use processes::Proc;
use schedules::Turn;
use std::alloc::Global;
use world::Turned;

impl<P: Proc, M: Mail> Replay<P, M> {
    /// Makes turns with pick 0, in cyclic order from the process after that of the last event, until
    /// one makes an event, and answers the event. It makes none exactly where all recorded counts
    /// are reached or no process can go on. Where memory is refused the run so far stands.
    pub fn step(&mut self, alloc: Global) -> Result<Option<Event>, WantOfMemory>
        ensures stepped { IfOk result (λ e. (s : ℕ → Script) (T : Trace) (R : List Event)
            → IsReplayOf P.stands_for self.old s T R → HasStepped P.stands_for self.new s T R e) }
        ensures refused { OnErr result (ReplaysAll P.stands_for self.old self.new) }
        ensures same { IsSameRun P.origin_of self.old self.new }
    {
        if self.is_complete() {
            return Ok(None);
        }
        let n = self.n();
        let first = self.next_in_turn();
        for i in 0..n {
            let p = ProcNo {
                no: (first + i) % n,
            };
            match self.turn(alloc, Turn { proc: p, pick: 0 })? {
                Turned::Went { event, .. } => return Ok(Some(event)),
                Turned::Idle(_) => {}
            }
        }
        Ok(None)
    }

    // Process 0 before the first event, else the process after that of the last event, cyclically.
    fn next_in_turn(&self) -> u8
        ensures is { (s : ℕ → Script) (T : Trace) (R : List Event)
            → IsReplayOf P.stands_for self.now s T R → result ≡ next_in_turn T.n R }
        ensures below { result < length self.now.world.processes }
    {
        let made = self.events.len();
        if made == 0 {
            return 0;
        }
        (self.events.at(made - 1).proc.no + 1) % self.n()
    }
}
