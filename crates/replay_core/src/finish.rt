//! Finishing a replay.

ghost use Rattle.std.specs.Prelude.{◌≡◌, ℕ, ◌||◌, ◌<◌, false, nat_le, List, length, IfOk, IfErr, OnErr};
ghost use Rattle.nm_base.specs.Scripts.{Script};
ghost use Rattle.event_list.specs.declared.Event.{Event};
ghost use Rattle.event_list.specs.Traces.{Trace};
ghost use Rattle.event_list.specs.Turns.{all_reached, finish_of, finish_within, to_finish};
ghost use Rattle.event_list.specs.Laws.{IsRecorded};
ghost use Rattle.replay_core.specs.declared.finish.ReplayFault.{ReplayFault};
ghost use Rattle.replay_core.specs.Replaying.{IsReplayOf, IsSameRun, HasFinished, HasFailed};
ghost use Rattle.replay_core.specs.private.Rounds.{HasRounded};

use crate::asleep::Asleep;
use crate::replay::Replay;
use crate::round::Round;
use mailboxes::Mail;
use nm_base::WantOfMemory;
use processes::Proc;
use std::alloc::Global;

/// How many turns finishing took, and how many of them were idle.
#[derive(Clone, Copy, Debug, PartialEq, Eq)]
pub struct Finished {
    pub turns: u32,
    pub idle: u32,
}

/// Why finishing did not reach the recorded counts.
#[derive(Clone, Copy, Debug, PartialEq, Eq)]
pub enum ReplayFault {
    /// As many turns in succession as there are processes were idle, and a process is below its
    /// recorded count. The counts are each process's number of events, and 0 for processes that
    /// there aren't.
    Stuck { counts: [u32; 32] },
    /// Memory was refused.
    Memory,
}

impl<P: Proc, M: Mail> Replay<P, M> {
    /// Finishes the replay by round robin from process 0, with pick 0, until each process has its
    /// recorded count, or as many turns in succession were idle as there are processes. Under any
    /// trace that takes at most n * (C + 1) turns, C the sum of the recorded counts. Where it fails
    /// the run so far stands.
    pub fn finish(&mut self, alloc: Global) -> Result<Finished, ReplayFault>
        ensures finished { IfOk result (λ f. (s : ℕ → Script) (T : Trace) (R : List Event)
            → IsReplayOf P.stands_for self.old s T R → HasFinished P.stands_for self.new s T R f) }
        // Where the trace is that of a run of these scripts, no replay of it is stuck.
        ensures reaches { (s : ℕ → Script) (T : Trace) (R E : List Event)
            → IsReplayOf P.stands_for self.old s T R → IsRecorded s T E
            → IfErr result (λ fault. fault ≡ ReplayFault.Memory) }
        ensures failed { IfErr result (λ fault. (s : ℕ → Script) (T : Trace) (R : List Event)
            → IsReplayOf P.stands_for self.old s T R → HasFailed P.stands_for self.new s T R fault) }
        ensures same { IsSameRun P.origin_of self.old self.new }
    {
        let Ok(round) = go_round(self, alloc) else {
            return Err(ReplayFault::Memory);
        };
        if self.is_complete() {
            return Ok(Finished {
                turns: round.turns,
                idle: round.idle,
            });
        }
        Err(ReplayFault::Stuck {
            counts: self.counts(),
        })
    }
}

/// Makes the turns of the round robin.
fn go_round<P: Proc, M: Mail>(
    replay: &mut Replay<P, M>,
    alloc: Global,
) -> Result<Round, WantOfMemory>
    ensures rounded { IfOk result (λ round. (s : ℕ → Script) (T : Trace) (R : List Event)
        → IsReplayOf P.stands_for replay.old s T R
        → HasRounded P.stands_for replay.new round s T (finish_of s T R)) }
    ensures refused { OnErr result ((s : ℕ → Script) (T : Trace) (R : List Event)
        → IsReplayOf P.stands_for replay.old s T R
        → (k : ℕ) × IsReplayOf P.stands_for replay.new s T (finish_within k s T (to_finish R)).events) }
    ensures same { IsSameRun P.origin_of replay.old replay.new }
{
    let n = replay.n();
    let most = replay.enough_turns();
    let mut round = Round::begin();
    let mut asleep = Asleep::none();
    while round.turns < most {
        if is_over(replay, &round) {
            return Ok(round);
        }
        if asleep.has(round.next) {
            round = round.after_sleepers(n, most, &asleep);
        } else {
            let t = round.next_turn();
            let turned = replay.turn(alloc, t)?;
            asleep.note(t.proc, &turned);
            round = round.after(n, &turned);
        }
    }
    Ok(round)
}

/// Whether each process has its recorded count, or a whole round was idle.
fn is_over<P: Proc, M: Mail>(replay: &Replay<P, M>, round: &Round) -> bool
    ensures is { (s : ℕ → Script) (T : Trace) (R : List Event) → IsReplayOf P.stands_for replay.now s T R
        → result ≡ all_reached T R || nat_le (length replay.now.world.processes) round.now.idle_now }
    ensures idle { result ≡ false → round.now.idle_now < length replay.now.world.processes }
{
    replay.is_complete() || round.idle_now >= replay.n()
}
