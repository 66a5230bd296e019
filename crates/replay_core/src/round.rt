//! Where the round robin stands.

ghost use Rattle.std.specs.Prelude.{◌≡◌, ◌+◌, ◌^◌, ◌<◌, ◌≤◌, true, false, List};
ghost use Rattle.event_list.specs.declared.Event.{Event};
ghost use Rattle.event_list.specs.Traces.{Trace};
ghost use Rattle.event_list.specs.Turns.{Idle, Stays, Finishing, next_of, finish_by, to_finish};
ghost use Rattle.world.specs.Outcomes.{outcome};
ghost use Rattle.replay_core.specs.private.Rounds.{IsRoundOf, HasSlept};
ghost use Rattle.replay_core.specs.private.Sleeping.{has_mark};

use crate::asleep::Asleep;
use nm_base::ProcNo;
use schedules::Turn;
use world::Turned;

/// The turns that finishing has made, and the process whose turn is next.
#[derive(Clone, Copy, Debug)]
pub struct Round {
    pub next: u8,
    /// How many turns in succession were idle.
    pub idle_now: u8,
    pub turns: u32,
    /// How many of them were idle.
    pub idle: u32,
}

impl Round {
    /// Before the first turn.
    pub fn begin() -> Round
        ensures is { (R : List Event) → IsRoundOf result (to_finish R) }
        ensures next { result.next ≡ 0 }
        ensures turns { result.turns ≡ 0 }
        ensures idle { result.idle ≡ 0 }
    {
        Round {
            next: 0,
            idle_now: 0,
            turns: 0,
            idle: 0,
        }
    }

    /// The next turn.
    pub fn next_turn(&self) -> Turn
        ensures proc { result.proc.no ≡ self.now.next }
        ensures pick { result.pick ≡ 0 }
    {
        Turn {
            proc: ProcNo { no: self.next },
            pick: 0,
        }
    }

    /// After that turn, among n processes.
    pub fn after(&self, n: u8, turned: &Turned) -> Round
        requires next { self.now.next < n }
        requires idle_now { self.now.idle_now < n }
        requires turns { self.now.turns + 1 < 2 ^ 32 }
        requires idle { self.now.idle ≤ self.now.turns }
        ensures is { (T : Trace) (f : Finishing) → T.n ≡ n → IsRoundOf self.now f
            → IsRoundOf result (finish_by T f (outcome turned.now)) }
        ensures next { result.next < n }
        ensures turns { result.turns ≡ self.now.turns + 1 }
        ensures idle { result.idle ≤ result.turns }
    {
        match turned {
            Turned::Idle(_) => self.idled(n),
            Turned::Went { .. } => Round {
                next: self.next_of(n),
                idle_now: 0,
                turns: self.turns + 1,
                idle: self.idle,
            },
        }
    }

    /// After an idle turn, among n processes.
    pub fn idled(&self, n: u8) -> Round
        requires next { self.now.next < n }
        requires idle_now { self.now.idle_now < n }
        requires turns { self.now.turns + 1 < 2 ^ 32 }
        requires idle { self.now.idle ≤ self.now.turns }
        ensures is { (T : Trace) (f : Finishing) (why : Idle) → T.n ≡ n → IsRoundOf self.now f
            → IsRoundOf result (finish_by T f (Stays why)) }
        ensures next { result.next < n }
        ensures turns { result.turns ≡ self.now.turns + 1 }
        ensures idle { result.idle ≤ result.turns }
    {
        Round {
            next: self.next_of(n),
            idle_now: self.idle_now + 1,
            turns: self.turns + 1,
            idle: self.idle + 1,
        }
    }

    /// After the idle turns of processes that are asleep, up to one that isn't, among n processes:
    /// at most one round of them.
    pub fn after_sleepers(&self, n: u8, most: u32, asleep: &Asleep) -> Round
        requires next { self.now.next < n }
        requires idle_now { self.now.idle_now < n }
        requires idle { self.now.idle ≤ self.now.turns }
        requires few { self.now.turns < most }
        requires sleeps { has_mark asleep.now.marks self.now.next ≡ true }
        ensures slept { HasSlept self.now result asleep.now.marks n most }
        // It ends at the first that isn't asleep.
        ensures awake { result.turns < most → result.idle_now < n → has_mark asleep.now.marks result.next ≡ false }
    {
        let mut round = self.idled(n);
        while round.turns < most && round.idle_now < n && asleep.has(round.next) {
            round = round.idled(n);
        }
        round
    }

    /// The process whose turn comes after that one.
    fn next_of(&self, n: u8) -> u8
        requires { self.now.next < n }
        ensures is { result ≡ next_of n self.now.next }
        ensures below { result < n }
    {
        if self.next + 1 == n { 0 } else { self.next + 1 }
    }
}
