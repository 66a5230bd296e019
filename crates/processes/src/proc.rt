//! The trait of a process.

use nm_base::{FaultCause, Kind, Letter, ProcNo, WantOfMemory};
use std::alloc::Global;

/// What a process does next.
#[derive(Clone, Copy, Debug, PartialEq, Eq)]
pub enum Look {
    /// Its next event is no receive.
    Able,
    /// Its next event is a receive of a letter on a channel of this set: bit c stands for channel c.
    Waiting { set: u32 },
    /// It is over: `main` returned this value.
    Ended { value: i32 },
    /// It is over: it met a fault of this cause.
    Faulted { cause: FaultCause },
}

/// A process. It stands for scripts, each with the letters accepted so far and the number of
/// events made. Every script that it stands for keeps the laws of scripts.
pub trait Proc: Sized + Drop {
    ghost use Rattle.std.specs.Prelude.{◌≡◌, ℕ, ◌+◌, ◌<◌, List, IfOk, OnErr};
    ghost use Rattle.nm_base.specs.declared.letter.ProcNo.{ProcNo};
    ghost use Rattle.nm_base.specs.declared.limits.TheConstants.{MAX_EVENTS};
    ghost use Rattle.processes.specs.declared.proc.Look.{Look};
    ghost use Rattle.nm_base.specs.Message.{Message, message_of};
    ghost use Rattle.nm_base.specs.Scripts.{Script, IsLawful, letter_made};
    ghost use Rattle.processes.specs.Standing.{Makes, Takes, Stays, Shows, CanTake, accepting};

    ghost stands_for: { Self → Script → List Message → ℕ → Type 0 };

    // What it is made from, as the code that it runs: no event changes it.
    ghost Origin: { Type 0 };

    ghost origin_of: { Self → Origin };

    ghost name_of: { Self → ProcNo };

    ghost count_of: { Self → ℕ };

    ghost look_of: { Self → Look };

    /// Its number, below 32.
    fn me(&self) -> ProcNo
        ensures { result ≡ name_of self.now };

    /// The number of its events.
    fn count(&self) -> u32
        ensures { result ≡ count_of self.now };

    /// What it does next.
    fn look(&self) -> Look
        ensures { result ≡ look_of self.now };

    /// Makes the next event, and gives it with the letter that it sends. The letter is not posted
    /// yet: its `posted` is 0 and its stamp is all 0. Where memory is refused no event was made.
    fn step(&mut self, alloc: Global) -> Result<(Kind, Option<Letter>), WantOfMemory>
        requires able { look_of self.old ≡ Look.Able }
        requires room { count_of self.old < MAX_EVENTS }
        ensures next { IfOk result (λ r. Makes (stands_for self.old) (stands_for self.new) r.0) }
        ensures letter { IfOk result (λ r. r.1 ≡ letter_made (name_of self.old) r.0) }
        ensures counted { IfOk result (λ r. count_of self.new ≡ count_of self.old + 1) }
        ensures refused { OnErr result (Stays (stands_for self.old) (stands_for self.new)) }
        ensures refused_look { OnErr result (look_of self.new ≡ look_of self.old) }
        ensures refused_count { OnErr result (count_of self.new ≡ count_of self.old) }
        ensures name { name_of self.new ≡ name_of self.old }
        ensures origin { origin_of self.new ≡ origin_of self.old };

    /// Accepts a letter on a channel of the set that it waits with, and gives this event.
    fn give(&mut self, letter: Letter) -> Kind
        requires waiting { CanTake (look_of self.old) letter }
        requires room { count_of self.old < MAX_EVENTS }
        ensures next { Takes (stands_for self.old) (stands_for self.new) (message_of letter) }
        ensures kind { result ≡ accepting (look_of self.old) letter }
        ensures counted { count_of self.new ≡ count_of self.old + 1 }
        ensures name { name_of self.new ≡ name_of self.old }
        ensures origin { origin_of self.new ≡ origin_of self.old };

    /// A process that stands for the same.
    fn copy(&self, alloc: Global) -> Result<Self, WantOfMemory>
        ensures same { IfOk result (λ p. Stays (stands_for self.now) (stands_for p)) }
        ensures look { IfOk result (λ p. look_of p ≡ look_of self.now) }
        ensures count { IfOk result (λ p. count_of p ≡ count_of self.now) }
        ensures name { IfOk result (λ p. name_of p ≡ name_of self.now) }
        ensures origin { IfOk result (λ p. origin_of p ≡ origin_of self.now) };

    ghost lawful: { (x : Self) (s : Script) (letters : List Message) (k : ℕ) → stands_for x s letters k → IsLawful s };

    ghost shows: { (x : Self) (s : Script) (letters : List Message) (k : ℕ) → stands_for x s letters k
        → Shows (look_of x) (s.next letters k) };

    ghost counts: { (x : Self) (s : Script) (letters : List Message) (k : ℕ) → stands_for x s letters k
        → k ≡ count_of x };
}
