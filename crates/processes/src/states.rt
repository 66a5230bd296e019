//! Processes typed by what they do next.

ghost use Rattle.std.specs.Prelude.{◌≡◌, ◌+◌, ◌<◌};
ghost use Rattle.nm_base.specs.declared.limits.TheConstants.{MAX_EVENTS};
ghost use Rattle.processes.specs.Standing.{Makes, Takes, Stays, CanTake, accepting};
ghost use Rattle.nm_base.specs.Message.{message_of};
ghost use Rattle.nm_base.specs.Scripts.{letter_made};
ghost use Rattle.processes.specs.Seats.{process_in, IsSeated, IfMoved, IfNoMemory};
ghost use Rattle.processes.specs.declared.proc.Look.{Look};

use crate::proc::{Look, Proc};
use nm_base::{Kind, Letter};
use std::alloc::Global;
use std::marker::Model;

/// A process whose next event is no receive. Contracts see the process.
#[derive(Drop)]
pub struct Able<P: Proc> {
    process: P,
}

impl<P: Proc> Model for Able<P> {
    ghost use Rattle.std.specs.Prelude.{◌≡◌};
    ghost use Rattle.processes.specs.declared.proc.Look.{Look};

    ghost Value = { P };

    ghost view = { λ a. a.process };

    ghost invariant = { λ a. P.look_of a.process ≡ Look.Able };
}

/// A process that wants a letter. Contracts see the process.
#[derive(Drop)]
pub struct Waiting<P: Proc> {
    process: P,
}

impl<P: Proc> Model for Waiting<P> {
    ghost use Rattle.processes.specs.Standing.{IsWaiting};

    ghost Value = { P };

    ghost view = { λ w. w.process };

    ghost invariant = { λ w. IsWaiting (P.look_of w.process) };
}

/// A process that ended or met a fault. Contracts see the process.
#[derive(Drop)]
pub struct Over<P: Proc> {
    process: P,
}

impl<P: Proc> Model for Over<P> {
    ghost use Rattle.processes.specs.Standing.{IsOver};

    ghost Value = { P };

    ghost view = { λ o. o.process };

    ghost invariant = { λ o. IsOver (P.look_of o.process) };
}

/// A process by what it does next.
#[derive(Drop)]
pub enum Seat<P: Proc> {
    Able(Able<P>),
    Waiting(Waiting<P>),
    Over(Over<P>),
}

/// What a step gives: the event with the letter that it sends, or the process as it was.
#[derive(Drop)]
pub enum Stepped<P: Proc> {
    Moved {
        seat: Seat<P>,
        kind: Kind,
        letter: Option<Letter>,
    },
    NoMemory(Able<P>),
}

impl<P: Proc> Seat<P> {
    /// Sorts a process by its look.
    pub fn begin(process: P) -> Seat<P>
        ensures process { process_in result ≡ process }
        ensures seated { IsSeated P.look_of result }
    {
        match process.look() {
            Look::Able => Seat::Able(Able { process }),
            Look::Waiting { .. } => Seat::Waiting(Waiting { process }),
            Look::Ended { .. } | Look::Faulted { .. } => Seat::Over(Over { process }),
        }
    }

    /// Its process, which shows what the seat says.
    pub fn process(&self) -> &P
        ensures process { result.now ≡ process_in self.now }
        ensures seated { IsSeated P.look_of self.now }
    {
        match self {
            Seat::Able(able) => &able.process,
            Seat::Waiting(waiting) => &waiting.process,
            Seat::Over(over) => &over.process,
        }
    }
}

impl<P: Proc> Able<P> {
    /// Makes the next event. Where memory is refused the process comes back and stands for the same.
    /// It needs a count below 1,000,000.
    #[inline(always)]
    pub fn step(self, alloc: Global) -> Stepped<P>
        requires { P.count_of self < MAX_EVENTS }
        ensures next { IfMoved result (λ p kind letter. Makes (P.stands_for self) (P.stands_for p) kind) }
        ensures letter { IfMoved result (λ p kind letter. letter ≡ letter_made (P.name_of self) kind) }
        ensures counted { IfMoved result (λ p kind letter. P.count_of p ≡ P.count_of self + 1) }
        ensures name { IfMoved result (λ p kind letter. P.name_of p ≡ P.name_of self) }
        ensures origin { IfMoved result (λ p kind letter. P.origin_of p ≡ P.origin_of self) }
        ensures refused { IfNoMemory result (λ p. Stays (P.stands_for self) (P.stands_for p)) }
        ensures refused_count { IfNoMemory result (λ p. P.count_of p ≡ P.count_of self) }
        ensures refused_name { IfNoMemory result (λ p. P.name_of p ≡ P.name_of self) }
        ensures refused_origin { IfNoMemory result (λ p. P.origin_of p ≡ P.origin_of self) }
        ensures refused_look { IfNoMemory result (λ p. P.look_of p ≡ P.look_of self) }
    {
        let Able { mut process } = self;
        match process.step(alloc) {
            Ok((kind, letter)) => Stepped::Moved {
                seat: Seat::begin(process),
                kind,
                letter,
            },
            Err(_) => Stepped::NoMemory(Able { process }),
        }
    }
}

impl<P: Proc> Waiting<P> {
    /// The channels of the receive: bit c stands for channel c.
    pub fn set(&self) -> u32
        ensures { P.look_of self.now ≡ Look.Waiting result }
    {
        match self.process.look() {
            Look::Waiting { set } => set,
            _ => unreachable!(),
        }
    }

    /// Accepts a letter on a channel of the set. It needs a count below 1,000,000.
    #[inline(always)]
    pub fn give(self, letter: Letter) -> (Seat<P>, Kind)
        requires channel { CanTake (P.look_of self) letter }
        requires room { P.count_of self < MAX_EVENTS }
        ensures next { Takes (P.stands_for self) (P.stands_for (process_in result.0)) (message_of letter) }
        ensures kind { result.1 ≡ accepting (P.look_of self) letter }
        ensures counted { P.count_of (process_in result.0) ≡ P.count_of self + 1 }
        ensures name { P.name_of (process_in result.0) ≡ P.name_of self }
        ensures origin { P.origin_of (process_in result.0) ≡ P.origin_of self }
    {
        let Waiting { mut process } = self;
        let kind = process.give(letter);
        (Seat::begin(process), kind)
    }
}
