//! The seats of a world.

ghost use Rattle.std.specs.Prelude.{◌≡◌, ℕ, ◌<◌, ◌≤◌, [], ◌∷◌, ◌++◌, length, Some, slice_get, map, IfOk, OnErr};
ghost use Rattle.std.specs.Vec.{vec_len, vec_capacity};
ghost use Rattle.std.specs.List.{swap};
ghost use Rattle.nm_base.specs.declared.limits.TheConstants.{MAX_EVENTS};
ghost use Rattle.processes.specs.declared.proc.Look.{Look};
ghost use Rattle.processes.specs.Standing.{Makes, Takes, Stays, CanTake, accepting};
ghost use Rattle.nm_base.specs.Message.{message_of};
ghost use Rattle.nm_base.specs.Scripts.{letter_made};
ghost use Rattle.processes.specs.Seats.{process_in};
ghost use Rattle.world.specs.Moves.{MadeAt, TookAt, StayedAt, AreCopies};

use nm_base::{Kind, Letter, WantOfMemory};
use processes::{Proc, Seat, Stepped};
use std::alloc::Global;
use std::marker::Model;

/// One seat for each process. Contracts see the processes.
#[derive(Drop)]
pub(crate) struct Seats<P: Proc> {
    seats: Vec<Seat<P>>,
}

impl<P: Proc> Model for Seats<P> {
    ghost use Rattle.std.specs.Prelude.{List, map};
    ghost use Rattle.processes.specs.Seats.{process_in};

    ghost Value = { List P };

    ghost view = { λ s. map process_in s.seats.items };
}

impl<P: Proc> Seats<P> {
    pub(crate) fn new(seats: Vec<Seat<P>>) -> Seats<P>
        ensures { result ≡ map process_in seats.items }
    {
        Seats { seats }
    }

    pub(crate) fn len(&self) -> usize
        ensures { result ≡ length self.now }
    {
        self.seats.len()
    }

    pub(crate) fn at(&self, i: usize) -> &Seat<P>
        requires { i < length self.now }
        ensures { slice_get self.now i ≡ Some (process_in result.now) }
    {
        &self.seats[i]
    }

    /// Seats for copies of the processes.
    pub(crate) fn copy(&self, alloc: Global) -> Result<Seats<P>, WantOfMemory>
        ensures { IfOk result (λ s. AreCopies P.stands_for P.name_of P.origin_of self.now s (length self.now)) }
    {
        Ok(Seats {
            seats: copies(alloc, self.seats.as_slice())?,
        })
    }

    /// Makes the next event of the process at the place. Its seat is moved out for that, and the
    /// last one stands in for it: no other seat is moved.
    #[inline(always)]
    pub(crate) fn step(
        &mut self,
        alloc: Global,
        i: usize,
    ) -> Result<(Kind, Option<Letter>), WantOfMemory>
        requires place { i < length self.old }
        requires able { (x : P) → slice_get self.old i ≡ Some x → P.look_of x ≡ Look.Able }
        requires room { (x : P) → slice_get self.old i ≡ Some x → P.count_of x < MAX_EVENTS }
        ensures made { IfOk result (λ r. MadeAt P.stands_for P.name_of self.old self.new i r.0 r.1) }
        ensures refused { OnErr result (StayedAt P.stands_for P.name_of self.old self.new i) }
        ensures origins { map P.origin_of self.new ≡ map P.origin_of self.old }
    {
        let seat = self.seats.swap_remove(i);
        let (seat, made) = step_seat(seat, alloc);
        put_back(&mut self.seats, i, seat);
        made
    }

    /// The process at the place accepts the letter.
    #[inline(always)]
    pub(crate) fn give(&mut self, i: usize, letter: Letter) -> Kind
        requires place { i < length self.old }
        requires waiting { (x : P) → slice_get self.old i ≡ Some x → CanTake (P.look_of x) letter }
        requires room { (x : P) → slice_get self.old i ≡ Some x → P.count_of x < MAX_EVENTS }
        ensures took { TookAt P.stands_for P.name_of self.old self.new i letter }
        ensures kind { (x : P) → slice_get self.old i ≡ Some x → result ≡ accepting (P.look_of x) letter }
        ensures origins { map P.origin_of self.new ≡ map P.origin_of self.old }
    {
        let seat = self.seats.swap_remove(i);
        let (seat, kind) = give_seat(seat, letter);
        put_back(&mut self.seats, i, seat);
        kind
    }
}

/// Seats for copies of the processes in these.
fn copies<P: Proc>(alloc: Global, seats: &[Seat<P>]) -> Result<Vec<Seat<P>>, WantOfMemory>
    ensures { IfOk result
        (λ s. AreCopies P.stands_for P.name_of P.origin_of
        (map process_in seats.now) (map process_in s.items) (length seats.now)) }
{
    let mut copies = Vec::new(alloc);
    for seat in seats {
        let process = seat.process().copy(alloc)?;
        let copy = Seat::begin(process);
        match copies.push(copy) {
            Ok(()) => {}
            Err(_) => return Err(WantOfMemory),
        }
    }
    Ok(copies)
}

/// Puts a seat back at the place where one was taken out, and the one that stood in for it back to
/// the end.
#[inline(always)]
fn put_back<P: Proc>(seats: &mut Vec<Seat<P>>, i: usize, seat: Seat<P>)
    requires place { i ≤ vec_len seats.old }
    requires room { vec_len seats.old < vec_capacity seats.old }
    ensures { seats.new.items ≡ swap (seats.old.items ++ seat ∷ []) i (vec_len seats.old) }
{
    let last = seats.len();
    match seats.push(seat) {
        Ok(()) => seats.swap(i, last),
        Err(_) => unreachable!(),
    }
}

/// The seat after the next event of its process, with the event and its letter.
#[inline(always)]
fn step_seat<P: Proc>(
    seat: Seat<P>,
    alloc: Global,
) -> (Seat<P>, Result<(Kind, Option<Letter>), WantOfMemory>)
    requires able { P.look_of (process_in seat) ≡ Look.Able }
    requires room { P.count_of (process_in seat) < MAX_EVENTS }
    ensures made { IfOk result.1
        (λ r. Makes (P.stands_for (process_in seat)) (P.stands_for (process_in result.0)) r.0) }
    ensures letter { IfOk result.1 (λ r. r.1 ≡ letter_made (P.name_of (process_in seat)) r.0) }
    ensures refused { OnErr result.1 (Stays (P.stands_for (process_in seat)) (P.stands_for (process_in result.0))) }
    ensures name { P.name_of (process_in result.0) ≡ P.name_of (process_in seat) }
    ensures origin { P.origin_of (process_in result.0) ≡ P.origin_of (process_in seat) }
{
    let _ = seat.process();
    match seat {
        Seat::Able(able) => match able.step(alloc) {
            Stepped::Moved { seat, kind, letter } => (seat, Ok((kind, letter))),
            Stepped::NoMemory(able) => (Seat::Able(able), Err(WantOfMemory)),
        },
        Seat::Waiting(_waiting) => unreachable!(),
        Seat::Over(_over) => unreachable!(),
    }
}

/// The seat after its process accepted the letter, and this event.
#[inline(always)]
fn give_seat<P: Proc>(seat: Seat<P>, letter: Letter) -> (Seat<P>, Kind)
    requires waiting { CanTake (P.look_of (process_in seat)) letter }
    requires room { P.count_of (process_in seat) < MAX_EVENTS }
    ensures took { Takes (P.stands_for (process_in seat)) (P.stands_for (process_in result.0)) (message_of letter) }
    ensures kind { result.1 ≡ accepting (P.look_of (process_in seat)) letter }
    ensures name { P.name_of (process_in result.0) ≡ P.name_of (process_in seat) }
    ensures origin { P.origin_of (process_in result.0) ≡ P.origin_of (process_in seat) }
{
    let _ = seat.process();
    match seat {
        Seat::Waiting(waiting) => waiting.give(letter),
        Seat::Able(_able) => unreachable!(),
        Seat::Over(_over) => unreachable!(),
    }
}
