//! The queues of an ordered mail: one for each process and channel, in one vector of slots.

ghost use Rattle.std.specs.Prelude.{◌≡◌, ℕ, ◌+◌, ◌*◌, ◌^◌, ◌<◌, ◌≤◌, ◌&&◌, ◌==◌, ◌++◌, [], ◌∷◌, min, not, true, false, length, map, take, filter, Some, slice_get, slice_set, slice_index_or, OnOk, OnErr, IsOk, IfOk};
ghost use Rattle.std.specs.List.{list_any};
ghost use Rattle.nm_base.specs.declared.letter.Letter.{Letter};
ghost use Rattle.mailboxes.specs.declared.queues.Slot.{Slot};
ghost use Rattle.mailboxes.specs.Letters.{Rises, are_rivals, is_first};
ghost use Rattle.std.specs.Vec.{vec_capacity};
ghost use Rattle.mailboxes.specs.Queues.{no_place, queue_of, at, waiting_in, Chain, Reached, Linked, IsLeast, is_ready};

use crate::gate::Gate;
use crate::ready;
use nm_base::{Letter, LetterId, ProcNo, WantOfMemory};
use std::alloc::Global;
use std::marker::Model;

/// One queue for each of 32 processes and 32 channels.
const QUEUES: usize = 1024;

/// No place: the end of a queue.
const NO_PLACE: usize = usize::MAX;

/// A letter in its place, and whether it still waits.
#[derive(Clone, Copy)]
pub(crate) struct Slot {
    pub(crate) letter: Letter,
    pub(crate) waits: bool,
}

/// The slots in the order of posting, each with the next one of its queue, and the ends of each
/// queue. Contracts see the slots.
#[derive(Drop)]
pub(crate) struct Queues {
    slots: Vec<Slot>,
    next: Vec<usize>,
    heads: [usize; 1024],
    tails: [usize; 1024],
}

impl Model for Queues {
    ghost use Rattle.std.specs.Prelude.{◌-◌, min};
    ghost use Rattle.std.specs.Vec.{vec_len, vec_capacity};
    ghost use Rattle.mailboxes.specs.Queues.{Kept, Linked};

    ghost Value = { Kept };

    ghost view = { λ q. record {
      slots = q.slots.items;
      room = min (vec_capacity q.slots - vec_len q.slots) (vec_capacity q.next - vec_len q.next);
    } };

    ghost invariant = { λ q. Linked q.slots.items q.next.items q.heads q.tails };
}

/// The queue of a letter.
pub(crate) fn queue_of(l: &Letter) -> usize
    ensures queue { result ≡ queue_of l.now }
    ensures below { result < 1024 }
{
    (l.dest.no % 32) as usize * 32 + (l.chan % 32) as usize
}

/// Whether two letters are of one sender, to one process on one channel.
fn are_rivals(k: &Letter, l: &Letter) -> bool
    ensures { result ≡ are_rivals k.now l.now }
{
    k.id.sender.no == l.id.sender.no && k.dest.no == l.dest.no && k.chan == l.chan
}

/// Whether the slot's letter waits and is a rival of this one.
fn is_waiting_rival(s: &Slot, l: &Letter) -> bool
    ensures { result ≡ (s.now.waits && are_rivals s.now.letter l.now) }
{
    s.waits && are_rivals(&s.letter, l)
}

/// Whether a rival of the letter waits before the place. The queue's slots before `from` were taken.
pub(crate) fn is_preceded(
    slots: &[Slot],
    next: &[usize],
    from: usize,
    place: usize,
    l: &Letter,
) -> bool
    requires chain { Chain slots.now next.now }
    requires from { Reached slots.now (λ s. s.waits) (queue_of l.now) from }
    requires below { place < length slots.now }
    ensures { result ≡ list_any (λ s. s.waits && are_rivals s.letter l.now) (take place slots.now) }
{
    let mut i = from;
    while i < place {
        if is_waiting_rival(&slots[i], l) {
            return true;
        }
        i = next[i];
    }
    false
}

/// The first place of the queue from `from` on whose letter waits, or its end.
fn first_waiting(slots: &[Slot], next: &[usize], from: usize, queue: usize) -> usize
    requires chain { Chain slots.now next.now }
    requires from { Reached slots.now (λ s. s.waits) queue from }
    ensures { Reached slots.now (λ s. s.waits) queue result }
{
    let mut i = from;
    while i < slots.len() {
        if slots[i].waits {
            return i;
        }
        i = next[i];
    }
    i
}

/// Puts a place last in its queue.
fn link(next: &mut Vec<usize>, heads: &mut [usize], tails: &mut [usize], place: usize, queue: usize)
    requires next { place < length next.old.items }
    requires head { queue < length heads.old }
    requires tail { queue < length tails.old }
    ensures next_here { at tails.old queue < place → at next.new.items (at tails.old queue) ≡ place }
    ensures next_there { (i : ℕ) → (at tails.old queue < place → i ≡ at tails.old queue → ⊥)
        → at next.new.items i ≡ at next.old.items i }
    ensures many { length next.new.items ≡ length next.old.items }
    ensures room { vec_capacity next.new ≡ vec_capacity next.old }
    ensures head_here { at heads.new queue ≡ min (at heads.old queue) place }
    ensures head_there { (q : ℕ) → (q ≡ queue → ⊥) → at heads.new q ≡ at heads.old q }
    ensures tail_here { at tails.new queue ≡ place }
    ensures tail_there { (q : ℕ) → (q ≡ queue → ⊥) → at tails.new q ≡ at tails.old q }
{
    let last = tails[queue];
    if last < place {
        next[last] = place;
    }
    tails[queue] = place;
    heads[queue] = heads[queue].min(place);
}

/// The end of a queue.
pub(crate) fn end_of(ends: &[usize; 1024], queue: usize) -> usize
    requires { queue < 1024 }
    ensures { result ≡ at ends.now queue }
{
    ends[queue]
}

/// The ends of queues without slots.
fn no_places() -> [usize; 1024]
    ensures { (q : ℕ) → at result q ≡ no_place }
{
    [NO_PLACE; 1024]
}

/// Keeps the slots whose letters wait. It takes no memory.
fn keep_waiting(slots: &mut Vec<Slot>)
    ensures { slots.new.items ≡ filter (λ s. s.waits) slots.old.items }
{
    slots.retain(|s| s.waits);
}

/// The slots whose letters wait.
fn waiting_slots(alloc: Global, slots: &[Slot]) -> Result<Vec<Slot>, WantOfMemory>
    ensures { IfOk result (λ w. w.items ≡ filter (λ s. s.waits) slots.now) }
{
    slots
        .iter()
        .copied()
        .filter(|s| s.waits)
        .collect(alloc)
        .map_err(|_| WantOfMemory)
}

/// Links slots from nothing. It takes no memory where there is room for their links.
fn link_anew(
    slots: &[Slot],
    next: &mut Vec<usize>,
    heads: &mut [usize; 1024],
    tails: &mut [usize; 1024],
)
    requires room { length slots.now ≤ vec_capacity next.old }
    ensures linked { Linked slots.now next.new.items heads.new tails.new }
{
    next.clear();
    *heads = no_places();
    *tails = no_places();
    for (place, slot) in slots.iter().enumerate() {
        match next.push(NO_PLACE) {
            Ok(()) => {}
            Err(_) => unreachable!(),
        }
        link(next, heads, tails, place, queue_of(&slot.letter));
    }
}

impl Queues {
    /// Queues without letters.
    pub(crate) fn new(alloc: Global) -> Queues
        ensures { result.slots ≡ [] }
    {
        Queues {
            slots: Vec::new(alloc),
            next: Vec::new(alloc),
            heads: no_places(),
            tails: no_places(),
        }
    }

    pub(crate) fn slots(&self) -> &[Slot]
        ensures { result.now ≡ self.now.slots }
    {
        self.slots.as_slice()
    }

    /// The first place of each queue.
    pub(crate) fn fronts(&self) -> &[usize] {
        &self.heads
    }

    /// Whether there is no more room, and half of the letters or more were taken. New queues cost
    /// about as much as so many slots, so fewer are let grow.
    pub(crate) fn is_full_of_taken(&self) -> bool {
        let len = self.slots.len();
        len >= QUEUES
            && len == self.slots.capacity()
            && self.slots.iter().filter(|s| s.waits).count() <= len / 2
    }

    /// Lets go of the slots of letters that were taken. It takes no memory.
    pub(crate) fn compact(&mut self)
        ensures { waiting_in self.new.slots ≡ waiting_in self.old.slots }
    {
        keep_waiting(&mut self.slots);
        link_anew(
            self.slots.as_slice(),
            &mut self.next,
            &mut self.heads,
            &mut self.tails,
        );
    }

    /// Makes room for one more letter, and for as many as there are queues where there was none: few
    /// letters that wait then take no more memory.
    pub(crate) fn reserve(&mut self) -> Result<(), WantOfMemory>
        ensures same { self.new.slots ≡ self.old.slots }
        ensures room { OnOk result (0 < self.new.room) }
    {
        let places = if self.slots.capacity() == 0 {
            QUEUES
        } else {
            1
        };
        self.slots.reserve(places).map_err(|_| WantOfMemory)?;
        self.next.reserve(places).map_err(|_| WantOfMemory)
    }

    /// Puts a letter last. It takes no memory where there is room.
    pub(crate) fn push(&mut self, letter: Letter) -> Result<(), WantOfMemory>
        ensures pushed { OnOk result
            (self.new.slots ≡ self.old.slots ++ record { letter = letter; waits = true } ∷ []) }
        ensures refused { OnErr result (self.new.slots ≡ self.old.slots) }
        ensures room { 0 < self.old.room → IsOk result }
    {
        let place = self.slots.len();
        let queue = queue_of(&letter);
        if self.next.push(NO_PLACE).is_err() {
            return Err(WantOfMemory);
        }
        let slot = Slot {
            letter,
            waits: true,
        };
        if self.slots.push(slot).is_err() {
            self.next.pop();
            return Err(WantOfMemory);
        }
        link(
            &mut self.next,
            &mut self.heads,
            &mut self.tails,
            place,
            queue,
        );
        Ok(())
    }

    /// Takes the letter at a place.
    pub(crate) fn take(&mut self, place: usize) -> Letter
        requires { place < length self.old.slots }
        ensures letter { (s : Slot) → slice_get self.old.slots place ≡ Some s → result ≡ s.letter }
        ensures slots { self.new.slots ≡ slice_set self.old.slots place (record { letter = result; waits = false }) }
    {
        let letter = self.slots[place].letter;
        let queue = queue_of(&letter);
        self.slots[place] = Slot {
            letter,
            waits: false,
        };
        let head = self.head_of(queue);
        self.heads[queue] = head;
        letter
    }

    /// Whether the waiting letter at the place is first.
    pub(crate) fn is_first(&self, place: usize) -> bool
        requires rising { Rises 0 (waiting_in self.now.slots) }
        requires below { place < length self.now.slots }
        requires waits { (s : Slot) → slice_get self.now.slots place ≡ Some s → s.waits ≡ true }
        ensures { (s : Slot) → slice_get self.now.slots place ≡ Some s
            → result ≡ is_first (waiting_in self.now.slots) s.letter }
    {
        ready::is_first(
            self.slots.as_slice(),
            self.next.as_slice(),
            &self.heads,
            place,
        )
    }

    /// The first place whose letter is ready, or a place past the end.
    pub(crate) fn first_ready<G: Gate>(
        &self,
        mask: u32,
        dest: ProcNo,
        set: u32,
        receive: u32,
        gate: &G,
    ) -> usize
        requires rising { Rises 0 (waiting_in self.now.slots) }
        ensures { let lets = G.lets gate.now dest.no receive in
            IsLeast self.now.slots (is_ready mask lets dest.no set self.now.slots) result }
    {
        let next = self.next.as_slice();
        ready::first_ready(
            self.slots.as_slice(),
            next,
            &self.heads,
            mask,
            dest,
            set,
            receive,
            gate,
        )
    }

    /// How many letters are ready.
    pub(crate) fn count_ready<G: Gate>(
        &self,
        mask: u32,
        dest: ProcNo,
        set: u32,
        receive: u32,
        gate: &G,
    ) -> u32
        requires rising { Rises 0 (waiting_in self.now.slots) }
        ensures { let lets = G.lets gate.now dest.no receive in
            result ≡ length (filter (is_ready mask lets dest.no set self.now.slots) self.now.slots) }
    {
        let next = self.next.as_slice();
        ready::count_ready(
            self.slots.as_slice(),
            next,
            &self.heads,
            mask,
            dest,
            set,
            receive,
            gate,
        )
    }

    /// The name of the k-th of them, from 0.
    pub(crate) fn kth_ready<G: Gate>(
        &self,
        mask: u32,
        dest: ProcNo,
        set: u32,
        receive: u32,
        gate: &G,
        k: u32,
    ) -> LetterId
        requires rising { Rises 0 (waiting_in self.now.slots) }
        requires below { let lets = G.lets gate.now dest.no receive in
            k < length (filter (is_ready mask lets dest.no set self.now.slots) self.now.slots) }
        ensures { let lets = G.lets gate.now dest.no receive in
            let ready = filter (is_ready mask lets dest.no set self.now.slots) self.now.slots in
            slice_get (map (λ s. s.letter.id) ready) k ≡ Some result }
    {
        let next = self.next.as_slice();
        ready::kth_ready(
            self.slots.as_slice(),
            next,
            &self.heads,
            mask,
            dest,
            set,
            receive,
            gate,
            k,
        )
    }

    /// Queues of their own with the letters that wait.
    pub(crate) fn copy(&self, alloc: Global) -> Result<Queues, WantOfMemory>
        ensures { IfOk result (λ q. waiting_in q.slots ≡ waiting_in self.now.slots) }
    {
        let slots = waiting_slots(alloc, self.slots())?;
        let mut next = Vec::with_capacity(alloc, slots.len())?;
        let mut heads = no_places();
        let mut tails = no_places();
        link_anew(slots.as_slice(), &mut next, &mut heads, &mut tails);
        Ok(Queues {
            slots,
            next,
            heads,
            tails,
        })
    }

    /// The first place of the queue whose letter waits, or its end.
    fn head_of(&self, queue: usize) -> usize
        requires { queue < 1024 }
        ensures { Reached self.now.slots (λ s. s.waits) queue result }
    {
        let head = end_of(&self.heads, queue);
        first_waiting(self.slots.as_slice(), self.next.as_slice(), head, queue)
    }
}
