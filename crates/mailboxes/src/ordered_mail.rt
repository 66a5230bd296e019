//! A mail with a queue for each process and channel.

ghost use Rattle.std.specs.Prelude.{◌≡◌, ◌<◌, ◌≤◌, ◌&&◌, drop, length, map, find, nat_le, true, Some, slice_get, option_map, Contains, IfSome};
ghost use Rattle.std.specs.Option.{option_copied};
ghost use Rattle.std.specs.List.{IsDistinct};
ghost use Rattle.std.proofs.lemmas.Map.Keys.{IsDistinct-prop};
ghost use Rattle.nm_base.specs.declared.letter.Letter.{Letter};
ghost use Rattle.mailboxes.specs.declared.queues.Slot.{Slot};
ghost use Rattle.mailboxes.specs.Letters.{Rises, Rises-prop, same_letter, is_named};
ghost use Rattle.mailboxes.specs.Queues.{waiting_in, IsPlaceOf};

use crate::gate::Gate;
use crate::mail::Mail;
use crate::queues::{Queues, Slot, queue_of};
use nm_base::{Letter, LetterId, ProcNo, WantOfMemory};
use std::alloc::Global;

/// The letters in queues, one for each process and channel. The first allowed letter is found at
/// the fronts of the queues of its process, past the letters that the gate refuses.
#[derive(Drop)]
pub struct OrderedMail {
    queues: Queues,
    mask: u32,
    /// By sender, the queue from which its latest letter was taken: it is looked at first.
    recent: [usize; 32],
    ghost rising: { Rises 0 (waiting_in queues.slots) } by { Rises-prop 0 (waiting_in queues.slots) },
    ghost distinct: { IsDistinct same_letter (waiting_in queues.slots) } by { IsDistinct-prop same_letter _ },
}

/// Whether the slot's letter waits and has this name.
fn is_waiting_named(s: &Slot, id: LetterId) -> bool
    ensures { result ≡ (s.now.waits && is_named id s.now.letter) }
{
    s.waits && s.letter.id.sender.no == id.sender.no && s.letter.id.number == id.number
}

/// The place of the waiting letter of this name.
fn place_of(slots: &[Slot], id: LetterId) -> usize
    requires { (w : Letter) × Contains (waiting_in slots.now) w × (is_named id w ≡ true) }
    ensures { IsPlaceOf slots.now id result }
{
    for (i, slot) in slots.iter().enumerate() {
        if is_waiting_named(slot, id) {
            return i;
        }
    }
    unreachable!()
}

/// The place, if the letter of this name waits there.
fn if_named(slots: &[Slot], place: usize, id: LetterId) -> Option<usize>
    ensures { IfSome result (λ i. IsPlaceOf slots.now id i) }
{
    if place >= slots.len() || !is_waiting_named(&slots[place], id) {
        return None;
    }
    Some(place)
}

/// The place of the waiting letter of this name: the front of the queue `recent`, that of another
/// queue, or wherever it stands.
fn place_in(queues: &Queues, recent: usize, id: LetterId) -> usize
    requires { (w : Letter) × Contains (waiting_in queues.now.slots) w × (is_named id w ≡ true) }
    ensures { IsPlaceOf queues.now.slots id result }
{
    let slots = queues.slots();
    if let Some(front) = queues.fronts().get(recent) {
        if let Some(place) = if_named(slots, *front, id) {
            return place;
        }
    }
    for front in queues.fronts() {
        if let Some(place) = if_named(slots, *front, id) {
            return place;
        }
    }
    place_of(slots, id)
}

/// Whether the slot's letter waits and was posted at this number or later.
fn is_from(s: &Slot, posted: u32) -> bool
    ensures { result ≡ (s.now.waits && nat_le posted s.now.letter.posted) }
{
    s.waits && posted <= s.letter.posted
}

/// A place found by halves, as if all numbers of posting rose with the places: those of the letters
/// that wait do, and mostly those of letters that were taken.
fn likely_start(slots: &[Slot], posted: u32) -> usize
    ensures { result ≤ length slots.now }
{
    let mut low = 0;
    let mut high = slots.len();
    while low < high {
        let middle = low + (high - low) / 2;
        if slots[middle].letter.posted < posted {
            low = middle + 1;
        } else {
            high = middle;
        }
    }
    low
}

/// A place before which no letter waits that was posted at this number or later: behind a letter
/// that waits and was posted before, or the first place.
fn start_for(slots: &[Slot], posted: u32) -> usize
    requires { Rises 0 (waiting_in slots.now) }
    ensures { find (λ l. nat_le posted l.posted) (waiting_in (drop result slots.now))
        ≡ find (λ l. nat_le posted l.posted) (waiting_in slots.now) }
{
    let mut start = likely_start(slots, posted);
    while start > 0 {
        let before = &slots[start - 1];
        if before.waits && before.letter.posted < posted {
            return start;
        }
        start -= 1;
    }
    0
}

/// The first waiting letter that was posted at this number or later.
fn first_from(slots: &[Slot], posted: u32) -> Option<&Letter>
    requires { Rises 0 (waiting_in slots.now) }
    ensures { option_copied result ≡ find (λ l. nat_le posted l.posted) (waiting_in slots.now) }
{
    let mut place = start_for(slots, posted);
    while place < slots.len() {
        if is_from(&slots[place], posted) {
            return Some(&slots[place].letter);
        }
        place += 1;
    }
    None
}

/// The name of the letter at the place, if it has a slot.
fn name_at(slots: &[Slot], place: usize) -> Option<LetterId>
    ensures { result ≡ option_map (λ s. s.letter.id) (slice_get slots.now place) }
{
    slots.get(place).map(|s| s.letter.id)
}

impl Mail for OrderedMail {
    ghost use Rattle.mailboxes.specs.Queues.{waiting_in};

    ghost letters = { λ m. waiting_in m.queues.slots };

    ghost ordered = { λ m. m.mask };

    ghost spare = { λ m. m.queues.room };

    fn empty(alloc: Global, mask: u32) -> Result<Self, WantOfMemory> {
        Ok(OrderedMail {
            queues: Queues::new(alloc),
            mask,
            recent: [0; 32],
        })
    }

    fn order(&self) -> u32 {
        self.mask
    }

    fn reserve(&mut self, alloc: Global) -> Result<(), WantOfMemory> {
        if self.queues.is_full_of_taken() {
            self.queues.compact();
        }
        self.queues.reserve()
    }

    fn post(&mut self, _alloc: Global, l: Letter) -> Result<(), (Letter, WantOfMemory)> {
        match self.queues.push(l) {
            Ok(()) => Ok(()),
            Err(want) => Err((l, want)),
        }
    }

    fn count<G: Gate>(&self, dest: ProcNo, set: u32, receive: u32, gate: &G) -> u32 {
        self.queues.count_ready(self.mask, dest, set, receive, gate)
    }

    fn kth<G: Gate>(&self, dest: ProcNo, set: u32, receive: u32, gate: &G, k: u32) -> LetterId {
        self.queues
            .kth_ready(self.mask, dest, set, receive, gate, k)
    }

    fn first_allowed<G: Gate>(
        &self,
        dest: ProcNo,
        set: u32,
        receive: u32,
        gate: &G,
    ) -> Option<LetterId> {
        let place = self.queues.first_ready(self.mask, dest, set, receive, gate);
        name_at(self.queues.slots(), place)
    }

    fn is_first(&self, id: LetterId) -> bool {
        let place = place_of(self.queues.slots(), id);
        self.queues.is_first(place)
    }

    fn take(&mut self, id: LetterId) -> Letter {
        let sender = (id.sender.no % 32) as usize;
        let place = place_in(&self.queues, self.recent[sender], id);
        let letter = self.queues.take(place);
        self.recent[sender] = queue_of(&letter);
        letter
    }

    fn next_from(&self, posted: u32) -> Option<&Letter> {
        first_from(self.queues.slots(), posted)
    }

    fn copy(&self, alloc: Global) -> Result<Self, WantOfMemory> {
        let queues = self.queues.copy(alloc)?;
        Ok(OrderedMail {
            queues,
            mask: self.mask,
            recent: self.recent,
        })
    }

    ghost rises = { λ m. m.rising };

    ghost distinct = { λ m. m.distinct };
}
