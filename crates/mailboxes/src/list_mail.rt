//! A mail as one vector: each call walks through the waiting letters.

ghost use Rattle.std.specs.Prelude.{◌≡◌, ◌<◌, ◌^◌, length, map, take, Some, slice_get, slice_index_or, find, nat_le, true, false, Contains};
ghost use Rattle.std.specs.Option.{option_copied};
ghost use Rattle.nm_base.specs.declared.letter.Letter.{Letter};
ghost use Rattle.std.specs.List.{IsDistinct, list_any};
ghost use Rattle.std.proofs.lemmas.Map.Keys.{IsDistinct-prop};
ghost use Rattle.mailboxes.specs.Letters.{Rises, Rises-prop, same_letter, are_rivals, precedes, is_first, is_free, is_wanted, is_allowed, allowed, is_named};

use crate::gate::Gate;
use crate::mail::Mail;
use nm_base::{Letter, LetterId, ProcNo, WantOfMemory, has_channel};
use std::alloc::Global;

/// The letters in one vector, in the order of their posting.
#[derive(Drop)]
pub struct ListMail {
    waiting: Vec<Letter>,
    mask: u32,
    ghost rising: { Rises 0 waiting.items } by { Rises-prop 0 waiting.items },
    ghost distinct: { IsDistinct same_letter waiting.items } by { IsDistinct-prop same_letter waiting.items },
}

/// Whether the two are of one sender, to one process on one channel, and the first was posted before.
fn precedes(k: &Letter, l: &Letter) -> bool
    ensures { result ≡ precedes k.now l.now }
{
    k.posted < l.posted
        && k.id.sender.no == l.id.sender.no
        && k.dest.no == l.dest.no
        && k.chan == l.chan
}

/// Whether one of the letters precedes this one.
fn is_preceded(letters: &[Letter], l: &Letter) -> bool
    ensures { result ≡ list_any (λ k. precedes k l.now) letters.now }
{
    letters.iter().any(|k| precedes(k, l))
}

/// Whether the receive may accept the letter.
fn is_allowed<G: Gate>(
    letters: &[Letter],
    mask: u32,
    l: &Letter,
    dest: ProcNo,
    set: u32,
    receive: u32,
    gate: &G,
) -> bool
    ensures { result ≡ is_allowed mask (G.lets gate.now dest.no receive) dest.no set letters.now l.now }
{
    l.dest.no == dest.no
        && has_channel(set, l.chan)
        && gate.allows(dest, receive, l.id)
        && (!has_channel(mask, l.chan) || !is_preceded(letters, l))
}

/// How many of the letters the receive may accept.
fn count_allowed<G: Gate>(
    letters: &[Letter],
    mask: u32,
    dest: ProcNo,
    set: u32,
    receive: u32,
    gate: &G,
) -> u32
    requires { length letters.now < 2 ^ 32 }
    ensures { result ≡ length (allowed mask (G.lets gate.now dest.no receive) dest.no set letters.now) }
{
    let mut count = 0;
    for l in letters {
        if is_allowed(letters, mask, l, dest, set, receive, gate) {
            count += 1;
        }
    }
    count
}

/// The name of the k-th of them, from 0.
fn kth_allowed<G: Gate>(
    letters: &[Letter],
    mask: u32,
    dest: ProcNo,
    set: u32,
    receive: u32,
    gate: &G,
    k: u32,
) -> LetterId
    requires { k < length (allowed mask (G.lets gate.now dest.no receive) dest.no set letters.now) }
    ensures { let mine = allowed mask (G.lets gate.now dest.no receive) dest.no set letters.now in
        slice_get (map (λ l. l.id) mine) k ≡ Some result }
{
    let mut left = k;
    for l in letters {
        if is_allowed(letters, mask, l, dest, set, receive, gate) {
            if left == 0 {
                return l.id;
            }
            left -= 1;
        }
    }
    unreachable!()
}

/// Whether the letter has this name.
fn is_named(l: &Letter, id: LetterId) -> bool
    ensures { result ≡ is_named id l.now }
{
    l.id.sender.no == id.sender.no && l.id.number == id.number
}

/// The place of the first letter of this name.
fn place_of(letters: &[Letter], id: LetterId) -> usize
    requires { (w : Letter) × Contains letters.now w × (is_named id w ≡ true) }
    ensures within { result < length letters.now }
    ensures here { (d : Letter) → is_named id (slice_index_or letters.now result d) ≡ true }
    ensures first { (w : Letter) → Contains (take result letters.now) w → is_named id w ≡ false }
{
    for (i, l) in letters.iter().enumerate() {
        if is_named(l, id) {
            return i;
        }
    }
    unreachable!()
}

/// The letter of this name.
fn letter_named(letters: &[Letter], id: LetterId) -> &Letter
    requires { (w : Letter) × Contains letters.now w × (is_named id w ≡ true) }
    ensures waits { Contains letters.now result.now }
    ensures name { is_named id result.now ≡ true }
{
    &letters[place_of(letters, id)]
}

/// The first letter that was posted at this number or later.
fn first_from(letters: &[Letter], posted: u32) -> Option<&Letter>
    ensures { option_copied result ≡ find (λ l. nat_le posted l.posted) letters.now }
{
    letters.iter().find(|l| posted <= l.posted)
}

impl Mail for ListMail {
    ghost use Rattle.std.specs.Prelude.{◌-◌};
    ghost use Rattle.std.specs.Vec.{vec_len, vec_capacity};

    ghost letters = { λ m. m.waiting.items };

    ghost ordered = { λ m. m.mask };

    ghost spare = { λ m. vec_capacity m.waiting - vec_len m.waiting };

    fn empty(alloc: Global, mask: u32) -> Result<Self, WantOfMemory> {
        Ok(ListMail {
            waiting: Vec::new(alloc),
            mask,
        })
    }

    fn order(&self) -> u32 {
        self.mask
    }

    fn reserve(&mut self, _alloc: Global) -> Result<(), WantOfMemory> {
        self.waiting.reserve(1).map_err(|_| WantOfMemory)
    }

    fn post(&mut self, _alloc: Global, l: Letter) -> Result<(), (Letter, WantOfMemory)> {
        match self.waiting.push(l) {
            Ok(()) => Ok(()),
            Err(failed) => Err((failed.value, WantOfMemory)),
        }
    }

    fn count<G: Gate>(&self, dest: ProcNo, set: u32, receive: u32, gate: &G) -> u32 {
        count_allowed(self.waiting.as_slice(), self.mask, dest, set, receive, gate)
    }

    fn kth<G: Gate>(&self, dest: ProcNo, set: u32, receive: u32, gate: &G, k: u32) -> LetterId {
        kth_allowed(
            self.waiting.as_slice(),
            self.mask,
            dest,
            set,
            receive,
            gate,
            k,
        )
    }

    fn first_allowed<G: Gate>(
        &self,
        dest: ProcNo,
        set: u32,
        receive: u32,
        gate: &G,
    ) -> Option<LetterId> {
        if self.count(dest, set, receive, gate) == 0 {
            return None;
        }
        Some(self.kth(dest, set, receive, gate, 0))
    }

    fn is_first(&self, id: LetterId) -> bool {
        let letters = self.waiting.as_slice();
        !is_preceded(letters, letter_named(letters, id))
    }

    fn take(&mut self, id: LetterId) -> Letter {
        let place = place_of(self.waiting.as_slice(), id);
        self.waiting.remove(place)
    }

    fn next_from(&self, posted: u32) -> Option<&Letter> {
        first_from(self.waiting.as_slice(), posted)
    }

    fn copy(&self, alloc: Global) -> Result<Self, WantOfMemory> {
        match Vec::from_slice(alloc, self.waiting.as_slice()) {
            Ok(waiting) => Ok(ListMail {
                waiting,
                mask: self.mask,
            }),
            Err(_) => Err(WantOfMemory),
        }
    }

    ghost rises = { λ m. m.rising };

    ghost distinct = { λ m. m.distinct };
}
