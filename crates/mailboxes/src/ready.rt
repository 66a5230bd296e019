//! Which letters of an ordered mail are ready: they wait, and a receive may accept them.

ghost use Rattle.std.specs.Prelude.{◌≡◌, ℕ, ◌+◌, ◌*◌, ◌%◌, ◌^◌, ◌<◌, ◌≤◌, ◌&&◌, true, false, length, map, filter, Some, slice_get};
ghost use Rattle.nm_base.specs.declared.letter.Letter.{Letter};
ghost use Rattle.mailboxes.specs.declared.queues.Slot.{Slot};
ghost use Rattle.mailboxes.specs.Letters.{is_first, is_free, is_wanted, is_named};
ghost use Rattle.mailboxes.specs.Queues.{queue_of, waiting_in, Queued, Reached, IsLeast, is_ready};

use crate::gate::Gate;
use crate::queues::{Slot, end_of, is_preceded, queue_of};
use nm_base::{Letter, LetterId, ProcNo, has_channel};

/// Whether the letter is for this process, on a channel of the set, and let through.
fn is_wanted<G: Gate>(l: &Letter, dest: ProcNo, set: u32, receive: u32, gate: &G) -> bool
    ensures { result ≡ is_wanted (G.lets gate.now dest.no receive) dest.no set l.now }
{
    l.dest.no == dest.no && has_channel(set, l.chan) && gate.allows(dest, receive, l.id)
}

/// Whether the waiting letter at the place is first.
pub(crate) fn is_first(slots: &[Slot], next: &[usize], heads: &[usize; 1024], place: usize) -> bool
    requires queued { Queued slots.now next.now heads.now }
    requires below { place < length slots.now }
    requires waits { (s : Slot) → slice_get slots.now place ≡ Some s → s.waits ≡ true }
    ensures { (s : Slot) → slice_get slots.now place ≡ Some s → result ≡ is_first (waiting_in slots.now) s.letter }
{
    let letter = slots[place].letter;
    let head = end_of(heads, queue_of(&letter));
    !is_preceded(slots, next, head, place, &letter)
}

/// Whether the letter at the place waits and the receive may accept it.
fn is_ready<G: Gate>(
    slots: &[Slot],
    next: &[usize],
    heads: &[usize; 1024],
    place: usize,
    mask: u32,
    dest: ProcNo,
    set: u32,
    receive: u32,
    gate: &G,
) -> bool
    requires queued { Queued slots.now next.now heads.now }
    requires below { place < length slots.now }
    ensures { (s : Slot) → slice_get slots.now place ≡ Some s
        → result ≡ is_ready mask (G.lets gate.now dest.no receive) dest.no set slots.now s }
{
    let slot = slots[place];
    if !slot.waits || !is_wanted(&slot.letter, dest, set, receive, gate) {
        return false;
    }
    !has_channel(mask, slot.letter.chan) || is_first(slots, next, heads, place)
}

/// The first place of a queue whose letter is ready, or its end.
fn first_of_queue<G: Gate>(
    slots: &[Slot],
    next: &[usize],
    heads: &[usize; 1024],
    queue: usize,
    mask: u32,
    dest: ProcNo,
    set: u32,
    receive: u32,
    gate: &G,
) -> usize
    requires queued { Queued slots.now next.now heads.now }
    requires queue { queue < 1024 }
    ensures reached { Reached slots.now
        (is_ready mask (G.lets gate.now dest.no receive) dest.no set slots.now) queue result }
    ensures ready { (s : Slot) → slice_get slots.now result ≡ Some s
        → is_ready mask (G.lets gate.now dest.no receive) dest.no set slots.now s ≡ true }
{
    let mut i = end_of(heads, queue);
    while i < slots.len() {
        if is_ready(slots, next, heads, i, mask, dest, set, receive, gate) {
            return i;
        }
        i = next[i];
    }
    i
}

/// The first place whose letter is ready, or a place past the end.
pub(crate) fn first_ready<G: Gate>(
    slots: &[Slot],
    next: &[usize],
    heads: &[usize; 1024],
    mask: u32,
    dest: ProcNo,
    set: u32,
    receive: u32,
    gate: &G,
) -> usize
    requires queued { Queued slots.now next.now heads.now }
    ensures { IsLeast slots.now (is_ready mask (G.lets gate.now dest.no receive) dest.no set slots.now) result }
{
    let first = (dest.no % 32) as usize * 32;
    let mut least = slots.len();
    for chan in 0..32 {
        if set >> chan == 0 {
            return least;
        }
        if !has_channel(set, chan) {
            continue;
        }
        let queue = first + chan as usize;
        let place = first_of_queue(slots, next, heads, queue, mask, dest, set, receive, gate);
        least = least.min(place);
    }
    least
}

/// How many letters are ready.
pub(crate) fn count_ready<G: Gate>(
    slots: &[Slot],
    next: &[usize],
    heads: &[usize; 1024],
    mask: u32,
    dest: ProcNo,
    set: u32,
    receive: u32,
    gate: &G,
) -> u32
    requires queued { Queued slots.now next.now heads.now }
    ensures { result ≡ length
        (filter (is_ready mask (G.lets gate.now dest.no receive) dest.no set slots.now) slots.now) }
{
    let mut count = 0;
    for i in 0..slots.len() {
        if !is_ready(slots, next, heads, i, mask, dest, set, receive, gate) {
            continue;
        }
        count += 1;
    }
    count
}

/// The name of the k-th of them, from 0.
pub(crate) fn kth_ready<G: Gate>(
    slots: &[Slot],
    next: &[usize],
    heads: &[usize; 1024],
    mask: u32,
    dest: ProcNo,
    set: u32,
    receive: u32,
    gate: &G,
    k: u32,
) -> LetterId
    requires queued { Queued slots.now next.now heads.now }
    requires below { k < length
        (filter (is_ready mask (G.lets gate.now dest.no receive) dest.no set slots.now) slots.now) }
    ensures { let ready = filter (is_ready mask (G.lets gate.now dest.no receive) dest.no set slots.now) slots.now in
        slice_get (map (λ s. s.letter.id) ready) k ≡ Some result }
{
    let mut left = k;
    for i in 0..slots.len() {
        if !is_ready(slots, next, heads, i, mask, dest, set, receive, gate) {
            continue;
        }
        if left == 0 {
            return slots[i].letter.id;
        }
        left -= 1;
    }
    unreachable!()
}
