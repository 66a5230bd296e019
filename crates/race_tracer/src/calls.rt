//! A tracer and its calls.

ghost use Rattle.std.specs.Prelude.{◌≡◌, ◌↔◌, List, [], IsSome, IfSome, IfOk, IsTrue};
ghost use Rattle.nm_base.specs.Message.{message_of};
ghost use Rattle.event_list.specs.declared.Event.{Event};
ghost use Rattle.event_list.specs.Events.{receives};
ghost use Rattle.event_list.specs.Races.{IsLogged};
ghost use Rattle.event_list.specs.Turns.{is_first};
ghost use Rattle.race_tracer.specs.Tracing.{IsTracerOf, IsNext, IsLeft, received};

use crate::tables::{ByChannel, PLACES, in_range, is_held, is_late, place_of, row_after, since};
use nm_base::{AcceptNote, Letter, ProcNo, WantOfMemory};
use std::alloc::Global;
use std::marker::Model;

/// For each process and channel the event number of the last receive whose set names the channel,
/// and for each sender, process and channel that of the last receive of such a letter. It stands for
/// the lists of events whose receives it was told.
#[derive(Drop)]
pub struct Tracer {
    mask: u32,
    last: [ByChannel; 32],
    taken: Vec<u32>,
    receives: [u32; 32],
}

impl Model for Tracer {
    ghost use Rattle.std.specs.Prelude.{◌≡◌, length};
    ghost use Rattle.race_tracer.specs.declared.tables.TheConstants.{PLACES};
    ghost use Rattle.race_tracer.specs.Tracing.{Tables};

    ghost Value = { Tables };

    ghost view = { λ t. record { mask = t.mask; naming = t.last; taking = t.taken.items; receives = t.receives } };

    ghost invariant = { λ t. length t.taken.items ≡ PLACES };
}

impl Tracer {
    /// A tracer of a run under the mask that was told of no receive. It has room for 32 processes
    /// whatever n is, and takes all its memory here.
    pub fn new(alloc: Global, _n: u8, mask: u32) -> Result<Tracer, WantOfMemory>
        ensures begins { IfOk result (λ t. IsTracerOf t []) }
        ensures order { IfOk result (λ t. t.mask ≡ mask) }
    {
        let taken = vec![in alloc; 0_u32; PLACES]?;
        Ok(Tracer {
            mask,
            last: [[0; 32]; 32],
            taken,
            receives: [0; 32],
        })
    }

    /// Takes in the receive of a letter by the number of this event, and gives a note exactly where
    /// the letter is logged: where it has an earlier receive that could have taken it, and the last
    /// of these did not happen before its send. Which receives are told, of which run, is said by
    /// the premises of the clauses; without them the call is safe and means nothing. It takes no memory.
    pub fn accepted(
        &mut self,
        p: ProcNo,
        number: u32,
        set: u32,
        letter: &Letter,
    ) -> Option<AcceptNote>
        ensures logged { (E : List Event) → IsTracerOf self.old E → IsNext self.old.mask E p number set letter.now
            → IsSome result ↔ IsLogged self.old.mask (received E p number set letter.now) (message_of letter.now) }
        ensures note { (E : List Event) → IsTracerOf self.old E
            → IfSome result (λ note. note ≡ record { receiver = p; receive = receives E p.no; id = letter.now.id }) }
        ensures stands { (E : List Event) → IsTracerOf self.old E → IsNext self.old.mask E p number set letter.now
            → IsTracerOf self.new (received E p number set letter.now) }
        ensures order { self.new.mask ≡ self.old.mask }
    {
        if !in_range(p, letter) {
            return None;
        }
        let place = place_of(p, letter);
        let since = since(self.mask, letter, self.taken[place]);
        let logged = is_late(&self.last[p.no as usize], since, p, letter);
        let receive = self.receives[p.no as usize];
        self.last[p.no as usize] = row_after(&self.last[p.no as usize], set, number);
        self.taken[place] = number;
        self.receives[p.no as usize] = receive.saturating_add(1);
        logged.then_some(AcceptNote {
            receiver: p,
            receive,
            id: letter.id,
        })
    }

    /// Whether a letter that waits at the end of the run is logged. `first` says that no earlier letter
    /// of its sender, to the same process on the same channel, waits. It takes no memory.
    pub fn unreceived(&self, letter: &Letter, first: bool) -> bool
        ensures { (E : List Event) → IsTracerOf self.now E → IsLeft self.now.mask E letter.now
            → first ≡ is_first E (message_of letter.now)
            → IsTrue result ↔ IsLogged self.now.mask E (message_of letter.now) }
    {
        let p = letter.dest;
        if !in_range(p, letter) {
            return false;
        }
        if is_held(self.mask, letter, first) {
            return false;
        }
        let since = since(self.mask, letter, self.taken[place_of(p, letter)]);
        is_late(&self.last[p.no as usize], since, p, letter)
    }
}
