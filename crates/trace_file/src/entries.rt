//! The entries that were read so far.

ghost use Rattle.std.specs.Prelude.{◌≡◌, ◌+◌, ◌<◌, ◌^◌, [], length, OnOk, IfOk};
ghost use Rattle.trace_file.specs.declared.item.Item.TheVariants.{Note, Lost};
ghost use Rattle.trace_file.specs.private.Indexed.{Adds, IsIndexed};
ghost use Rattle.trace_file.specs.Reading.{ReadsAs, entry_at, ranked};

use crate::fault::{DamageKind, TraceFault, fault};
use crate::item::{Item, shape};
use nm_base::{AcceptNote, LetterId};
use std::alloc::Global;
use std::collections::HashSet;

/// The notes and the lost entries, with what tells whether a further one breaks a rule.
#[derive(Drop)]
pub struct Entries {
    pub notes: Vec<AcceptNote>,
    pub lost: Vec<LetterId>,
    // The letters named so far.
    named: HashSet<LetterId>,
    // For each process the least number that its next note may have.
    receives: [u64; 32],
    // For each process the least number that its next lost entry may have.
    sends: [u64; 32],
}

impl Entries {
    pub fn new(alloc: Global) -> Entries
        ensures index { IsIndexed result }
        ensures notes { result.notes.items ≡ [] }
        ensures lost { result.lost.items ≡ [] }
    {
        Entries {
            notes: Vec::new(alloc),
            lost: Vec::new(alloc),
            named: HashSet::new(alloc),
            receives: [0; 32],
            sends: [0; 32],
        }
    }

    // Adds the note that stands at this place.
    fn add_note(&mut self, note: AcceptNote, place: usize) -> Result<(), TraceFault>
        requires index { IsIndexed self.old }
        requires receiver { note.receiver.no < 32 }
        requires place { place < 2 ^ 32 }
        ensures answer { ReadsAs (λ _. Note note) result
            (ranked self.old.notes.items self.old.lost.items place (Note note)) }
        ensures adds { OnOk result (Adds (Note note) self.old self.new) }
        ensures index { OnOk result (IsIndexed self.new) }
    {
        let receiver = note.receiver.no as usize;
        if !self.lost.is_empty() || u64::from(note.receive) < self.receives[receiver] {
            return fault(DamageKind::Order, place);
        }
        match self.named.insert(note.id) {
            Ok(true) => {}
            Ok(false) => return fault(DamageKind::Repeat, place),
            Err(_) => return Err(TraceFault::Memory),
        }
        if self.notes.push(note).is_err() {
            return Err(TraceFault::Memory);
        }
        self.receives[receiver] = u64::from(note.receive) + 1;
        Ok(())
    }

    // Adds the lost letter that stands at this place.
    fn add_lost(&mut self, id: LetterId, place: usize) -> Result<(), TraceFault>
        requires index { IsIndexed self.old }
        requires sender { id.sender.no < 32 }
        requires place { place < 2 ^ 32 }
        ensures answer { ReadsAs (λ _. Lost id) result
            (ranked self.old.notes.items self.old.lost.items place (Lost id)) }
        ensures adds { OnOk result (Adds (Lost id) self.old self.new) }
        ensures index { OnOk result (IsIndexed self.new) }
    {
        let sender = id.sender.no as usize;
        if u64::from(id.number) < self.sends[sender] {
            return fault(DamageKind::Order, place);
        }
        match self.named.insert(id) {
            Ok(true) => {}
            Ok(false) => return fault(DamageKind::Repeat, place),
            Err(_) => return Err(TraceFault::Memory),
        }
        if self.lost.push(id).is_err() {
            return Err(TraceFault::Memory);
        }
        self.sends[sender] = u64::from(id.number) + 1;
        Ok(())
    }

    pub fn into_lists(self) -> (Vec<AcceptNote>, Vec<LetterId>)
        ensures { result ≡ (self.notes, self.lost) }
    {
        let Entries {
            notes,
            lost,
            named: _,
            receives: _,
            sends: _,
        } = self;
        (notes, lost)
    }

    /// Takes the item at this place, with which the rest of the file begins.
    pub fn take(&mut self, n: u8, place: usize, rest: &[u8]) -> Result<Item, TraceFault>
        requires index { IsIndexed self.old }
        requires few { n < 33 }
        requires place { place + length rest.now < 2 ^ 32 }
        ensures answer { ReadsAs (λ item. item) result
            (entry_at n self.old.notes.items self.old.lost.items place rest.now) }
        ensures adds { IfOk result (λ item. Adds item self.old self.new) }
        ensures index { OnOk result (IsIndexed self.new) }
    {
        let item = shape(n, place, rest)?;
        match item {
            Item::Note(note) => self.add_note(note, place)?,
            Item::Lost(id) => self.add_lost(id, place)?,
            Item::End => {}
        }
        Ok(item)
    }
}
