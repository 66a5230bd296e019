//! Entries that are looked up by hash.

ghost use Rattle.std.specs.Prelude.{◌≡◌, [], ◌∷◌, ◌++◌, List, true, false, not, option_map, find, IfOk, OnOk, if◌then◌else◌};
ghost use Rattle.indexmap.specs.IndexSet.{contains};
ghost use Rattle.nm_base.specs.Message.{same_name};
ghost use Rattle.nm_base.specs.declared.letter.AcceptNote.{AcceptNote};
ghost use Rattle.nm_base.specs.declared.letter.LetterId.{LetterId};
ghost use Rattle.cut_witness.specs.Comparisons.{trace_entries};
ghost use Rattle.cut_witness.specs.declared.lookups.NoteKey.{NoteKey};
ghost use Rattle.cut_witness.specs.private.Lookups.{key_of, same_key, has_note, has_lost, has, Holds, FindsFirst, FindsLacking, with_name};

use indexmap::IndexSet;
use nm_base::{AcceptNote, LetterId, ProcNo, WantOfMemory};
use std::alloc::Global;
use std::marker::Model;

/// A note, as it is looked up.
#[derive(Clone, Copy, Debug, PartialEq, Eq, Hash)]
pub struct NoteKey {
    pub receiver: ProcNo,
    pub receive: u32,
    pub id: LetterId,
}

fn key_of(note: &AcceptNote) -> NoteKey
    ensures { result ≡ key_of note.now }
{
    NoteKey {
        receiver: note.receiver,
        receive: note.receive,
        id: note.id,
    }
}

/// A set of entries.
#[derive(Drop)]
struct EntrySet {
    noted: IndexSet<NoteKey>,
    lost: IndexSet<LetterId>,
}

impl Model for EntrySet {
    ghost use Rattle.cut_witness.specs.private.Lookups.{Sets};

    ghost Value = { Sets };

    ghost view = { λ s. record { noted = s.noted.keys; lost = s.lost.keys } };
}

impl EntrySet {
    /// The set of these entries.
    fn of(alloc: Global, notes: &[AcceptNote], lost: &[LetterId]) -> Result<EntrySet, WantOfMemory>
        ensures { IfOk result (λ sets. Holds sets notes.now lost.now) }
    {
        let mut sets = EntrySet::empty(alloc);
        for note in notes {
            sets.add_note(note)?;
        }
        for id in lost {
            sets.add_lost(id)?;
        }
        Ok(sets)
    }

    fn empty(alloc: Global) -> EntrySet
        ensures { Holds result [] [] }
    {
        EntrySet {
            noted: IndexSet::new(alloc),
            lost: IndexSet::new(alloc),
        }
    }

    fn add_note(&mut self, note: &AcceptNote) -> Result<(), WantOfMemory>
        ensures { OnOk result ((notes : List AcceptNote)
            → Holds self.old notes [] → Holds self.new (notes ++ note.now ∷ []) []) }
    {
        add_key(&mut self.noted, key_of(note))?;
        Ok(())
    }

    fn add_lost(&mut self, id: &LetterId) -> Result<(), WantOfMemory>
        ensures { OnOk result ((notes : List AcceptNote) (lost : List LetterId)
            → Holds self.old notes lost → Holds self.new notes (lost ++ id.now ∷ [])) }
    {
        add_letter(&mut self.lost, *id)?;
        Ok(())
    }

    fn has_note(&self, note: &AcceptNote) -> bool
        ensures { result ≡ has_note self.now note.now }
    {
        self.noted.contains(&key_of(note))
    }

    fn has_lost(&self, id: &LetterId) -> bool
        ensures { result ≡ has_lost self.now id.now }
    {
        self.lost.contains(id)
    }
}

fn add_key(noted: &mut IndexSet<NoteKey>, key: NoteKey) -> Result<(), WantOfMemory>
    ensures { OnOk result ((q : NoteKey) → contains same_key noted.new q
        ≡ (if same_key key q then true else contains same_key noted.old q)) }
{
    match noted.insert(key) {
        Ok(_) => Ok(()),
        Err(_) => Err(WantOfMemory),
    }
}

fn add_letter(lost: &mut IndexSet<LetterId>, id: LetterId) -> Result<(), WantOfMemory>
    ensures { OnOk result ((q : LetterId) → contains same_name lost.new q
        ≡ (if same_name id q then true else contains same_name lost.old q)) }
{
    match lost.insert(id) {
        Ok(_) => Ok(()),
        Err(_) => Err(WantOfMemory),
    }
}

/// Adds the letter, if there is one.
pub fn add_found(
    letters: &mut IndexSet<LetterId>,
    found: Option<LetterId>,
) -> Result<(), WantOfMemory>
    ensures { OnOk result ((q : LetterId) → contains same_name letters.new q
        ≡ with_name found q (contains same_name letters.old q)) }
{
    match found {
        Some(id) => add_letter(letters, id),
        None => Ok(()),
    }
}

/// The letter of the first note that the set lacks.
fn first_note(notes: &[AcceptNote], sets: &EntrySet) -> Option<LetterId>
    ensures { result ≡ option_map (λ note. note.id) (find (λ note. not (has_note sets.now note)) notes.now) }
{
    for note in notes {
        if !sets.has_note(note) {
            return Some(note.id);
        }
    }
    None
}

/// The first letter that the set lacks.
fn first_lost(lost: &[LetterId], sets: &EntrySet) -> Option<LetterId>
    ensures { result ≡ find (λ id. not (has_lost sets.now id)) lost.now }
{
    for id in lost {
        if !sets.has_lost(id) {
            return Some(*id);
        }
    }
    None
}

/// The letter of the first entry that the set lacks.
fn first_outside(notes: &[AcceptNote], lost: &[LetterId], sets: &EntrySet) -> Option<LetterId>
    ensures { FindsFirst (λ x. has sets.now x ≡ false) (trace_entries notes.now lost.now) result }
{
    match first_note(notes, sets) {
        Some(id) => Some(id),
        None => first_lost(lost, sets),
    }
}

/// The letter of the first entry that isn't one of the others.
pub fn first_lacking(
    alloc: Global,
    notes: &[AcceptNote],
    lost: &[LetterId],
    other_notes: &[AcceptNote],
    other_lost: &[LetterId],
) -> Result<Option<LetterId>, WantOfMemory>
    ensures { IfOk result (FindsLacking (trace_entries notes.now lost.now)
        (trace_entries other_notes.now other_lost.now)) }
{
    let sets = EntrySet::of(alloc, other_notes, other_lost)?;
    Ok(first_outside(notes, lost, &sets))
}
