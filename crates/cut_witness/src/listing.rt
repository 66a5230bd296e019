//! The entries of a list of events: a note for each logged letter that was received, and each that wasn't.

ghost use Rattle.std.specs.Prelude.{◌≡◌, ◌↔◌, IfOk, IsTrue, Contains};
ghost use Rattle.indexmap.specs.IndexSet.{contains};
ghost use Rattle.nm_base.specs.declared.letter.AcceptNote.{AcceptNote};
ghost use Rattle.nm_base.specs.Message.{same_name};
ghost use Rattle.event_list.specs.Runs.{Sound};
ghost use Rattle.event_list.specs.Traces.{IsLoggedName, AreNotesOf, AreLostOf, note_of};
ghost use Rattle.cut_witness.specs.private.Lookups.{PassesOn, lost_of as lost_name};
ghost use Rattle.cut_witness.specs.private.Quiet.{AreQuiet};

use crate::earlier::{name_at, receive_of};
use crate::kept::{receive_number, taken_at};
use crate::making::find;
use event_list::{Event, EventList};
use indexmap::IndexSet;
use nm_base::{AcceptNote, LetterId, WantOfMemory};
use std::alloc::Global;

/// Whether the letter is logged. It is looked for only if it isn't one of those that are known not to be.
fn is_logged(events: &EventList, mask: u32, quiet: &IndexSet<LetterId>, id: LetterId) -> bool
    requires sound { Sound mask events.now.events }
    requires quiet { AreQuiet mask events.now.events (contains same_name quiet.now) }
    ensures { IsTrue result ↔ IsLoggedName mask events.now.events id }
{
    if quiet.contains(&id) {
        return false;
    }
    find(events, mask, id).is_some()
}

/// The note of an event, if it accepts a logged letter.
fn note_at(
    events: &EventList,
    mask: u32,
    quiet: &IndexSet<LetterId>,
    e: &Event,
) -> Option<AcceptNote>
    requires sound { Sound mask events.now.events }
    requires quiet { AreQuiet mask events.now.events (contains same_name quiet.now) }
    ensures { Contains events.now.events e.now
        → PassesOn (λ note. IsLoggedName mask events.now.events note.id) (note_of events.now.events e.now) result }
{
    let id = taken_at(e)?;
    if !is_logged(events, mask, quiet, id) {
        return None;
    }
    Some(AcceptNote {
        receiver: e.proc,
        receive: receive_number(events, e.proc, e.number),
        id,
    })
}

/// The name of the letter that an event sends, if it is logged and was never received.
fn lost_at(events: &EventList, mask: u32, quiet: &IndexSet<LetterId>, e: &Event) -> Option<LetterId>
    requires sound { Sound mask events.now.events }
    requires quiet { AreQuiet mask events.now.events (contains same_name quiet.now) }
    ensures { PassesOn (IsLoggedName mask events.now.events) (lost_name events.now.events e.now) result }
{
    let id = name_at(e)?;
    if !is_logged(events, mask, quiet, id) {
        return None;
    }
    if receive_of(events, id).is_some() {
        return None;
    }
    Some(id)
}

/// The notes of the list.
pub fn notes_of(
    alloc: Global,
    events: &EventList,
    mask: u32,
    quiet: &IndexSet<LetterId>,
) -> Result<Vec<AcceptNote>, WantOfMemory>
    requires sound { Sound mask events.now.events }
    requires quiet { AreQuiet mask events.now.events (contains same_name quiet.now) }
    ensures { IfOk result (λ notes. AreNotesOf mask events.now.events notes.items) }
{
    let mut notes = Vec::new(alloc);
    for i in 0..events.len() {
        let Some(note) = note_at(events, mask, quiet, events.at(i)) else {
            continue;
        };
        if notes.push(note).is_err() {
            return Err(WantOfMemory);
        }
    }
    Ok(notes)
}

/// The logged letters of the list that were never received.
pub fn lost_of(
    alloc: Global,
    events: &EventList,
    mask: u32,
    quiet: &IndexSet<LetterId>,
) -> Result<Vec<LetterId>, WantOfMemory>
    requires sound { Sound mask events.now.events }
    requires quiet { AreQuiet mask events.now.events (contains same_name quiet.now) }
    ensures { IfOk result (λ lost. AreLostOf mask events.now.events lost.items) }
{
    let mut lost = Vec::new(alloc);
    for i in 0..events.len() {
        let Some(id) = lost_at(events, mask, quiet, events.at(i)) else {
            continue;
        };
        if lost.push(id).is_err() {
            return Err(WantOfMemory);
        }
    }
    Ok(lost)
}
