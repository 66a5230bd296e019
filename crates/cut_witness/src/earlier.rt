//! A letter's send, and the last receive that could have taken the letter.

ghost use Rattle.std.specs.Prelude.{◌≡◌, Some};
ghost use Rattle.nm_base.specs.Message.{Message};
ghost use Rattle.event_list.specs.declared.Event.{Event};
ghost use Rattle.event_list.specs.Events.{letter_of};
ghost use Rattle.event_list.specs.Runs.{Sound};
ghost use Rattle.cut_witness.specs.private.Steps.{IsPosted, TellsPosted, posted_by, name_in, number_in, IsSince, IsReceiveOf, IsOwn, TellsEarlier};

use crate::query::{Query, last};
use event_list::{Event, EventList};
use nm_base::{Kind, LetterId, ProcNo, has_channel};

/// A letter's name, the event number of its send, and where it goes.
#[derive(Clone, Copy)]
pub struct Posted {
    pub id: LetterId,
    pub event: u32,
    pub dest: ProcNo,
    pub chan: u8,
}

/// The letter of this name, if it was sent.
pub fn find_letter(events: &EventList, id: LetterId) -> Option<Posted>
    ensures { TellsPosted events.now.events id result }
{
    let e = last(events, &Query::Send { id })?;
    posted_at(&e, id)
}

fn posted_at(e: &Event, id: LetterId) -> Option<Posted>
    ensures { result ≡ posted_by e.now id (letter_of e.now) }
{
    match e.kind {
        Kind::Sent { dest, chan, .. } => Some(Posted {
            id,
            event: e.number,
            dest,
            chan,
        }),
        _ => None,
    }
}

pub fn name_at(e: &Event) -> Option<LetterId>
    ensures { result ≡ name_in (letter_of e.now) }
{
    match e.kind {
        Kind::Sent { number, .. } => Some(LetterId {
            sender: e.proc,
            number,
        }),
        _ => None,
    }
}

/// After which receive of its process one could have taken the letter: 0 where its channel isn't ordered
/// or no letter comes before it there. None where such a letter waits.
fn since(events: &EventList, mask: u32, letter: &Posted) -> Option<u32>
    requires { Sound mask events.now.events }
    ensures { (a : Event) (m : Message) → IsPosted events.now.events a m letter.now
        → IsSince mask events.now.events m result }
{
    if !has_channel(mask, letter.chan) {
        return Some(0);
    }
    let query = Query::Predecessor {
        id: letter.id,
        dest: letter.dest,
        chan: letter.chan,
    };
    match last(events, &query) {
        Some(sent) => received_at(events, &sent),
        None => Some(0),
    }
}

/// The number of the event that receives what the event sends.
fn received_at(events: &EventList, sent: &Event) -> Option<u32>
    ensures { (l : Message) → letter_of sent.now ≡ Some l → IsReceiveOf events.now.events l.id result }
{
    let id = name_at(sent)?;
    let taken = last(events, &Query::Receive { id })?;
    Some(taken.number)
}

/// The event that receives the letter.
pub fn receive_of(events: &EventList, id: LetterId) -> Option<Event>
    ensures { IsOwn events.now.events id result }
{
    last(events, &Query::Receive { id })
}

/// The last receive that could have taken the letter. `own` is the event that receives it.
pub fn earlier(events: &EventList, mask: u32, letter: &Posted, own: Option<Event>) -> Option<Event>
    requires { Sound mask events.now.events }
    ensures { (a : Event) (m : Message) → IsPosted events.now.events a m letter.now
        → IsOwn events.now.events m.id own → TellsEarlier mask events.now.events m result }
{
    let above = since(events, mask, letter)?;
    let query = Query::Naming {
        dest: letter.dest,
        chan: letter.chan,
        above,
        below: number_at(own),
    };
    last(events, &query)
}

fn number_at(e: Option<Event>) -> Option<u32>
    ensures { result ≡ number_in e }
{
    match e {
        Some(e) => Some(e.number),
        None => None,
    }
}
