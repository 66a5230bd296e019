//! What is looked for in a list of events.

ghost use Rattle.std.specs.Prelude.{◌≡◌, ◌<◌, ◌==◌, ◌&&◌, nat_lt};
ghost use Rattle.nm_base.specs.Message.{same_name};
ghost use Rattle.event_list.specs.Events.{letter_of, taken_of};
ghost use Rattle.event_list.specs.Clocks.{is_named};
ghost use Rattle.cut_witness.specs.private.Queries.{is_name, is_before, is_below, is_naming, meets, IsLastPassing};

use event_list::{Event, EventList};
use nm_base::{Kind, LetterId, ProcNo, has_channel};

/// What an event may be.
#[derive(Clone, Copy)]
pub enum Query {
    /// The send of the letter.
    Send {
        id: LetterId,
    },
    /// The receive of the letter.
    Receive {
        id: LetterId,
    },
    /// The send of an earlier letter of the same sender, to the same process on the same channel.
    Predecessor {
        id: LetterId,
        dest: ProcNo,
        chan: u8,
    },
    /// A receive of the process whose set names the channel, after an event of it and before another.
    Naming {
        dest: ProcNo,
        chan: u8,
        above: u32,
        below: Option<u32>,
    },
}

impl Query {
    /// Whether the event is what is looked for.
    fn is_met(&self, e: &Event) -> bool
        ensures { result ≡ meets self.now e.now }
    {
        match *self {
            Query::Send { id } => sends(e, id),
            Query::Receive { id } => takes(e, id),
            Query::Predecessor { id, dest, chan } => precedes(e, id, dest, chan),
            Query::Naming {
                dest,
                chan,
                above,
                below,
            } => names(e, chan)
                && e.proc.no == dest.no
                && (above < e.number && below_limit(e.number, below)),
        }
    }
}

fn is_letter(a: LetterId, b: LetterId) -> bool
    ensures { result ≡ same_name a b }
{
    a.sender.no == b.sender.no && a.number == b.number
}

fn sends(e: &Event, id: LetterId) -> bool
    ensures { result ≡ is_named (letter_of e.now) id }
{
    match e.kind {
        Kind::Sent { number, .. } => e.proc.no == id.sender.no && number == id.number,
        _ => false,
    }
}

fn takes(e: &Event, id: LetterId) -> bool
    ensures { result ≡ is_name (taken_of e.now) id }
{
    match e.kind {
        Kind::Accepted { id: taken, .. } => is_letter(taken, id),
        _ => false,
    }
}

fn precedes(e: &Event, id: LetterId, dest: ProcNo, chan: u8) -> bool
    ensures { result ≡ is_before (letter_of e.now) id dest chan }
{
    match e.kind {
        Kind::Sent {
            number,
            dest: to,
            chan: on,
            ..
        } => e.proc.no == id.sender.no && (number < id.number && (to.no == dest.no && on == chan)),
        _ => false,
    }
}

pub fn names(e: &Event, chan: u8) -> bool
    ensures { result ≡ is_naming e.now.kind chan }
{
    match e.kind {
        Kind::Accepted { set, .. } => has_channel(set, chan),
        _ => false,
    }
}

fn below_limit(number: u32, limit: Option<u32>) -> bool
    ensures { result ≡ is_below number limit }
{
    match limit {
        Some(limit) => number < limit,
        None => true,
    }
}

/// The last event that is what is looked for.
pub fn last(events: &EventList, query: &Query) -> Option<Event>
    ensures { IsLastPassing (meets query.now) events.now.events result }
{
    for i in (0..events.len()).rev() {
        let e = events.at(i);
        if query.is_met(e) {
            return Some(*e);
        }
    }
    None
}
