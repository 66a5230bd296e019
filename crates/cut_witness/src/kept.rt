//! The entries that a witness keeps.

ghost use Rattle.std.specs.Prelude.{◌≡◌, [], ◌∷◌, ◌++◌, Some, None, filter, map, IfOk, Contains};
ghost use Rattle.nm_base.specs.declared.letter.LetterId.{LetterId};
ghost use Rattle.nm_base.specs.Message.{Message};
ghost use Rattle.event_list.specs.declared.Event.{Event};
ghost use Rattle.event_list.specs.Events.{letter_of, taken_of};
ghost use Rattle.event_list.specs.Runs.{Sound};
ghost use Rattle.event_list.specs.Traces.{receive_number as number_of_receive};
ghost use Rattle.event_list.specs.Carrying.{moves_of};
ghost use Rattle.causal_stop.specs.Stops.{IsEntry, cut_of};
ghost use Rattle.cut_witness.specs.Certificates.{move_at};
ghost use Rattle.cut_witness.specs.private.Steps.{IsPosted, TellsKept, is_kept, is_receive_below};

use crate::certificates::WitnessTurn;
use crate::earlier::Posted;
use causal_stop::stop_at;
use event_list::{Event, EventList};
use nm_base::{Kind, LetterId, ProcNo, WantOfMemory};
use std::alloc::Global;

/// The counts of two pasts, and the event that is left out of them.
#[derive(Clone, Copy)]
pub struct Kept {
    pub send: [u32; 32],
    pub receive: [u32; 32],
    pub without: ProcNo,
    pub number: u32,
}

impl Kept {
    /// The pasts of the letter's send and of the receive, without the receive. None where the receive
    /// happened before the send.
    pub fn of(events: &EventList, letter: &Posted, receive: &Event) -> Option<Kept>
        requires { Sound 0 events.now.events }
        ensures { (a : Event) (m : Message) (id : LetterId) → IsPosted events.now.events a m letter.now
            → Contains events.now.events receive.now → taken_of receive.now ≡ Some id
            → TellsKept events.now.events a receive.now result }
    {
        let send = stop_at(events, letter.id.sender, letter.event)?;
        let past = stop_at(events, receive.proc, receive.number)?;
        let counted = part(&send, receive.proc);
        if receive.number <= counted {
            return None;
        }
        Some(Kept {
            send,
            receive: past,
            without: receive.proc,
            number: receive.number,
        })
    }

    /// Whether the event is kept.
    fn holds(&self, e: &Event) -> bool
        ensures { result ≡ is_kept self.now e.now }
    {
        let inside = e.number <= part(&self.send, e.proc)
            || e.number <= part(&self.receive, e.proc);
        inside && !(e.proc.no == self.without.no && e.number == self.number)
    }

    /// The turns of the kept events, in the list's order.
    pub fn turns(&self, alloc: Global, events: &EventList) -> Result<Vec<WitnessTurn>, WantOfMemory>
        ensures { IfOk result (λ turns. map move_at turns.items
            ≡ moves_of (filter (is_kept self.now) events.now.events)) }
    {
        let mut turns = Vec::new(alloc);
        for i in 0..events.len() {
            let e = events.at(i);
            if !self.holds(e) {
                continue;
            }
            if turns.push(turn_of(e)).is_err() {
                return Err(WantOfMemory);
            }
        }
        Ok(turns)
    }
}

/// The turn that makes the event.
fn turn_of(e: &Event) -> WitnessTurn
    ensures proc { result.proc ≡ e.now.proc }
    ensures took { result.took ≡ taken_of e.now }
{
    WitnessTurn {
        proc: e.proc,
        took: taken_at(e),
    }
}

pub fn taken_at(e: &Event) -> Option<LetterId>
    ensures { result ≡ taken_of e.now }
{
    match e.kind {
        Kind::Accepted { id, .. } => Some(id),
        _ => None,
    }
}

/// The process's number in a cut, 0 where there is no such process.
fn part(cut: &[u32; 32], p: ProcNo) -> u32
    ensures { result ≡ cut_of cut.now p.no }
{
    if usize::from(p.no) < cut.len() {
        cut[p.no as usize]
    } else {
        0
    }
}

/// How many letters the process received before its event of this number.
pub fn receive_number(events: &EventList, p: ProcNo, number: u32) -> u32
    requires { Sound 0 events.now.events }
    ensures { (b : Event) → IsEntry events.now.events p.no number b → result ≡ number_of_receive events.now.events b }
{
    let mut received = 0;
    for i in 0..events.len() {
        if !is_receive_below(events.at(i), p, number) {
            continue;
        }
        received += 1;
    }
    received
}

fn is_receive_below(e: &Event, p: ProcNo, number: u32) -> bool
    ensures { result ≡ is_receive_below p.no number e.now }
{
    taken_at(e).is_some() && (e.proc.no == p.no && e.number < number)
}
