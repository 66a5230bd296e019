//! How the certificate of a letter is made.

ghost use Rattle.std.specs.Prelude.{◌≡◌, ◌↔◌, ℕ, [], ◌∷◌, ◌++◌, Some, IsSome, IfSome, IfOk, map, filter};
ghost use Rattle.nm_base.specs.declared.letter.LetterId.{LetterId};
ghost use Rattle.nm_base.specs.Scripts.{Script};
ghost use Rattle.event_list.specs.Runs.{Sound, IsRun};
ghost use Rattle.event_list.specs.Traces.{IsLoggedName};
ghost use Rattle.event_list.specs.Laws.{AreLawful};
ghost use Rattle.event_list.specs.Carrying.{moves_of};
ghost use Rattle.cut_witness.specs.Certificates.{IsCertificate, IsCarriedOut, IsReceivedAt, move_at};
ghost use Rattle.cut_witness.specs.private.Steps.{set_in, is_kept, IsOwn};
ghost use Rattle.cut_witness.specs.private.Findings.{IsFound, TellsFound};

use crate::certificates::{Witness, WitnessTurn};
use crate::earlier::{Posted, earlier, find_letter, receive_of};
use crate::kept::{Kept, receive_number};
use event_list::{Event, EventList};
use nm_base::{Kind, LetterId, List, ProcNo, WantOfMemory};
use std::alloc::Global;

/// What is found of a logged letter: its send, its receive, the last receive that could have taken it, and
/// the entries that its witness keeps.
#[derive(Clone, Copy)]
pub struct Found {
    pub letter: Posted,
    pub own: Option<Event>,
    pub receive: Event,
    pub kept: Kept,
}

/// The certificate of the letter, under the mask of ordered channels. None exactly where the letter isn't
/// logged in the list.
pub fn witness(
    alloc: Global,
    events: &EventList,
    mask: u32,
    id: LetterId,
) -> Result<Option<Witness>, WantOfMemory>
    requires { Sound mask events.now.events }
    ensures logged { IfOk result (λ found. IsSome found ↔ IsLoggedName mask events.now.events id) }
    ensures certificate { IfOk result (λ found. IfSome found (λ w. (w.id ≡ id)
        × IsCertificate mask events.now.events w)) }
    ensures carried { (s : ℕ → Script) → AreLawful s → IsRun s mask events.now.events
        → IfOk result (λ found. IfSome found (IsCarriedOut s mask events.now.events)) }
{
    match find(events, mask, id) {
        Some(found) => {
            let w = certificate(alloc, events, &found)?;
            Ok(Some(w))
        }
        None => Ok(None),
    }
}

/// What is found of the letter. None where it isn't logged.
pub fn find(events: &EventList, mask: u32, id: LetterId) -> Option<Found>
    requires { Sound mask events.now.events }
    ensures { TellsFound mask events.now.events id result }
{
    let letter = find_letter(events, id)?;
    let own = receive_of(events, id);
    let receive = earlier(events, mask, &letter, own)?;
    let kept = Kept::of(events, &letter, &receive)?;
    Some(Found {
        letter,
        own,
        receive,
        kept,
    })
}

/// The certificate of what was found.
fn certificate(alloc: Global, events: &EventList, found: &Found) -> Result<Witness, WantOfMemory>
    requires { Sound 0 events.now.events }
    ensures { (M : ℕ) (id : LetterId) → Sound M events.now.events → IsFound M events.now.events id found.now
        → IfOk result (λ w. (w.id ≡ id) × IsCertificate M events.now.events w) }
{
    let letter = found.letter;
    let receive = found.receive;
    let turns = turns_to(alloc, events, &found.kept, receive.proc, letter.id)?;
    Ok(Witness {
        id: letter.id,
        dest: letter.dest,
        chan: letter.chan,
        received: own_number(events, found.own),
        earlier_receive: receive_number(events, receive.proc, receive.number),
        earlier_event: receive.number,
        set: set_of(&receive),
        turns,
    })
}

/// The turns of the kept events, and last that of the process taking the letter.
fn turns_to(
    alloc: Global,
    events: &EventList,
    kept: &Kept,
    p: ProcNo,
    id: LetterId,
) -> Result<List<WitnessTurn>, WantOfMemory>
    ensures { IfOk result (λ turns. map move_at turns
        ≡ moves_of (filter (is_kept kept.now) events.now.events) ++ record { proc = p.no; takes = Some id } ∷ []) }
{
    let mut turns = kept.turns(alloc, events)?;
    let last = WitnessTurn {
        proc: p,
        took: Some(id),
    };
    if turns.push(last).is_err() {
        return Err(WantOfMemory);
    }
    Ok(List::from_vec(turns))
}

/// The number of a letter's receive among its process's receives.
fn own_number(events: &EventList, own: Option<Event>) -> Option<u32>
    requires { Sound 0 events.now.events }
    ensures { (id : LetterId) → IsOwn events.now.events id own → IsReceivedAt events.now.events id result }
{
    match own {
        Some(e) => Some(receive_number(events, e.proc, e.number)),
        None => None,
    }
}

fn set_of(e: &Event) -> u32
    ensures { result ≡ set_in e.now.kind }
{
    match e.kind {
        Kind::Accepted { set, .. } => set,
        _ => 0,
    }
}
