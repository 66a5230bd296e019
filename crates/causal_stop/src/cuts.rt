//! The least cut with an event, and the greatest one without it.

ghost use Rattle.std.specs.Prelude.{◌≡◌, ◌<◌, ◌↔◌, IsSome, IfSome, length, slice_get, Some};
ghost use Rattle.event_list.specs.declared.Event.{Event};
ghost use Rattle.event_list.specs.Stored.{IsBounded};
ghost use Rattle.event_list.specs.Runs.{Sound};
ghost use Rattle.event_list.specs.Cuts.{IsLeastCut, IsGreatestCut};
ghost use Rattle.causal_stop.specs.Stops.{HasEntry, IsEntry, Holds, Lacks, cut_of};

use crate::free::Free;
use crate::past::Needs;
use event_list::EventList;
use nm_base::ProcNo;

/// How many events of each process the least cut holds in which the process's event of this number is:
/// of each process, those that are this event or happened before it. None where the list has no such event.
/// It takes no memory.
pub fn stop_at(events: &EventList, p: ProcNo, number: u32) -> Option<[u32; 32]>
    requires { Sound 0 events.now.events }
    ensures found { IsSome result ↔ HasEntry events.now.events p.no number }
    ensures least { IfSome result (λ parts. IsLeastCut events.now.events (Holds p.no number) (cut_of parts)) }
{
    let place = place_of(events, p, number)?;
    Some(past_from(events, place))
}

/// How many events of each process the greatest cut holds in which the process's event of this number
/// isn't: of each process, those that are not this event and that it didn't happen before. None where the
/// list has no such event. It takes no memory.
pub fn avoid_at(events: &EventList, p: ProcNo, number: u32) -> Option<[u32; 32]>
    requires { Sound 0 events.now.events }
    ensures found { IsSome result ↔ HasEntry events.now.events p.no number }
    ensures greatest { IfSome result (λ parts. IsGreatestCut events.now.events (Lacks p.no number) (cut_of parts)) }
{
    let place = place_of(events, p, number)?;
    Some(free_of(events, place))
}

/// The place of the process's event of this number.
fn place_of(events: &EventList, p: ProcNo, number: u32) -> Option<u32>
    requires { Sound 0 events.now.events }
    ensures bounded { IsBounded events.now.events }
    ensures found { IsSome result ↔ HasEntry events.now.events p.no number }
    ensures place { IfSome result (λ place. (a : Event) × (slice_get events.now.events place ≡ Some a)
        × IsEntry events.now.events p.no number a) }
{
    // No process has more events than there are.
    if events.len() < number {
        return None;
    }
    events.place(p, number)
}

/// The numbers of the least cut with the event at this place.
fn past_from(events: &EventList, place: u32) -> [u32; 32]
    requires sound { Sound 0 events.now.events }
    requires bounded { IsBounded events.now.events }
    requires place { place < length events.now.events }
    ensures { (a : Event) → slice_get events.now.events place ≡ Some a
        → IsLeastCut events.now.events (Holds a.proc.no a.number) (cut_of result) }
{
    let last = events.at(place);
    let mut needs = Needs::of(last.proc, last.number);
    for i in (0..place + 1).rev() {
        needs.take_in(events.at(i));
    }
    needs.events
}

/// The numbers of the greatest cut without the event at this place.
fn free_of(events: &EventList, place: u32) -> [u32; 32]
    requires sound { Sound 0 events.now.events }
    requires bounded { IsBounded events.now.events }
    requires place { place < length events.now.events }
    ensures { (a : Event) → slice_get events.now.events place ≡ Some a
        → IsGreatestCut events.now.events (Lacks a.proc.no a.number) (cut_of result) }
{
    let mut free = Free::new();
    for i in 0..events.len() {
        if i == place {
            continue;
        }
        free.take_in(events.at(i));
    }
    free.events
}
