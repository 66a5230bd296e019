//! How two events stand to each other.

ghost use Rattle.std.specs.Prelude.{◌≡◌, ◌==◌, ◌&&◌, ◌↔◌, IsSome, IfSome};
ghost use Rattle.event_list.specs.declared.Event.{Event};
ghost use Rattle.event_list.specs.Runs.{Sound};
ghost use Rattle.causal_stop.specs.Stops.{HasEntry, IsEntry, StandsIn, cut_of};

use crate::cuts::stop_at;
use event_list::EventList;
use nm_base::{MAX_PROCESSES, ProcNo};

/// How one event stands to another.
#[derive(Clone, Copy, Debug, PartialEq, Eq)]
pub enum Order {
    /// They are one event.
    Same,
    /// The first happened before the second.
    Before,
    /// The second happened before the first.
    After,
    /// Neither.
    Unordered,
}

/// How p's event k stands to q's event j. None where one of them isn't in the list. It takes no memory.
pub fn order_of(events: &EventList, p: ProcNo, k: u32, q: ProcNo, j: u32) -> Option<Order>
    requires { Sound 0 events.now.events }
    ensures found { IsSome result ↔ (HasEntry events.now.events p.no k × HasEntry events.now.events q.no j) }
    ensures order { IfSome result (λ order. (a b : Event) → IsEntry events.now.events p.no k a
        → IsEntry events.now.events q.no j b → StandsIn events.now.events a b order) }
{
    let first = stop_at(events, p, k)?;
    let second = stop_at(events, q, j)?;
    if is_same(p, k, q, j) {
        return Some(Order::Same);
    }
    if k <= part(&second, p) {
        return Some(Order::Before);
    }
    if j <= part(&first, q) {
        return Some(Order::After);
    }
    Some(Order::Unordered)
}

/// Whether p's event k and q's event j are one.
fn is_same(p: ProcNo, k: u32, q: ProcNo, j: u32) -> bool
    ensures { result ≡ (p.no == q.no && k == j) }
{
    p.no == q.no && k == j
}

/// The process's number in a cut, 0 where there is no such process.
fn part(cut: &[u32; 32], p: ProcNo) -> u32
    ensures { result ≡ cut_of cut.now p.no }
{
    if p.no < MAX_PROCESSES {
        cut[p.no as usize]
    } else {
        0
    }
}
