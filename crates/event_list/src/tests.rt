//! A list of three events.

use crate::{Event, EventList};
use nm_base::{Kind, MAX_EVENTS, ProcNo};
use std::test::Fail;

/// Events keep their order; places are found, and cut off.
#[test]
fn keeps_events(rt: HostRuntime) -> Result<(), Fail> {
    let mut list = EventList::new(rt.alloc())?;
    for (p, number) in [(1, 1), (0, 1), (1, 2)] {
        let event = Event {
            proc: ProcNo { no: p },
            number,
            kind: Kind::Line { line: 3 },
        };
        if list.len() < MAX_EVENTS {
            list.reserve(rt.alloc())?;
            list.push(rt.alloc(), event)?;
        }
    }
    assert_eq!(rt; list.len(), 3);
    for (p, number, place) in [
        (1, 1, Some(0)),
        (0, 1, Some(1)),
        (1, 2, Some(2)),
        (0, 2, None),
    ] {
        assert_eq!(rt; list.place(ProcNo { no: p }, number), place);
    }
    if list.len() > 2 {
        assert_eq!(rt; list.at(2).number, 2);
        list.cut(2);
    }
    assert_eq!(rt; list.place(ProcNo { no: 1 }, 2), None);
    Ok(())
}
