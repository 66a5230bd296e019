//! The certificate of a letter that raced, and traces that are compared with its run: two senders and a receiver.

ghost use Rattle.std.specs.Prelude.{◌≡◌, ◌<◌, [], ◌∷◌, ◌++◌, IfOk};
ghost use Rattle.nm_base.specs.declared.kind.Kind.TheVariants.{Sent, Accepted};
ghost use Rattle.event_list.specs.Runs.{Sound};

use crate::{Compared, WitnessTurn, compare, witness};
use causal_stop::{Order, avoid_at, order_of, stop_at};
use event_list::{Event, EventList};
use nm_base::{Kind, LetterId, ProcNo, WantOfMemory};
use std::alloc::Global;
use std::test::Fail;
use trace_file::decode;

/// The first event of the process: it sends a letter to process 0.
fn sending(p: u8) -> Event
    ensures { result ≡ record {
      proc = record { no = p };
      number = 1;
      kind = Sent 0 (record { no = 0 }) 0 1
          (7 ∷ 0 ∷ 0 ∷ 0 ∷ 0 ∷ 0 ∷ 0 ∷ 0 ∷ []);
    } }
{
    Event {
        proc: ProcNo { no: p },
        number: 1,
        kind: Kind::Sent {
            number: 0,
            dest: ProcNo { no: 0 },
            chan: 0,
            len: 1,
            words: [7, 0, 0, 0, 0, 0, 0, 0],
        },
    }
}

/// Process 0 takes the first letter of the process.
fn taking(number: u32, p: u8) -> Event
    ensures { result ≡ record {
      proc = record { no = 0 };
      number = number;
      kind = Accepted 1 (record { sender = record { no = p }; number = 0 });
    } }
{
    Event {
        proc: ProcNo { no: 0 },
        number,
        kind: Kind::Accepted {
            set: 1,
            id: letter(p),
        },
    }
}

fn letter(p: u8) -> LetterId
    ensures { result ≡ record { sender = record { no = p }; number = 0 } }
{
    LetterId {
        sender: ProcNo { no: p },
        number: 0,
    }
}

/// Both send, and then process 0 takes the letter of 1 and that of 2.
fn run(alloc: Global) -> Result<EventList, WantOfMemory>
    ensures { IfOk result (λ list. Sound 0 list.events) }
{
    let mut list = EventList::new(alloc)?;
    let first = list.push(alloc, sending(1))?;
    let second = list.push(alloc, sending(2))?;
    let third = list.push(alloc, taking(1, 1))?;
    let fourth = list.push(alloc, taking(2, 2))?;
    Ok(list)
}

/// Only the letter that came second is logged. Its certificate has both sends and then the first receive
/// taking it.
#[test]
fn the_other_way(rt: HostRuntime) -> Result<(), Fail> {
    let list = run(rt.alloc())?;
    assert!(rt; witness(rt.alloc(), &list, 0, letter(1))?.is_none());
    let Some(w) = witness(rt.alloc(), &list, 0, letter(2))? else {
        return Err("not logged")?;
    };
    assert_eq!(rt;
        (w.received, w.earlier_receive, w.earlier_event, w.set),
        (Some(1), 0, 1, 1)
    );
    let turns = [(1, None), (2, None), (0, Some(letter(2)))];
    let turns = turns.map(|(p, took)| WitnessTurn {
        proc: ProcNo { no: p },
        took,
    });
    assert_eq!(rt; w.turns.as_slice(), turns.as_slice());
    Ok(())
}

/// A trace of three processes, before its entries.
const HEADER: [u8; 38] = [
    0x4e, 0x4d, 0x54, 0x52, 1, 3, 0, 0, 0, 0, 0, 0, 0, 0, 0, 0, 0, 0, 0, 0, 0, 0, 0, 0, 0, 0, 0, 0,
    0, 0, 0, 0, 0, 0, 0, 0, 0, 0,
];

/// Receive 1 of process 0 took 2.0. All ends say that the processes made two events, one and one.
const ITS_OWN: [u8; 56] = [
    1, 0, 0, 0, 0, 1, 2, 0, 0, 0, 0, 3, 0, 0, 0, 2, 0, 0, 0, 1, 0, 0, 0, 1, 0x9b, 0xed, 0x95, 0xb2,
    0xfc, 0x52, 1, 0xfd, 0x97, 0x56, 0x79, 0x8a, 0xf2, 0xb6, 0x92, 0x92, 0x0c, 0x32, 0x74, 0x2e,
    0x77, 0xbf, 0x37, 0x88, 0x8c, 0x32, 0xe2, 0x99, 0x8f, 0xfd, 0x97, 0x52,
];

/// Without entries.
const NO_ENTRY: [u8; 45] = [
    3, 0, 0, 0, 2, 0, 0, 0, 1, 0, 0, 0, 1, 0xa1, 0x61, 0xd5, 0xb9, 0xbf, 0x6d, 9, 0x79, 0x15, 0x9a,
    9, 0x34, 0xe8, 0x1e, 0x2a, 0x30, 0x5a, 0x75, 0x6d, 0x25, 0x78, 0xaa, 0x11, 0xaf, 0xe4, 0xdf,
    0x86, 0xac, 0xc0, 0xea, 0x89, 0xc2,
];

/// Receives 0 and 1 of process 0 took 1.0 and 2.0.
const BOTH: [u8; 67] = [
    1, 0, 0, 0, 0, 0, 1, 0, 0, 0, 0, 1, 0, 0, 0, 0, 1, 2, 0, 0, 0, 0, 3, 0, 0, 0, 2, 0, 0, 0, 1, 0,
    0, 0, 1, 0xda, 0x72, 0x32, 0x8b, 0xcd, 0xf6, 0x27, 0x23, 0x81, 0x79, 0xa0, 0x33, 0x75, 0xac,
    0x0b, 0x8e, 0xbe, 0x9d, 0xe2, 0x18, 0xf1, 0xb0, 0x2b, 0x11, 0xb6, 0x42, 0x18, 0x54, 0x7c, 0x21,
    0x1c, 0x11,
];

/// Receive 0 of process 0 took 2.0.
const RECEIVE_ZERO: [u8; 56] = [
    1, 0, 0, 0, 0, 0, 2, 0, 0, 0, 0, 3, 0, 0, 0, 2, 0, 0, 0, 1, 0, 0, 0, 1, 0xe5, 0xb2, 0x39, 0x78,
    0x16, 0xfe, 0x29, 0x9d, 0x31, 0xb3, 0xb8, 0x88, 0x6c, 0x2d, 0x7a, 0xe8, 0xc7, 0x1c, 0xc6, 0x61,
    0x5b, 0xa5, 0x70, 0x5c, 0xa2, 0x9f, 0x28, 0xe2, 0x94, 0x0b, 0x5b, 0xd9,
];

/// 2.0 was never received.
const LOST: [u8; 51] = [
    2, 2, 0, 0, 0, 0, 3, 0, 0, 0, 2, 0, 0, 0, 1, 0, 0, 0, 1, 0x4c, 0x77, 0x4a, 0x47, 0xba, 0xf4,
    0x32, 0x81, 0x45, 0xe8, 0x21, 0x41, 0x30, 0x52, 0x4b, 0x4b, 0x92, 0x3a, 0x4b, 0x71, 0xa7, 0x5f,
    0xb8, 0x2f, 0xe6, 0x31, 0xb7, 0x8d, 0x45, 0xee, 0xd0, 0xe1,
];

/// What comes of comparing the run with the trace of this end.
fn compared(alloc: Global, end: &[u8]) -> Result<Compared, Fail> {
    let list = run(alloc)?;
    let mut bytes = Vec::from_slice(alloc, &HEADER)?;
    bytes.extend_from_slice(end)?;
    if bytes.len() > 200 {
        return Err("too long")?;
    }
    let trace = decode(alloc, bytes.as_slice()).ok().ok_or("damaged")?;
    if trace.mask() != 0 {
        return Err("it has a mask")?;
    }
    Ok(compare(alloc, &trace, &list)?)
}

/// The trace of the run is the same. One without its note differs by the note, and one with an entry too many
/// or a false one by that entry.
#[test]
fn compares_traces(rt: HostRuntime) -> Result<(), Fail> {
    let [one, two] = [letter(1), letter(2)];
    let cases: [(&[u8], Compared); 5] = [
        (&ITS_OWN, Compared::Same),
        (&NO_ENTRY, Compared::Differs { first: two }),
        (&BOTH, Compared::Differs { first: one }),
        (&RECEIVE_ZERO, Compared::Differs { first: two }),
        (&LOST, Compared::Differs { first: two }),
    ];
    for (end, expected) in cases {
        assert_eq!(rt; compared(rt.alloc(), end)?, expected);
    }
    Ok(())
}

/// The numbers of the first three processes.
fn first_three(cut: Option<[u32; 32]>) -> Option<(u32, u32, u32)> {
    let [zero, one, two, ..] = cut?;
    Some((zero, one, two))
}

/// Cuts of the same run: with the first receive, without the send of its letter, and how events stand.
#[test]
fn cuts_around_events(rt: HostRuntime) -> Result<(), Fail> {
    let list = run(rt.alloc())?;
    let [zero, one, two] = [ProcNo { no: 0 }, ProcNo { no: 1 }, ProcNo { no: 2 }];
    assert_eq!(rt; first_three(stop_at(&list, zero, 1)), Some((1, 1, 0)));
    assert_eq!(rt; first_three(avoid_at(&list, one, 1)), Some((0, 0, 1)));
    assert_eq!(rt; first_three(avoid_at(&list, zero, 2)), Some((1, 1, 1)));
    assert_eq!(rt; first_three(stop_at(&list, zero, 3)), None);
    assert_eq!(rt; order_of(&list, one, 1, zero, 2), Some(Order::Before));
    assert_eq!(rt; order_of(&list, zero, 1, two, 1), Some(Order::Unordered));
    assert_eq!(rt; order_of(&list, zero, 2, two, 1), Some(Order::After));
    assert_eq!(rt; order_of(&list, two, 1, two, 1), Some(Order::Same));
    Ok(())
}
