//! The letters of worked runs, told to a tracer, without a mask and under one.

use crate::{AcceptNote, Tracer};
use nm_base::{Letter, LetterId, ProcNo, Stamp};
use std::alloc::Global;
use std::process::Abort;
use std::test::Fail;

/// A letter to process 0, with the first three parts of its timestamp.
fn letter(sender: u8, number: u32, chan: u8, stamp: [u32; 3]) -> Letter {
    let mut parts = [0; 32];
    parts[0] = stamp[0];
    parts[1] = stamp[1];
    parts[2] = stamp[2];
    Letter {
        id: LetterId {
            sender: ProcNo { no: sender },
            number,
        },
        dest: ProcNo { no: 0 },
        chan,
        len: 1,
        words: [0; 8],
        posted: 0,
        stamp: Stamp { parts },
    }
}

/// Tells the receives of process 0, each with its event number, its letter and whether that is logged.
/// All sets are those of the letters' channels.
fn told(
    rt: &impl Abort,
    alloc: Global,
    mask: u32,
    receives: &[(u32, Letter, bool)],
) -> Result<Tracer, Fail> {
    let mut tracer = Tracer::new(alloc, 3, mask)?;
    let receiver = ProcNo { no: 0 };
    let mut receive = 0;
    for (number, letter, logged) in receives {
        let note = AcceptNote {
            receiver,
            receive,
            id: letter.id,
        };
        let expected = if *logged { Some(note) } else { None };
        let set = if letter.chan == 0 { 1 } else { 2 };
        assert_eq!(rt; tracer.accepted(receiver, *number, set, letter), expected);
        if receive < 9 {
            receive += 1;
        }
    }
    Ok(tracer)
}

/// Two senders and a receiver: the letter that comes second is logged, received or not; not where
/// the two receives name two channels. A process that writes to itself: its second letter was sent
/// before its first receive, its third after it.
#[test]
fn logs_what_raced(rt: HostRuntime) -> Result<(), Fail> {
    let first = letter(1, 0, 0, [0, 4, 0]);
    let second = letter(2, 0, 0, [0, 0, 4]);
    told(&rt, rt.alloc(), 0, &[(4, first, false), (7, second, true)])?;
    let other = letter(2, 0, 1, [0, 0, 4]);
    let tracer = told(&rt, rt.alloc(), 0, &[(4, first, false), (6, other, false)])?;
    assert!(rt; tracer.unreceived(&second, true));
    let own = [
        (7, letter(0, 0, 0, [3, 0, 0]), false),
        (9, letter(0, 1, 0, [5, 0, 0]), true),
        (13, letter(0, 2, 0, [11, 0, 0]), false),
    ];
    told(&rt, rt.alloc(), 0, &own)?;
    let tracer = told(&rt, rt.alloc(), 0, &[(4, first, false)])?;
    assert!(rt; tracer.unreceived(&second, true));
    assert!(rt; !tracer.unreceived(&other, true));
    Ok(())
}

/// Process 1 sends two letters on channel 0, and process 0 receives twice. Where the channel is
/// ordered neither is logged: no receive but its own comes after that of the other. Where it isn't,
/// the later letter may be taken first, and then the earlier one is logged.
#[test]
fn two_letters_in_order(rt: HostRuntime) -> Result<(), Fail> {
    let earlier = letter(1, 0, 0, [0, 4, 0]);
    let later = letter(1, 1, 0, [0, 6, 0]);
    told(
        &rt,
        rt.alloc(),
        1,
        &[(4, earlier, false), (7, later, false)],
    )?;
    told(&rt, rt.alloc(), 2, &[(4, later, false), (7, earlier, true)])?;
    for (mask, logged) in [(1, false), (2, true)] {
        let tracer = told(&rt, rt.alloc(), mask, &[(4, earlier, false)])?;
        assert_eq!(rt; tracer.unreceived(&later, true), logged);
    }
    Ok(())
}

/// Process 1 sends two letters on channel 0 and process 2 one, and process 0 receives three times.
/// On an ordered channel a letter is logged only where a receive between that of its predecessor
/// and its own could have taken it; one that has to wait for a predecessor isn't.
#[test]
fn receives_behind_the_predecessors(rt: HostRuntime) -> Result<(), Fail> {
    let earlier = letter(1, 0, 0, [0, 5, 0]);
    let later = letter(1, 1, 0, [0, 8, 0]);
    let other = letter(2, 0, 0, [0, 0, 5]);
    told(
        &rt,
        rt.alloc(),
        0,
        &[(5, earlier, false), (9, later, true), (13, other, true)],
    )?;
    told(
        &rt,
        rt.alloc(),
        1,
        &[(5, earlier, false), (9, later, false), (13, other, true)],
    )?;
    told(
        &rt,
        rt.alloc(),
        1,
        &[(5, earlier, false), (9, other, true), (13, later, true)],
    )?;
    let tracer = told(&rt, rt.alloc(), 1, &[(5, other, false)])?;
    assert!(rt; tracer.unreceived(&earlier, true));
    assert!(rt; !tracer.unreceived(&later, false));
    Ok(())
}
