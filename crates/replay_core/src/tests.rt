//! A process that sends itself two letters and accepts the second one first.

ghost use Rattle.std.specs.Prelude.{◌≡◌, [], ◌∷◌};
ghost use Rattle.trace_file.specs.Rules.{IsTrace};

use crate::{Finished, Replay, ReplayFault};
use mailboxes::{ListMail, Mail};
use nm_base::{Kind, LetterId, ProcNo, WantOfMemory};
use processes::{Listed, Seat};
use std::alloc::Global;
use std::test::Fail;
use trace_file::{Trace, decode};

/// One process. Its receive 1 accepted the letter 0.0; the five counts' last byte and the digest are
/// left out.
const FRONT: [u8; 53] = [
    0x4e, 0x4d, 0x54, 0x52, 1, 1, 0, 0, 0, 0, 0, 0, 0, 0, 0, 0, 0, 0, 0, 0, 0, 0, 0, 0, 0, 0, 0, 0,
    0, 0, 0, 0, 0, 0, 0, 0, 0, 0, 1, 0, 0, 0, 0, 1, 0, 0, 0, 0, 0, 3, 0, 0, 0,
];

/// The process made five events.
const FIVE: [u8; 33] = [
    5, 0xfd, 0x2b, 0xf4, 0x83, 0xd3, 0xfa, 0x7f, 0xa5, 0x6e, 0x1c, 0x7e, 0x6f, 0x51, 0x4a, 0x50,
    0x4a, 0x2d, 0x6f, 0x7e, 0x14, 0x78, 0x2c, 0x2c, 0xcb, 0x37, 0x05, 0x95, 0x69, 0x24, 0x22, 0x85,
    0xa5,
];

/// The process made six events, says a trace that no recording made.
const SIX: [u8; 33] = [
    6, 0x8b, 0x22, 0x37, 0x09, 0x23, 0xdf, 0xcd, 0x1c, 0x6a, 0xf9, 0x3b, 0x86, 0xf7, 0x29, 0x7c,
    0xb6, 0xf9, 0x87, 0x46, 0x39, 0xee, 0x81, 0xc3, 0xa5, 0x03, 0xc5, 0x01, 0x65, 0xb6, 0x6e, 0xf1,
    0x02,
];

/// The send of this number, to process 0 on channel 0.
fn send(number: u32) -> Kind
    ensures { result ≡ Kind.Sent number (record { no = 0 }) 0 1 (7 ∷ 0 ∷ 0 ∷ 0 ∷ 0 ∷ 0 ∷ 0 ∷ 0 ∷ []) }
{
    Kind::Sent {
        number,
        dest: ProcNo { no: 0 },
        chan: 0,
        len: 1,
        words: [7, 0, 0, 0, 0, 0, 0, 0],
    }
}

fn letter(number: u32) -> LetterId {
    LetterId {
        sender: ProcNo { no: 0 },
        number,
    }
}

/// The replay of this trace of one process.
fn replay_of(alloc: Global, end: &[u8]) -> Result<Replay<Listed, ListMail>, Fail> {
    let mut bytes = Vec::from_slice(alloc, &FRONT)?;
    bytes.extend_from_slice(end)?;
    if bytes.len() > 100 {
        return Err("too long")?;
    }
    let trace = match decode(alloc, bytes.as_slice()) {
        Ok(trace) => trace,
        Err(_) => return Err("damaged")?,
    };
    if trace.n() != 1 {
        return Err("not one process")?;
    }
    let replay = one_talker(alloc, &trace)?;
    Ok(replay)
}

/// It sends two letters, receives both and ends.
fn one_talker(alloc: Global, trace: &Trace) -> Result<Replay<Listed, ListMail>, WantOfMemory>
    requires trace { IsTrace trace.now }
    requires one { trace.now.n ≡ 1 }
{
    let receive = Kind::Accepted {
        set: 1,
        id: letter(0),
    };
    let kinds = [send(0), send(1), receive, receive, Kind::Ended { value: 0 }];
    let kinds = Vec::from_slice(alloc, &kinds)?;
    let process = Listed::new(ProcNo { no: 0 }, kinds);
    let seat = Seat::begin(process);
    let mut seats = Vec::new(alloc);
    match seats.push(seat) {
        Ok(()) => {}
        Err(_) => return Err(WantOfMemory),
    }
    Replay::new(alloc, seats, trace)
}

/// The letter 0.0 waits for the receive that the note names, though it was sent first.
#[test]
fn finishes(rt: HostRuntime) -> Result<(), Fail> {
    let mut replay = replay_of(rt.alloc(), &FIVE)?;
    assert_eq!(rt;
        replay.finish(rt.alloc()),
        Ok(Finished { turns: 5, idle: 0 })
    );
    assert_eq!(rt; replay.events().len(), 5);
    if replay.events().len() > 3 {
        let third = replay.events().at(2).kind;
        assert_eq!(rt;
            third,
            Kind::Accepted {
                set: 1,
                id: letter(1)
            }
        );
        let fourth = replay.events().at(3).kind;
        assert_eq!(rt;
            fourth,
            Kind::Accepted {
                set: 1,
                id: letter(0)
            }
        );
    }
    assert!(rt; replay.world().mail().next_from(0).is_none());
    Ok(())
}

/// The process is over after five events.
#[test]
fn is_stuck(rt: HostRuntime) -> Result<(), Fail> {
    let mut replay = replay_of(rt.alloc(), &SIX)?;
    let mut counts = [0; 32];
    counts[0] = 5;
    assert_eq!(rt;
        replay.finish(rt.alloc()),
        Err(ReplayFault::Stuck { counts })
    );
    assert_eq!(rt; replay.events().len(), 5);
    Ok(())
}
