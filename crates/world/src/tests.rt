//! A process that sends itself letters and accepts them.

ghost use Rattle.std.specs.Prelude.{◌≡◌, [], ◌∷◌};

use crate::{Idle, Turned, World};
use mailboxes::{FreeGate, ListMail, Mail};
use nm_base::{Kind, LetterId, MAX_EVENTS, ProcNo, WantOfMemory};
use processes::{Listed, Proc, Seat};
use schedules::Turn;
use std::alloc::Global;
use std::test::Fail;

/// The send of this number, to process 0 on channel 0.
fn send(number: u32) -> Kind
    ensures { result ≡ Kind.Sent number (record { no = 0 }) 0 1 (7 ∷ 0 ∷ 0 ∷ 0 ∷ 0 ∷ 0 ∷ 0 ∷ 0 ∷ []) }
{
    Kind::Sent {
        number,
        dest: ProcNo { no: 0 },
        chan: 0,
        len: 1,
        words: [7, 0, 0, 0, 0, 0, 0, 0],
    }
}

/// One process: it sends two letters, receives both, sends a third and receives it.
fn one_talker(alloc: Global) -> Result<World<Listed, ListMail>, WantOfMemory> {
    let line = Kind::Line { line: 3 };
    let id = LetterId {
        sender: ProcNo { no: 0 },
        number: 0,
    };
    let receive = Kind::Accepted { set: 1, id };
    let kinds = [
        line,
        line,
        send(0),
        line,
        send(1),
        line,
        receive,
        line,
        receive,
        line,
        send(2),
        line,
        receive,
        line,
        Kind::Ended { value: 0 },
    ];
    let kinds = Vec::from_slice(alloc, &kinds)?;
    let process = Listed::new(ProcNo { no: 0 }, kinds);
    let seat = Seat::begin(process);
    let mut seats = Vec::new(alloc);
    match seats.push(seat) {
        Ok(()) => {}
        Err(_) => return Err(WantOfMemory),
    }
    World::new(alloc, seats, 0)
}

fn next(world: &mut World<Listed, ListMail>, alloc: Global) -> Result<Turned, WantOfMemory> {
    if world.n() == 0 || world.events() >= MAX_EVENTS {
        return Err(WantOfMemory);
    }
    let t = Turn {
        proc: ProcNo { no: 0 },
        pick: 6,
    };
    world.turn(alloc, t, &FreeGate)
}

/// Each letter is stamped after its send's tick: with 3, 5 and 11. The sixteenth turn is idle.
#[test]
fn sends_and_accepts(rt: HostRuntime) -> Result<(), Fail> {
    let mut world = one_talker(rt.alloc())?;
    let mut stamps = [0; 3];
    let mut sent = 0;
    for _ in 0..15 {
        let Turned::Went { event, letter } = next(&mut world, rt.alloc())? else {
            return Err("idle")?;
        };
        if let (Kind::Sent { .. }, Some(letter)) = (event.kind, letter) {
            if sent < 3 {
                stamps[sent] = letter.stamp.parts[0];
                sent += 1;
            }
        }
    }
    assert_eq!(rt; stamps, [3, 5, 11]);
    let Turned::Idle(why) = next(&mut world, rt.alloc())? else {
        return Err("not over")?;
    };
    assert_eq!(rt; why, Idle::Over);
    assert_eq!(rt; world.events(), 15);
    assert_eq!(rt; world.sent(), 3);
    if world.n() > 0 {
        let zero = ProcNo { no: 0 };
        assert_eq!(rt; world.clock(zero).parts[0], 15);
        assert_eq!(rt; world.count(zero), 15);
        assert_eq!(rt; world.receives(zero), 3);
        assert_eq!(rt; world.seat(zero).process().count(), 15);
    }
    assert!(rt; world.mail().next_from(0).is_none());
    Ok(())
}
