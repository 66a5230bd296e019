//! A process that goes through a list of events, in each of its states.

ghost use Rattle.std.specs.Prelude.{◌≡◌, IfOk};

use crate::{Listed, Look, Proc, Seat, Stepped};
use nm_base::{Kind, LetterId, ProcNo, WantOfMemory};
use std::alloc::Global;
use std::test::Fail;

/// Sends a letter to itself, accepts it and ends.
fn caller(alloc: Global) -> Result<Listed, WantOfMemory>
    ensures { IfOk result (λ a. ⟦<Listed as Proc>⟧.count_of a ≡ 0) }
{
    let send = Kind::Sent {
        number: 0,
        dest: ProcNo { no: 0 },
        chan: 0,
        len: 1,
        words: [7, 0, 0, 0, 0, 0, 0, 0],
    };
    let id = LetterId {
        sender: ProcNo { no: 0 },
        number: 0,
    };
    let receive = Kind::Accepted { set: 1, id };
    let kinds = Vec::from_slice(alloc, &[send, receive, Kind::Ended { value: 0 }])?;
    Ok(Listed::new(ProcNo { no: 0 }, kinds))
}

/// Able, waiting, and able again.
#[test]
fn goes_through_its_states(rt: HostRuntime) -> Result<(), Fail> {
    let seat = Seat::begin(caller(rt.alloc())?);
    let Seat::Able(able) = seat else {
        return Err("not able")?;
    };
    let Stepped::Moved { seat, letter, .. } = able.step(rt.alloc()) else {
        return Err("no memory")?;
    };
    let letter = letter.ok_or("no letter")?;
    let Seat::Waiting(waiting) = seat else {
        return Err("not waiting")?;
    };
    let set = waiting.set();
    if set != 1 || letter.chan != 0 {
        return Err("another channel")?;
    }
    let (seat, kind) = waiting.give(letter);
    assert_eq!(rt;
        kind,
        Kind::Accepted {
            set: 1,
            id: letter.id
        }
    );
    assert_eq!(rt; seat.process().count(), 2);
    Ok(())
}

/// A copy, through the trait.
fn copied<P: Proc>(process: &P, alloc: Global) -> Result<P, WantOfMemory> {
    process.copy(alloc)
}

/// A copy shows what the process shows.
#[test]
fn copies(rt: HostRuntime) -> Result<(), Fail> {
    let actor = caller(rt.alloc())?;
    let copy = copied(&actor, rt.alloc())?;
    assert_eq!(rt; copy.look(), Look::Able);
    assert_eq!(rt; copy.count(), 0);
    assert_eq!(rt; copy.me(), actor.me());
    Ok(())
}
