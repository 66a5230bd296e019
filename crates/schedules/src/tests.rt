//! Schedules from texts and from a seed.

ghost use Rattle.std.specs.Prelude.{◌<◌, ◌≤◌, length};

use crate::{ScheduleFault, Turn, generated, read_schedule};
use nm_base::ProcNo;
use std::alloc::Global;
use std::test::Fail;

/// The number of turns that the text gives n processes.
fn turns_of(alloc: Global, text: &[u8], n: u8) -> Result<u32, ScheduleFault>
    requires some { 0 < n }
    requires few { n ≤ 32 }
    requires size { length text.now ≤ 4194304 }
{
    match read_schedule(alloc, text, n) {
        Ok(schedule) => Ok(schedule.turns()),
        Err(fault) => Err(fault),
    }
}

/// Each kind of word, and each refusal with the place of its word.
#[test]
fn reads_texts(rt: HostRuntime) -> Result<(), Fail> {
    let alloc = rt.alloc();
    assert_eq!(rt; turns_of(alloc, b"1*6 2*6\t0*10\r\n", 3), Ok(22));
    assert_eq!(rt; turns_of(alloc, b"", 1), Ok(0));
    assert_eq!(rt; turns_of(alloc, b"0*1000000", 1), Ok(1000000));
    assert_eq!(rt;
        turns_of(alloc, b"0*1000001", 1),
        Err(ScheduleFault::TooMany { place: 0 })
    );
    assert_eq!(rt;
        turns_of(alloc, b"0 1", 1),
        Err(ScheduleFault::NoProcess { place: 2 })
    );
    assert_eq!(rt;
        turns_of(alloc, b"0 x", 1),
        Err(ScheduleFault::BadWord { place: 2 })
    );
    assert_eq!(rt; turns_of(alloc, b"31", 32), Ok(1));
    Ok(())
}

/// The turns of a text, and the first turn of a seed.
#[test]
fn gives_turns(rt: HostRuntime) -> Result<(), Fail> {
    let schedule = read_schedule(rt.alloc(), b"1*2 0/9", 2)?;
    for (i, proc, pick) in [(0, 1, 0), (1, 1, 0), (2, 0, 9)] {
        let proc = ProcNo { no: proc };
        if i < schedule.turns() {
            assert_eq!(rt; schedule.turn(i), Turn { proc, pick });
        }
    }
    assert_eq!(rt; schedule.turns(), 3);
    let schedule = generated(rt.alloc(), 7, 4, 1)?;
    if schedule.turns() > 0 {
        let proc = ProcNo { no: 0 };
        assert_eq!(rt; schedule.turn(0), Turn { proc, pick: 189 });
    }
    Ok(())
}

/// What is displayed for each refusal.
#[test]
fn displays_refusals(rt: HostRuntime) -> Result<(), Fail> {
    let rows: [(ScheduleFault, &str); 4] = [
        (
            ScheduleFault::BadWord { place: 0 },
            "at 0: not a word of a schedule",
        ),
        (
            ScheduleFault::NoProcess { place: 12 },
            "at 12: no such process",
        ),
        (
            ScheduleFault::TooMany { place: 4194303 },
            "at 4194303: more than 1000000 turns",
        ),
        (ScheduleFault::Memory, "out of memory"),
    ];
    for (fault, text) in rows {
        assert_eq!(rt; format!(in rt.alloc(); "{fault}")?.as_str(), text);
    }
    Ok(())
}
