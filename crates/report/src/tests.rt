//! The texts, through a sink in memory.

use crate::{
    Notice, Refusal, Spot, at_line, block, broke_line, certificate, certificates_line,
    cleared_line, clock_line, detached_line, event_line, frame_line, notice_line, output_text,
    refusal, set_line, soak_line, stopped_line, summary, trace_line, turns_line, upgraded_line,
    value_line, waiting_line, watch_line, watched_line, watcher_line, where_line,
};
use cut_witness::{Witness, WitnessTurn};
use event_list::Event;
use nm_base::{Ctype, FaultCause, Kind, Letter, LetterId, List, ProcNo, Stamp};
use nm_outside::{ListSink, SinkFail};
use processes::Look;
use std::alloc::Global;
use std::process::Abort;
use std::test::Fail;

fn sink(alloc: Global) -> Result<ListSink, Fail> {
    Ok(ListSink::new(alloc, 1000, Vec::new(alloc))?)
}

/// Process 1 after 6 events with this look and output.
fn shows(
    rt: &impl Abort,
    alloc: Global,
    look: Look,
    output: &[u8],
    text: &str,
) -> Result<(), Fail> {
    let mut out = sink(alloc)?;
    assert!(rt; block(&mut out, 1, look, 7, 6, output).is_ok());
    assert_eq!(rt; out.bytes(), text.as_bytes());
    Ok(())
}

#[test]
fn blocks(rt: HostRuntime) -> Result<(), Fail> {
    let alloc = rt.alloc();
    let faulted = Look::Faulted {
        cause: FaultCause::DivideByZero,
    };
    let table = [
        (
            Look::Able,
            "a\n",
            "== process 1 able, 6 events, 2 bytes\na\n",
        ),
        (
            Look::Waiting { set: 0x1f00_00a0 },
            "",
            "== process 1 waiting 0x1f0000a0, 6 events, 0 bytes\n",
        ),
        (
            Look::Ended { value: -2147483648 },
            "hi",
            "== process 1 ended -2147483648, 6 events, 2 bytes\nhi\n",
        ),
        (
            faulted,
            "\n",
            "== process 1 faulted DivideByZero at line 7, 6 events, 1 bytes\n\n",
        ),
    ];
    for (look, output, text) in table {
        shows(&rt, alloc, look, output.as_bytes(), text)?;
    }
    Ok(())
}

#[test]
fn lines(rt: HostRuntime) -> Result<(), Fail> {
    let alloc = rt.alloc();
    let table = [
        (Refusal::Usage, "usage\n"),
        (Refusal::Absent { name: "G" }, "absent: G\n"),
        (Refusal::ReadFault { name: "G" }, "read fault: G\n"),
        (Refusal::InputFault, "read fault: input\n"),
        (Refusal::TooLong { name: "G" }, "too long: G\n"),
        (
            Refusal::ProgramRefused {
                kind: "Syntax",
                line: 3,
            },
            "program refused: Syntax at line 3\n",
        ),
        (
            Refusal::ScheduleRefused {
                kind: "BadWord",
                place: 0,
            },
            "schedule refused: BadWord at 0\n",
        ),
        (
            Refusal::TraceDamaged {
                kind: "Digest",
                place: 62,
            },
            "trace damaged: Digest at 62\n",
        ),
        (
            Refusal::OtherProgram {
                of_trace: [0xa9; 32],
                of_file: [15; 32],
            },
            "other program: a9a9a9a9a9a9a9a9a9a9a9a9a9a9a9a9a9a9a9a9a9a9a9a9a9a9a9a9a9a9a9a9 \
             0f0f0f0f0f0f0f0f0f0f0f0f0f0f0f0f0f0f0f0f0f0f0f0f0f0f0f0f0f0f0f0f\n",
        ),
        (
            Refusal::Stuck {
                n: 2,
                events: [3; 32],
                counts: [4; 32],
            },
            "stuck: 3/4 3/4\n",
        ),
        (
            Refusal::Stopped { turns: 17 },
            "stopped: want of memory after 17 turns\n",
        ),
        (
            Refusal::NotItsTrace {
                letter: letter(1, 0),
            },
            "not its trace: letter 1.0\n",
        ),
        (Refusal::InputFull, "input full\n"),
    ];
    for (refused, text) in table {
        let mut out = sink(alloc)?;
        assert!(rt; refusal(&mut out, &refused).is_ok());
        assert_eq!(rt; out.bytes(), text.as_bytes());
    }
    let mut out = sink(alloc)?;
    assert!(rt; summary(&mut out, 14, 2, 2, 0).is_ok());
    assert_eq!(rt;
        out.bytes(),
        b"== events 14, sent 2, accepted 2, waiting 0\n".as_slice()
    );
    Ok(())
}

fn letter(sender: u8, number: u32) -> LetterId {
    LetterId {
        sender: ProcNo { no: sender },
        number,
    }
}

#[test]
fn lines_of_traces(rt: HostRuntime) -> Result<(), Fail> {
    let alloc = rt.alloc();
    let mut out = sink(alloc)?;
    assert!(rt; trace_line(&mut out, 1, 0, 94).is_ok());
    assert!(rt; turns_line(&mut out, 31, 9).is_ok());
    assert!(rt; stopped_line(&mut out, 200).is_ok());
    assert!(rt; upgraded_line(&mut out, 1, 2, 98).is_ok());
    assert!(rt; soak_line(&mut out, 4294967295, 4, 200000).is_ok());
    assert!(rt; certificates_line(&mut out, 1).is_ok());
    assert!(rt; watched_line(&mut out, 0, b"letters 2").is_ok());
    assert_eq!(rt;
        out.bytes(),
        b"== trace notes 1, lost 0, bytes 94\n\
        == turns 31, idle 9\n\
        stopped: want of memory after 200 turns\n\
        upgraded: notes 1, lost 2, bytes 98\n\
        soak 4294967295: N 4, turns 200000\n\
        == certificates 1\n\
        == watch 0: letters 2\n"
            .as_slice()
    );
    Ok(())
}

/// Turns of these processes, and last one of process 0 that accepts letter 2.0.
fn turns_to(alloc: Global, processes: &[u8]) -> Result<List<WitnessTurn>, Fail> {
    let mut turns = Vec::new(alloc);
    for no in processes {
        turns.push(WitnessTurn {
            proc: ProcNo { no: *no },
            took: None,
        })?;
    }
    turns.push(WitnessTurn {
        proc: ProcNo { no: 0 },
        took: Some(letter(2, 0)),
    })?;
    Ok(List::from_vec(turns))
}

#[test]
fn certificates(rt: HostRuntime) -> Result<(), Fail> {
    let alloc = rt.alloc();
    let table = [
        (
            Some(1),
            "== letter 2.0 to 0 on 0, receive 1\n\
            earlier receive 0, event 4, set 0x00000001\n\
            turns 0 1 2 0 1 2 0 1 2 1 2 0<2.0\n",
        ),
        (
            None,
            "== letter 2.0 to 0 on 0, lost\n\
            earlier receive 0, event 4, set 0x00000001\n\
            turns 0 1 2 0 1 2 0 1 2 1 2 0<2.0\n",
        ),
    ];
    for (received, text) in table {
        let w = Witness {
            id: letter(2, 0),
            dest: ProcNo { no: 0 },
            chan: 0,
            received,
            earlier_receive: 0,
            earlier_event: 4,
            set: 1,
            turns: turns_to(alloc, &[0, 1, 2, 0, 1, 2, 0, 1, 2, 1, 2])?,
        };
        let mut out = sink(alloc)?;
        assert!(rt; certificate(&mut out, &w).is_ok());
        assert_eq!(rt; out.bytes(), text.as_bytes());
    }
    Ok(())
}

/// Event 4 of process 1.
fn event(kind: Kind) -> Event {
    Event {
        proc: ProcNo { no: 1 },
        number: 4,
        kind,
    }
}

#[test]
fn events(rt: HostRuntime) -> Result<(), Fail> {
    let alloc = rt.alloc();
    let sent = Kind::Sent {
        number: 0,
        dest: ProcNo { no: 2 },
        chan: 31,
        len: 1,
        words: [0; 8],
    };
    let accepted = Kind::Accepted {
        set: 0xa0,
        id: letter(2, 7),
    };
    let faulted = Kind::Faulted {
        cause: FaultCause::Index,
    };
    let table = [
        (Kind::Line { line: 12 }, "1.4 line 12\n"),
        (sent, "1.4 sent 1.0 to 2 on 31\n"),
        (accepted, "1.4 accepted 2.7 set 0x000000a0\n"),
        (Kind::Printed { bytes: 3 }, "1.4 printed 3\n"),
        (Kind::Ended { value: -1 }, "1.4 ended -1\n"),
        (faulted, "1.4 faulted Index\n"),
    ];
    for (kind, text) in table {
        let mut out = sink(alloc)?;
        assert!(rt; event_line(&mut out, &event(kind)).is_ok());
        assert_eq!(rt; out.bytes(), text.as_bytes());
    }
    Ok(())
}

#[test]
fn stops(rt: HostRuntime) -> Result<(), Fail> {
    let alloc = rt.alloc();
    let mut out = sink(alloc)?;
    let last = event(Kind::Line { line: 12 });
    assert!(rt; set_line(&mut out, 0, 1, Spot::Line { line: 12 }).is_ok());
    assert!(rt; set_line(&mut out, 15, 2, Spot::Receive).is_ok());
    assert!(rt; broke_line(&mut out, 0, &last).is_ok());
    assert!(rt; watcher_line(&mut out, 2, &last).is_ok());
    assert!(rt; cleared_line(&mut out, 0).is_ok());
    assert!(rt; at_line(&mut out, 600).is_ok());
    assert!(rt; watch_line(&mut out, 0, b"faults 1").is_ok());
    assert!(rt; detached_line(&mut out, 0).is_ok());
    assert!(rt; notice_line(&mut out, Notice::IdleLetter).is_ok());
    assert!(rt; notice_line(&mut out, Notice::Unknown).is_ok());
    assert_eq!(rt;
        out.bytes(),
        b"break 0: process 1 line 12\n\
        break 15: process 2 recv\n\
        break 0 at 1.4 line 12\n\
        watcher 2 at 1.4 line 12\n\
        cleared 0\n\
        at 600 events\n\
        watch 0: faults 1\n\
        detached 0\n\
        idle letter\n\
        ?\n"
            .as_slice()
    );
    Ok(())
}

#[test]
fn looks(rt: HostRuntime) -> Result<(), Fail> {
    let alloc = rt.alloc();
    let mut out = sink(alloc)?;
    let faulted = Look::Faulted {
        cause: FaultCause::Index,
    };
    assert!(rt; where_line(&mut out, 0, faulted, 9, 5, 6).is_ok());
    assert!(rt; where_line(&mut out, 1, Look::Waiting { set: 3 }, 4, 0, 2).is_ok());
    assert!(rt; frame_line(&mut out, 1, b"main", 3).is_ok());
    assert!(rt; value_line(&mut out, b"x", None, u32::MAX, Ctype::Int).is_ok());
    assert!(rt; value_line(&mut out, b"a", Some(2), u32::MAX, Ctype::Unsigned).is_ok());
    assert!(rt; output_text(&mut out, b"hi").is_ok());
    assert!(rt; output_text(&mut out, b"").is_ok());
    assert_eq!(rt;
        out.bytes(),
        b"process 0 faulted Index line 9, 5 of 6 events\n\
        process 1 waiting 0x00000003 line 4, 0 of 2 events\n\
        #1 main line 3\n\
        x = -1\n\
        a[2] = 4294967295\n\
        2 bytes\n\
        hi\n\
        0 bytes\n"
            .as_slice()
    );
    Ok(())
}

#[test]
fn letters(rt: HostRuntime) -> Result<(), Fail> {
    let alloc = rt.alloc();
    let mut stamp = Stamp { parts: [0; 32] };
    stamp.parts[1] = 4;
    stamp.parts[2] = 7;
    let mut words = [0; 8];
    words[0] = 5;
    words[1] = u32::MAX;
    let waits = Letter {
        id: letter(1, 0),
        dest: ProcNo { no: 0 },
        chan: 31,
        len: 2,
        words,
        posted: 0,
        stamp,
    };
    let mut out = sink(alloc)?;
    assert!(rt; waiting_line(&mut out, 3, &waits).is_ok());
    assert!(rt; clock_line(&mut out, 1, 2, &stamp).is_ok());
    assert_eq!(rt;
        out.bytes(),
        b"1.0 on 31: 5 -1 @ 0 4 7\nclock 1: 0 4\n".as_slice()
    );
    Ok(())
}

/// A sink that fails in the middle of a block keeps what it was given.
#[test]
fn keeps_a_part(rt: HostRuntime) -> Result<(), Fail> {
    let alloc = rt.alloc();
    let fails = vec![in alloc; SinkFail { nth: 7, kept: 3 }]?;
    let mut out = ListSink::new(alloc, 1000, fails)?;
    assert!(rt; block(&mut out, 12, Look::Able, 1, 0, b"").is_err());
    assert_eq!(rt; out.bytes(), b"== process 12 able, 0 ev".as_slice());
    Ok(())
}
