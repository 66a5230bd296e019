//! A few events, told to lists of the three watchers and of one that lacks memory.

ghost use Rattle.std.specs.Prelude.{◌+◌, ◌<◌, [], ◌∷◌, false, slice_index};
ghost use Rattle.watchers.specs.Lines.{IsLine};
ghost use Rattle.watchers.specs.Watched.{WatcherKind};

use crate::note::{Note, empty};
use crate::{AnyWatcher, FaultStop, KindCount, LetterLog, Watcher, detach, tell};
use event_list::Event;
use nm_base::{FaultCause, Kind, LetterId, ProcNo, WantOfMemory};
use std::alloc::Global;
use std::test::Fail;

/// Notes events as long as there are fewer than two, and then lacks memory.
#[derive(Drop)]
struct NotesTwo {
    seen: u32,
}

impl Watcher for NotesTwo {
    ghost watched = { λ w. record {
      kind = record {
        noted = λ notes e. (slice_index notes 0 + 1) ∷ [];
        stops = λ notes. false;
        said = λ notes. [];
        steady = false;
      };
      notes = w.seen ∷ [];
    } };

    fn see(&mut self, _alloc: Global, _e: &Event) -> Result<(), WantOfMemory> {
        if self.seen == 2 {
            return Err(WantOfMemory);
        }
        if self.seen < 2 {
            self.seen += 1;
            return Ok(());
        }
        Err(WantOfMemory)
    }

    fn stop(&self) -> bool {
        false
    }

    fn line(&self) -> Note {
        empty()
    }
}

fn event(kind: Kind) -> Event {
    Event {
        proc: ProcNo { no: 1 },
        number: 1,
        kind,
    }
}

fn accepted(number: u32) -> Kind {
    Kind::Accepted {
        set: 1,
        id: LetterId {
            sender: ProcNo { no: 2 },
            number,
        },
    }
}

fn sent() -> Kind {
    Kind::Sent {
        number: 0,
        dest: ProcNo { no: 0 },
        chan: 0,
        len: 1,
        words: [7, 0, 0, 0, 0, 0, 0, 0],
    }
}

fn faulted() -> Kind {
    Kind::Faulted {
        cause: FaultCause::DivideByZero,
    }
}

/// Whether the k-th watcher says this.
fn says(list: &Vec<AnyWatcher>, k: usize, text: &[u8]) -> bool {
    match list.get(k) {
        Some(w) => {
            let note = w.line();
            note.text() == text
        }
        None => false,
    }
}

/// Whether the k-th watcher stops.
fn stops(list: &Vec<AnyWatcher>, k: usize) -> bool {
    match list.get(k) {
        Some(w) => w.stop(),
        None => false,
    }
}

/// Each watcher notes what it is for.
#[test]
fn notes_events(rt: HostRuntime) -> Result<(), Fail> {
    let alloc = rt.alloc();
    let mut list = Vec::new(alloc);
    list.push(AnyWatcher::Kinds(KindCount::new()))?;
    list.push(AnyWatcher::Letters(LetterLog::new(alloc)?))?;
    list.push(AnyWatcher::Faults(FaultStop::new()))?;
    for (kind, stop) in [
        (Kind::Line { line: 3 }, false),
        (accepted(0), false),
        (faulted(), true),
        (sent(), false),
        (accepted(1), false),
        (Kind::Printed { bytes: 4 }, false),
        (Kind::Ended { value: -1 }, false),
        (faulted(), true),
    ] {
        assert_eq!(rt; tell(alloc, &mut list, &event(kind)), 0);
        assert_eq!(rt; stops(&list, 2), stop);
    }
    assert!(rt;
        says(
            &list,
            0,
            b"lines 1 sent 1 accepted 2 printed 1 ended 1 faulted 2"
        )
    );
    assert!(rt; says(&list, 1, b"letters 2"));
    assert!(rt; says(&list, 2, b"faults 2"));
    Ok(())
}

/// Those that lack memory are dropped, and the others stay in their order.
#[test]
fn drops_those_that_lack_memory(rt: HostRuntime) -> Result<(), Fail> {
    let alloc = rt.alloc();
    let mut list = Vec::new(alloc);
    for seen in [0, 2, 1, 2] {
        list.push(NotesTwo { seen })?;
    }
    for (dropped, left, first) in [(2, 2, 1), (1, 1, 2), (1, 0, 0), (0, 0, 0)] {
        assert_eq!(rt; tell(alloc, &mut list, &event(sent())), dropped);
        assert_eq!(rt; list.len(), left);
        assert_eq!(rt; list.get(0).map_or(0, |w| w.seen), first);
    }
    Ok(())
}

/// The k-th watcher is dropped, where there is one.
#[test]
fn detaches_the_kth(rt: HostRuntime) -> Result<(), Fail> {
    let alloc = rt.alloc();
    let mut list = Vec::new(alloc);
    list.push(AnyWatcher::Faults(FaultStop::new()))?;
    list.push(AnyWatcher::Letters(LetterLog::new(alloc)?))?;
    assert_eq!(rt; tell(alloc, &mut list, &event(faulted())), 0);
    for (k, detached, left) in [
        (2, false, 2),
        (1, true, 1),
        (1, false, 1),
        (0, true, 0),
        (0, false, 0),
    ] {
        assert_eq!(rt; detach(&mut list, k), detached);
        assert_eq!(rt; list.len(), left);
        assert_eq!(rt; says(&list, 0, b"faults 1"), left > 0);
    }
    Ok(())
}
