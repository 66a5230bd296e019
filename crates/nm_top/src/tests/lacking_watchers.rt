//! A watcher that lacks memory is out, and the replay goes on.

ghost use Rattle.std.specs.Prelude.{◌≡◌, false};
ghost use Rattle.watchers.specs.Watched.{Watched};
ghost use Rattle.watchers.specs.Any.{any_watched};

use super::programs::TWO_LETTERS;
use crate::{Status, racetrace};
use event_list::Event;
use nm_base::WantOfMemory;
use nm_outside::{ListSink, ListSource, MemCabinet};
use std::alloc::{AllocError, Global};
use std::test::Fail;
use watchers::{AnyWatcher, FaultStop, KindCount, LetterLog, Note, Watcher};

/// A watcher that lacks memory after so many events.
#[derive(Drop)]
struct Lacking {
    watcher: AnyWatcher,
    left: u32,
}

impl Watcher for Lacking {
    ghost watched = { λ w. record {
      kind = record {
        noted = (any_watched w.watcher).kind.noted;
        stops = (any_watched w.watcher).kind.stops;
        said = (any_watched w.watcher).kind.said;
        steady = false;
      };
      notes = (any_watched w.watcher).notes;
    } };

    fn see(&mut self, alloc: Global, e: &Event) -> Result<(), WantOfMemory> {
        if self.left == 0 {
            return Err(WantOfMemory);
        }
        self.left -= 1;
        self.watcher.see(alloc, e)
    }

    fn stop(&self) -> bool {
        self.watcher.stop()
    }

    fn line(&self) -> Note {
        self.watcher.line()
    }
}

const RECORDED: &str = "== process 0 ended 0, 10 events, 4 bytes
1
2
== process 1 ended 0, 6 events, 0 bytes
== process 2 ended 0, 6 events, 0 bytes
== events 22, sent 2, accepted 2, waiting 0
== turns 31, idle 9
== watch 0: lines 13 sent 2 accepted 2 printed 2 ended 3 faulted 0
== watch 1: faults 0
";

fn string(alloc: Global, text: &str) -> Result<String, AllocError> {
    String::from_str(alloc, text)
}

fn words(alloc: Global, texts: &[&str]) -> Result<Vec<String>, AllocError> {
    let mut words = Vec::new(alloc);
    for text in texts {
        words.push(string(alloc, text)?)?;
    }
    Ok(words)
}

fn file(alloc: Global, name: &str, text: &str) -> Result<(String, Vec<u8>), AllocError> {
    Ok((
        string(alloc, name)?,
        Vec::from_slice(alloc, text.as_bytes())?,
    ))
}

/// Two of the three watchers note all; the one between them lacks memory at its third event.
fn three(alloc: Global) -> Result<Vec<Lacking>, Fail> {
    let mut watch = Vec::new(alloc);
    watch.push(Lacking {
        watcher: AnyWatcher::Kinds(KindCount::new()),
        left: 100,
    })?;
    watch.push(Lacking {
        watcher: AnyWatcher::Letters(LetterLog::new(alloc)?),
        left: 2,
    })?;
    watch.push(Lacking {
        watcher: AnyWatcher::Faults(FaultStop::new()),
        left: 100,
    })?;
    Ok(watch)
}

#[test]
fn a_watcher_that_lacks_memory_is_out(rt: HostRuntime) -> Result<(), Fail> {
    let alloc = rt.alloc();
    let mut given = Vec::new(alloc);
    given.push(file(alloc, "G", TWO_LETTERS)?)?;
    given.push(file(alloc, "S", "1*6 2*6 0*10")?)?;
    let mut files = MemCabinet::new(alloc, given, 200, Vec::new(alloc))?;
    let mut input = ListSource::new(Vec::new(alloc), 1, Vec::new(alloc));
    let mut out = ListSink::new(alloc, 1_000, Vec::new(alloc))?;
    let mut none: Vec<AnyWatcher> = Vec::new(alloc);
    let record = words(alloc, &["record", "G", "3", "S", "T"])?;
    let status = racetrace(alloc, &record, &mut files, &mut input, &mut out, &mut none);
    assert_eq!(&rt; status, Status::Done);
    let mut watch = three(alloc)?;
    let mut out = ListSink::new(alloc, 1_000, Vec::new(alloc))?;
    let replay = words(alloc, &["replay", "G", "T"])?;
    let status = racetrace(alloc, &replay, &mut files, &mut input, &mut out, &mut watch);
    assert_eq!(&rt; status, Status::Done);
    assert_eq!(&rt; out.bytes(), RECORDED.as_bytes());
    assert_eq!(&rt; watch.len(), 2);
    Ok(())
}
