//! What a row begins with.

use crate::fault::Fault;
use crate::line::Fail;
use nm_outside::{CabinetFail, ListSource, SinkFail};
use std::alloc::Global;
use watchers::{AnyWatcher, FaultStop, KindCount, LetterLog};

/// The room of a sink of which the table says nothing: for the longest output of a process.
const SINK_ROOM: u32 = 1_100_000;

/// How many watchers a row may have.
pub const MAX_WATCHERS: usize = 100;

/// The kinds of watchers.
#[derive(Clone, Copy, Debug, PartialEq, Eq)]
pub enum WatcherName {
    KindCount,
    FaultStop,
    LetterLog,
}

impl WatcherName {
    fn make(self, alloc: Global) -> Result<AnyWatcher, Fault> {
        Ok(match self {
            WatcherName::KindCount => AnyWatcher::Kinds(KindCount::new()),
            WatcherName::FaultStop => AnyWatcher::Faults(FaultStop::new()),
            WatcherName::LetterLog => AnyWatcher::Letters(LetterLog::new(alloc)?),
        })
    }
}

/// The files before the first call, how much room there is, what fails, and what watches.
#[derive(Drop)]
pub struct Setup {
    /// No two of one name.
    pub files: Vec<(String, Vec<u8>)>,
    /// For a file that a call writes.
    pub room: u32,
    /// For what a call prints.
    pub sink_room: u32,
    pub cabinet_fails: Vec<CabinetFail>,
    pub sink_fails: Vec<SinkFail>,
    /// What a debugger takes, for each call anew.
    pub input: Vec<u8>,
    /// At most so many bytes of it at once.
    pub piece: u32,
    pub take_fails: Vec<u32>,
    /// Made anew for each call, in this order.
    pub watchers: Vec<WatcherName>,
}

impl Setup {
    /// No file and no room for one, nothing fails, and nothing watches.
    pub fn new(alloc: Global) -> Setup {
        Setup {
            files: Vec::new(alloc),
            room: 0,
            sink_room: SINK_ROOM,
            cabinet_fails: Vec::new(alloc),
            sink_fails: Vec::new(alloc),
            input: Vec::new(alloc),
            piece: u32::MAX,
            take_fails: Vec::new(alloc),
            watchers: Vec::new(alloc),
        }
    }

    pub fn copy(&self, alloc: Global) -> Result<Setup, Fault> {
        let mut files = Vec::new(alloc);
        for file in self.files.as_slice() {
            let name = String::from_str(alloc, file.0.as_str())?;
            files.push((name, Vec::from_slice(alloc, &file.1)?))?;
        }
        Ok(Setup {
            files,
            room: self.room,
            sink_room: self.sink_room,
            cabinet_fails: Vec::from_slice(alloc, &self.cabinet_fails)?,
            sink_fails: Vec::from_slice(alloc, &self.sink_fails)?,
            input: Vec::from_slice(alloc, &self.input)?,
            piece: self.piece,
            take_fails: Vec::from_slice(alloc, &self.take_fails)?,
            watchers: Vec::from_slice(alloc, &self.watchers)?,
        })
    }

    /// Puts the file to the others, in the place of one of its name.
    pub fn hold(&mut self, name: String, bytes: Vec<u8>) -> Result<(), Fault> {
        self.files.retain(|file| file.0.as_str() != name.as_str());
        self.files.push((name, bytes))?;
        Ok(())
    }

    pub fn watch(&mut self, watcher: WatcherName) -> Result<(), Fault> {
        if self.watchers.len() >= MAX_WATCHERS {
            return Err(Fault::Place);
        }
        self.watchers.push(watcher)?;
        Ok(())
    }

    /// The input of a call.
    pub fn source(&self, alloc: Global) -> Result<ListSource, Fault> {
        if self.piece == 0 {
            return Err(Fault::Number);
        }
        let input = Vec::from_slice(alloc, &self.input)?;
        let fails = Vec::from_slice(alloc, &self.take_fails)?;
        Ok(ListSource::new(input, self.piece, fails))
    }

    /// The watchers of a call, told of nothing.
    pub fn watching(&self, alloc: Global) -> Result<Vec<AnyWatcher>, Fault> {
        let mut watching = Vec::new(alloc);
        for watcher in self.watchers.as_slice() {
            watching.push(watcher.make(alloc)?)?;
        }
        Ok(watching)
    }

    pub fn fail(&mut self, fail: Fail) -> Result<(), Fault> {
        match fail {
            Fail::Cabinet(fail) => self.cabinet_fails.push(fail)?,
            Fail::Sink(fail) => self.sink_fails.push(fail)?,
            Fail::Source(nth) => self.take_fails.push(nth)?,
        }
        Ok(())
    }
}
