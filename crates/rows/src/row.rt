//! A row, and how it is carried out.

use crate::fault::Fault;
use crate::setup::{MAX_WATCHERS, Setup};
use crate::shown::shown;
use nm_outside::{ListSink, MemCabinet};
use nm_top::{Status, racetrace};
use std::alloc::Global;

/// What a file holds after a call, or that there is none.
#[derive(Drop)]
pub struct Left {
    pub name: String,
    pub bytes: Option<Vec<u8>>,
}

/// The words of a call, and what is wanted of it. Where a status or a printed text isn't said, the row differs.
#[derive(Drop)]
pub struct Call {
    pub words: String,
    pub status: Option<Status>,
    pub printed: Option<Vec<u8>>,
    pub left: Vec<Left>,
}

/// Calls, one after another over the same files.
#[derive(Drop)]
pub struct Row {
    /// The number of its line.
    pub line: usize,
    pub title: String,
    pub setup: Setup,
    pub calls: Vec<Call>,
}

impl Row {
    /// What differs, in one line, or nothing.
    pub fn differences(&self, alloc: Global) -> Result<String, Fault> {
        let setup = self.setup.copy(alloc)?;
        let mut files = MemCabinet::new(alloc, setup.files, setup.room, setup.cabinet_fails)?;
        let mut told = String::new(alloc);
        for call in self.calls.as_slice() {
            let fails = Vec::from_slice(alloc, &setup.sink_fails)?;
            let mut out = ListSink::new(alloc, setup.sink_room, fails)?;
            let words = call.separate_words(alloc)?;
            let mut watching = self.setup.watching(alloc)?;
            if watching.len() > MAX_WATCHERS {
                return Err(Fault::Place);
            }
            let mut input = self.setup.source(alloc)?;
            let status = racetrace(
                alloc,
                &words,
                &mut files,
                &mut input,
                &mut out,
                &mut watching,
            );
            call.compare_status(status, &mut told)?;
            call.compare_printed(alloc, out.bytes(), &mut told)?;
            call.compare_files(alloc, &files, &mut told)?;
        }
        Ok(told)
    }
}

impl Call {
    fn separate_words(&self, alloc: Global) -> Result<Vec<String>, Fault> {
        let mut words = Vec::new(alloc);
        for word in self.words.as_str().split_whitespace() {
            words.push(String::from_str(alloc, word)?)?;
        }
        Ok(words)
    }

    fn compare_status(&self, came: Status, told: &mut String) -> Result<(), Fault> {
        if self.status != Some(came) {
            let wanted = self.status;
            let words = self.words.as_str();
            write!(told, "; {words}: ends {wanted:?} was wanted, {came:?} came")?;
        }
        Ok(())
    }

    fn compare_printed(&self, alloc: Global, came: &[u8], told: &mut String) -> Result<(), Fault> {
        let wanted = self.printed.as_ref().map(|bytes| bytes.as_slice());
        if wanted != Some(came) {
            let wanted = shown(alloc, wanted)?;
            let came = shown(alloc, Some(came))?;
            let words = self.words.as_str();
            write!(told, "; {words}: prints {wanted} was wanted, {came} came")?;
        }
        Ok(())
    }

    fn compare_files(
        &self,
        alloc: Global,
        files: &MemCabinet,
        told: &mut String,
    ) -> Result<(), Fault> {
        for left in self.left.as_slice() {
            let name = left.name.as_str();
            let wanted = left.bytes.as_ref().map(|bytes| bytes.as_slice());
            let came = files.file(name);
            if wanted != came {
                let wanted = shown(alloc, wanted)?;
                let came = shown(alloc, came)?;
                let words = self.words.as_str();
                write!(
                    told,
                    "; {words}: leaves {name} with {wanted} was wanted, {came} came"
                )?;
            }
        }
        Ok(())
    }
}
