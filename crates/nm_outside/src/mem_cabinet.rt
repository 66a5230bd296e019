//! A cabinet in memory.

ghost use Rattle.std.specs.Prelude.{◌≡◌, ◌≢◌, ◌+◌, ◌≤◌, ◌++◌, Bool, [], Some, None, true, false, IsTrue, IsSome, IsOk, IsOkAnd, OnOk, OnErr, is_err, length, vec_capacity, if◌then◌else◌};
ghost use Rattle.std.specs.Option.{is_some};
ghost use Rattle.std.specs.FinMap.{get};
ghost use Rattle.nm_outside.specs.Begun.{has_failed};
ghost use Rattle.nm_outside.specs.Causes.{BelongsTo};
ghost use Rattle.nm_outside.specs.Fetched.{Tells, IsWithin, is_absent, is_failed};
ghost use Rattle.nm_outside.specs.Files.{emptied, extended, ExtendsPart, HasRoom};
ghost use Rattle.nm_outside.specs.InMemory.{file_of, files_of, first_name, first_room};
ghost use Rattle.nm_outside.specs.Failing.{failing_call, next_number, is_call, part_of};

use crate::cabinet::{BeginFault, Cabinet, Failed, Fetched};
use crate::room::extend;
use nm_base::WantOfMemory;
use std::alloc::Global;

/// The calls of a cabinet.
#[derive(Clone, Copy, Debug, PartialEq, Eq)]
pub enum CabinetCall {
    Fetch,
    Begin,
    Append,
    Close,
}

/// The nth call of that kind fails. A failing append keeps `kept` bytes, at most the piece.
#[derive(Clone, Copy, Debug, PartialEq, Eq)]
pub struct CabinetFail {
    pub call: CabinetCall,
    pub nth: u32,
    pub kept: u32,
}

/// How many calls of each kind there were.
#[derive(Clone, Copy, Debug, PartialEq, Eq)]
pub struct Calls {
    pub fetches: u64,
    pub begins: u64,
    pub appends: u64,
    pub closes: u64,
}

/// Keeps files under their names. Of two files of one name the first counts.
#[derive(Drop)]
pub struct MemCabinet {
    // The open file comes first. A file that is begun anew hides the old one.
    files: Vec<(String, Vec<u8>)>,
    is_open: bool,
    room: u32,
    fails: Vec<CabinetFail>,
    calls: Calls,
    read_faults: u64,
    write_faults: u64,
    absents: u64,

    // The open file has its room.
    ghost has_room: { (if is_open then room + 1 else 0) ≤ first_room files.items },
}

impl MemCabinet {
    ghost use Rattle.nm_outside.specs.Held.{held_by, room_of, room_in, fails_of, calls_of};

    /// Holds these files. Each file that is begun may have `room` bytes, for which `begin` takes the
    /// memory. Of two entries for one call the first counts.
    pub fn new(
        _alloc: Global,
        files: Vec<(String, Vec<u8>)>,
        room: u32,
        fails: Vec<CabinetFail>,
    ) -> Result<MemCabinet, WantOfMemory>
        ensures files { IsOkAnd result (λ c. held_by c ≡ files_of files.items) }
        ensures room { IsOkAnd result (λ c. room_in c ≡ room) }
        ensures fails { IsOkAnd result (λ c. fails_of c ≡ fails.items) }
        ensures calls { IsOkAnd result (λ c. calls_of c ≡ record { fetches = 0; begins = 0; appends = 0; closes = 0 }) }
        ensures sure { length fails.items ≡ 0 → IsOkAnd result (λ c. room_of c ≡ Some room) }
    {
        Ok(MemCabinet {
            files,
            is_open: false,
            room,
            fails,
            calls: Calls {
                fetches: 0,
                begins: 0,
                appends: 0,
                closes: 0,
            },
            read_faults: 0,
            write_faults: 0,
            absents: 0,
        })
    }

    /// The file's bytes.
    pub fn file(&self, name: &str) -> Option<&[u8]>
        ensures { file_of result ≡ get (held_by self.now) name.now }
    {
        find(&self.files, name)
    }
}

// The bytes of the first file of that name.
fn find<'a>(files: &'a [(String, Vec<u8>)], name: &str) -> Option<&'a [u8]>
    ensures { file_of result ≡ get (files_of files.now) name.now }
{
    for file in files {
        if name == file.0.as_str() {
            return Some(&file.1);
        }
    }
    None
}

// Whether two calls are of one kind.
fn is_call(one: CabinetCall, other: CabinetCall) -> bool
    ensures { result ≡ is_call one other }
{
    match (one, other) {
        (CabinetCall::Fetch, CabinetCall::Fetch) => true,
        (CabinetCall::Begin, CabinetCall::Begin) => true,
        (CabinetCall::Append, CabinetCall::Append) => true,
        (CabinetCall::Close, CabinetCall::Close) => true,
        _ => false,
    }
}

// The bytes that the nth call of that kind keeps, where it is to fail.
fn failing(fails: &[CabinetFail], call: CabinetCall, nth: u64) -> Option<u32>
    ensures named { result ≡ failing_call fails.now call nth }
    ensures none { length fails.now ≡ 0 → result ≡ None }
{
    for fail in fails {
        if is_call(fail.call, call) && u64::from(fail.nth) == nth {
            return Some(fail.kept);
        }
    }
    None
}

impl Cabinet for MemCabinet {
    ghost use Rattle.nm_outside.specs.Held.{held_by, room_of, room_in, fails_of, calls_of, next_failing, next_part};

    ghost files = { λ c. Some (held_by c) };

    ghost is_open = { λ c. c.is_open };

    ghost open_name = { λ c. first_name c.files.items };

    ghost sure_room = { λ c. room_of c };

    ghost read_faults = { λ c. c.read_faults };

    ghost write_faults = { λ c. c.write_faults };

    ghost absents = { λ c. c.absents };

    /// Fails exactly where this fetch is to fail.
    fn fetch(&mut self, alloc: Global, name: &str, limit: u32) -> Fetched
        ensures answer { Tells (get (held_by self.old) name.now) limit result }
        ensures bound { IsWithin (limit + 1) result }
        ensures absent { BelongsTo (is_absent result) self.old.absents self.new.absents }
        ensures failed { BelongsTo (is_failed result) self.old.read_faults self.new.read_faults }
        ensures files { self.new.files ≡ self.old.files }
        ensures is_open { self.new.is_open ≡ self.old.is_open }
        ensures write_faults { self.new.write_faults ≡ self.old.write_faults }

        // Which fetch fails.
        ensures fails { is_failed result ≡ is_some (next_failing self.old CabinetCall.Fetch) }
        ensures calls { calls_of self.new
            ≡ record (calls_of self.old) { fetches = next_number (calls_of self.old).fetches } }
        ensures same_room { room_in self.new ≡ room_in self.old }
        ensures same_fails { fails_of self.new ≡ fails_of self.old }
    {
        self.calls.fetches = self.calls.fetches.saturating_add(1);
        if failing(&self.fails, CabinetCall::Fetch, self.calls.fetches).is_some() {
            self.read_faults = self.read_faults.saturating_add(1);
            return Fetched::Failed;
        }
        let Some(bytes) = find(&self.files, name) else {
            self.absents = self.absents.saturating_add(1);
            return Fetched::Absent;
        };
        let part = &bytes[..bytes.len().min(limit as usize + 1)];
        match Vec::from_slice(alloc, part) {
            Ok(copy) => Fetched::Bytes(copy),
            Err(_) => Fetched::Memory,
        }
    }

    /// Fails exactly where this begin is to fail.
    fn begin(&mut self, alloc: Global, name: &str) -> Result<(), BeginFault>
        ensures ok { OnOk result (Some (held_by self.new) ≡ emptied (Some (held_by self.old)) name.now) }
        ensures opened { OnOk result (IsTrue self.new.is_open) }
        ensures name { OnOk result (first_name self.new.files.items ≡ name.now) }
        ensures err { OnErr result (held_by self.new ≡ held_by self.old) }
        ensures err_open { OnErr result (self.new.is_open ≡ self.old.is_open) }
        ensures err_name { OnErr result (first_name self.new.files.items ≡ first_name self.old.files.items) }
        ensures failed { BelongsTo (has_failed result) self.old.write_faults self.new.write_faults }
        ensures sure { IsSome (room_of self.old) → has_failed result ≡ false }
        ensures read_faults { self.new.read_faults ≡ self.old.read_faults }
        ensures absents { self.new.absents ≡ self.old.absents }

        // Which begin fails.
        ensures fails { has_failed result ≡ is_some (next_failing self.old CabinetCall.Begin) }
        ensures calls { calls_of self.new
            ≡ record (calls_of self.old) { begins = next_number (calls_of self.old).begins } }
        ensures same_room { room_in self.new ≡ room_in self.old }
        ensures same_fails { fails_of self.new ≡ fails_of self.old }
    {
        self.calls.begins = self.calls.begins.saturating_add(1);
        if failing(&self.fails, CabinetCall::Begin, self.calls.begins).is_some() {
            self.write_faults = self.write_faults.saturating_add(1);
            return Err(BeginFault::Failed);
        }
        let Ok(name) = String::from_str(alloc, name) else {
            return Err(BeginFault::Memory);
        };
        let Ok(bytes) = Vec::with_capacity(alloc, self.room as usize) else {
            return Err(BeginFault::Memory);
        };
        if self.files.insert(0, (name, bytes)).is_err() {
            return Err(BeginFault::Memory);
        }
        self.is_open = true;
        Ok(())
    }

    /// Fails exactly where the piece is past the room or this append is to fail.
    fn append(&mut self, piece: &[u8]) -> Result<(), Failed>
        requires { IsTrue self.old.is_open }
        ensures ok { OnOk result (Some (held_by self.new)
            ≡ extended (Some (held_by self.old)) (first_name self.old.files.items) piece.now) }
        ensures err { OnErr result (ExtendsPart (Some (held_by self.old)) (first_name self.old.files.items) piece.now
            (Some (held_by self.new))) }
        ensures failed { BelongsTo (is_err result) self.old.write_faults self.new.write_faults }
        ensures sure { HasRoom (room_of self.old) (get (held_by self.old) (first_name self.old.files.items)) piece.now
            → IsOk result }
        ensures is_open { self.new.is_open ≡ self.old.is_open }
        ensures open_name { first_name self.new.files.items ≡ first_name self.old.files.items }
        ensures read_faults { self.new.read_faults ≡ self.old.read_faults }
        ensures absents { self.new.absents ≡ self.old.absents }

        // Which append fails, and what it keeps.
        ensures fails { is_err result ≡ is_some (next_part self.old piece.now) }
        ensures kept { Some (held_by self.new)
            ≡ extended (Some (held_by self.old)) (first_name self.old.files.items)
            (part_of piece.now (next_part self.old piece.now)) }
        ensures calls { calls_of self.new
            ≡ record (calls_of self.old) { appends = next_number (calls_of self.old).appends } }
        ensures same_room { room_in self.new ≡ room_in self.old }
        ensures same_fails { fails_of self.new ≡ fails_of self.old }
    {
        self.calls.appends = self.calls.appends.saturating_add(1);
        let kept = failing(&self.fails, CabinetCall::Append, self.calls.appends);
        let result = extend(&mut self.files[0].1, self.room, piece, kept);
        if result.is_err() {
            self.write_faults = self.write_faults.saturating_add(1);
        }
        result
    }

    /// Fails exactly where this close is to fail.
    fn close(&mut self) -> Result<(), Failed>
        requires { IsTrue self.old.is_open }
        ensures closed { self.new.is_open ≡ false }
        ensures failed { BelongsTo (is_err result) self.old.write_faults self.new.write_faults }
        ensures sure { IsSome (room_of self.old) → IsOk result }
        ensures files { self.new.files ≡ self.old.files }
        ensures read_faults { self.new.read_faults ≡ self.old.read_faults }
        ensures absents { self.new.absents ≡ self.old.absents }

        // Which close fails.
        ensures fails { is_err result ≡ is_some (next_failing self.old CabinetCall.Close) }
        ensures calls { calls_of self.new
            ≡ record (calls_of self.old) { closes = next_number (calls_of self.old).closes } }
        ensures same_room { room_in self.new ≡ room_in self.old }
        ensures same_fails { fails_of self.new ≡ fails_of self.old }
    {
        self.calls.closes = self.calls.closes.saturating_add(1);
        self.is_open = false;
        if failing(&self.fails, CabinetCall::Close, self.calls.closes).is_some() {
            self.write_faults = self.write_faults.saturating_add(1);
            return Err(Failed);
        }
        Ok(())
    }
}
