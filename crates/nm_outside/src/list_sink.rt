//! A sink in memory.

ghost use Rattle.std.specs.Prelude.{◌≡◌, ◌≤◌, ◌++◌, [], Some, IfOk, OnOk, OnErr, is_err, vec_capacity};
ghost use Rattle.std.specs.Option.{is_some};
ghost use Rattle.std.specs.Io.KnownBytes.{Appends};
ghost use Rattle.nm_outside.specs.Causes.{BelongsTo};
ghost use Rattle.nm_outside.specs.Files.{AppendsPart};
ghost use Rattle.nm_outside.specs.Failing.{failing_put, next_number, part_of};

use crate::cabinet::Failed;
use crate::room::extend;
use crate::sink::Sink;
use nm_base::WantOfMemory;
use std::alloc::Global;

/// The nth put fails and keeps `kept` bytes, at most the piece.
#[derive(Clone, Copy, Debug, PartialEq, Eq)]
pub struct SinkFail {
    pub nth: u32,
    pub kept: u32,
}

/// Keeps the bytes, up to its room.
#[derive(Drop)]
pub struct ListSink {
    bytes: Vec<u8>,
    room: u32,
    fails: Vec<SinkFail>,
    puts: u64,
    faults: u64,

    // The room needs no more memory.
    ghost has_room: { room ≤ vec_capacity bytes },
}

impl ListSink {
    ghost use Rattle.nm_outside.specs.Held.{bytes_of, sink_room, sink_fails, puts_of};

    /// Takes the memory for the room. Of two entries of one number the first counts.
    pub fn new(alloc: Global, room: u32, fails: Vec<SinkFail>) -> Result<ListSink, WantOfMemory>
        ensures bytes { IfOk result (λ s. bytes_of s ≡ []) }
        ensures room { IfOk result (λ s. sink_room s ≡ room) }
        ensures fails { IfOk result (λ s. sink_fails s ≡ fails.items) }
        ensures puts { IfOk result (λ s. puts_of s ≡ 0) }
    {
        Ok(ListSink {
            bytes: Vec::with_capacity(alloc, room as usize)?,
            room,
            fails,
            puts: 0,
            faults: 0,
        })
    }

    /// The bytes so far.
    pub fn bytes(&self) -> &[u8]
        ensures { result.now ≡ bytes_of self.now }
    {
        &self.bytes
    }
}

// The bytes that the nth put keeps, where it is to fail.
fn failing(fails: &[SinkFail], nth: u64) -> Option<u32>
    ensures { result ≡ failing_put fails.now nth }
{
    for fail in fails {
        if u64::from(fail.nth) == nth {
            return Some(fail.kept);
        }
    }
    None
}

impl Sink for ListSink {
    ghost use Rattle.nm_outside.specs.Held.{bytes_of, sink_room, sink_fails, puts_of, next_kept};

    ghost given = { λ s. Some (bytes_of s) };

    ghost faults = { λ s. s.faults };

    /// Fails exactly where the piece is past the room or this put is to fail.
    fn put(&mut self, piece: &[u8]) -> Result<(), Failed>
        ensures ok { OnOk result (Appends (Some (bytes_of self.old)) (Some (bytes_of self.new)) piece.now) }
        ensures err { OnErr result (AppendsPart (Some (bytes_of self.old)) (Some (bytes_of self.new)) piece.now) }
        ensures cause { BelongsTo (is_err result) self.old.faults self.new.faults }

        // Which put fails, and what it keeps.
        ensures fails { is_err result ≡ is_some (next_kept self.old piece.now) }
        ensures kept { bytes_of self.new ≡ bytes_of self.old ++ part_of piece.now (next_kept self.old piece.now) }
        ensures puts { puts_of self.new ≡ next_number (puts_of self.old) }
        ensures same_room { sink_room self.new ≡ sink_room self.old }
        ensures same_fails { sink_fails self.new ≡ sink_fails self.old }
    {
        self.puts = self.puts.saturating_add(1);
        let failing = failing(&self.fails, self.puts);
        let result = extend(&mut self.bytes, self.room, piece, failing);
        if result.is_err() {
            self.faults = self.faults.saturating_add(1);
        }
        result
    }
}
