//! The objects in memory with each failing call, and the real ones.

use crate::disk::first_bytes;
use crate::fault_count::FaultCount;
use crate::{
    BeginFault, Cabinet, CabinetCall, CabinetFail, DiskCabinet, Failed, Fetched, ListSink,
    ListSource, MemCabinet, ReaderSource, Sink, SinkFail, Source, WriterSink,
};
use std::alloc::Global;
use std::fs;
use std::io::{self, Error, ErrorKind, Read, Write};
use std::test::Fail;

// The bytes that a cabinet fetches, or a word for why there are none.
fn fetched<C: Cabinet>(
    alloc: Global,
    files: &mut C,
    name: &str,
    limit: u32,
) -> Result<String, Fail> {
    Ok(match files.fetch(alloc, name, limit) {
        Fetched::Bytes(bytes) => String::from_utf8_lossy(alloc, &bytes)?,
        Fetched::Absent => String::from_str(alloc, "absent")?,
        Fetched::Failed => String::from_str(alloc, "failed")?,
        Fetched::Memory => String::from_str(alloc, "memory")?,
    })
}

// A cabinet with a file A of five bytes, room for six, and these failing calls.
fn cabinet(alloc: Global, fails: &[CabinetFail]) -> Result<MemCabinet, Fail> {
    let mut held = Vec::new(alloc);
    held.push((
        String::from_str(alloc, "A")?,
        Vec::from_slice(alloc, b"first")?,
    ))?;
    held.push((
        String::from_str(alloc, "A")?,
        Vec::from_slice(alloc, b"second")?,
    ))?;
    Ok(MemCabinet::new(alloc, held, 6, Vec::from_slice(alloc, fails)?)?)
}

fn fail(call: CabinetCall, nth: u32, kept: u32) -> CabinetFail {
    CabinetFail { call, nth, kept }
}

#[test]
fn memory_files(rt: HostRuntime) -> Result<(), Fail> {
    let alloc = rt.alloc();
    let mut files = cabinet(alloc, &[])?;
    assert_eq!(rt; fetched(alloc, &mut files, "A", 5)?.as_str(), "first");
    assert_eq!(rt; fetched(alloc, &mut files, "A", 2)?.as_str(), "fir");
    assert_eq!(rt; fetched(alloc, &mut files, "B", 5)?.as_str(), "absent");
    assert_eq!(rt; files.begin(alloc, "B"), Ok(()));
    assert_eq!(rt; files.append(b"abcd"), Ok(()));
    assert_eq!(rt; files.append(b"efg"), Err(Failed), "past the room");
    assert_eq!(rt; files.append(b"ef"), Ok(()));
    assert_eq!(rt; files.close(), Ok(()));
    assert!(rt; files.file("B") == Some(b"abcdef".as_slice()));
    assert_eq!(rt; files.begin(alloc, "A"), Ok(()));
    assert!(rt; files.file("A") == Some(b"".as_slice()));
    assert!(rt; files.file("C").is_none());
    Ok(())
}

#[test]
fn failing_fetch_and_begin(rt: HostRuntime) -> Result<(), Fail> {
    let alloc = rt.alloc();
    let fails = [
        fail(CabinetCall::Fetch, 2, 0),
        fail(CabinetCall::Begin, 1, 0),
    ];
    let mut files = cabinet(alloc, &fails)?;
    assert_eq!(rt; fetched(alloc, &mut files, "A", 9)?.as_str(), "first");
    assert_eq!(rt; fetched(alloc, &mut files, "A", 9)?.as_str(), "failed");
    assert_eq!(rt; fetched(alloc, &mut files, "A", 9)?.as_str(), "first");
    assert_eq!(rt; files.begin(alloc, "B"), Err(BeginFault::Failed));
    assert!(rt; files.file("B").is_none());
    assert_eq!(rt; files.begin(alloc, "B"), Ok(()));
    Ok(())
}

#[test]
fn failing_append(rt: HostRuntime) -> Result<(), Fail> {
    let alloc = rt.alloc();
    let fails = [
        fail(CabinetCall::Append, 2, 1),
        fail(CabinetCall::Append, 2, 9),
        fail(CabinetCall::Append, 3, 9),
    ];
    let mut files = cabinet(alloc, &fails)?;
    assert_eq!(rt; files.begin(alloc, "B"), Ok(()));
    assert_eq!(rt; files.append(b"ab"), Ok(()));
    assert_eq!(rt; files.append(b"cd"), Err(Failed), "the first entry counts");
    assert_eq!(rt; files.append(b"de"), Err(Failed));
    assert!(rt; files.file("B") == Some(b"abcde".as_slice()));
    Ok(())
}

#[test]
fn failing_close(rt: HostRuntime) -> Result<(), Fail> {
    let alloc = rt.alloc();
    let mut files = cabinet(alloc, &[fail(CabinetCall::Close, 1, 0)])?;
    assert_eq!(rt; files.begin(alloc, "B"), Ok(()));
    assert_eq!(rt; files.close(), Err(Failed));
    assert!(rt; files.file("B") == Some(b"".as_slice()));
    Ok(())
}

#[test]
fn memory_sink(rt: HostRuntime) -> Result<(), Fail> {
    let alloc = rt.alloc();
    let fails = vec![in alloc; SinkFail { nth: 2, kept: 1 }, SinkFail { nth: 3, kept: 9 }]?;
    let mut out = ListSink::new(alloc, 6, fails)?;
    let told = [
        put(&mut out, b"ab"),
        put(&mut out, b"cd"),
        put(&mut out, b"ef"),
        put(&mut out, b"gh"),
        put(&mut out, b"g"),
    ];
    assert!(rt; told == [Ok(()), Err(Failed), Err(Failed), Err(Failed), Ok(())]);
    assert!(rt; out.bytes() == b"abcefg".as_slice());
    Ok(())
}

fn put<O: Sink>(out: &mut O, piece: &[u8]) -> Result<(), Failed> {
    out.put(piece)
}

// More bytes than one piece of a read takes.
fn many_bytes(alloc: Global) -> Result<Vec<u8>, Fail> {
    let mut bytes = Vec::new(alloc);
    for i in 0..200_000u32 {
        bytes.push((i % 251) as u8)?;
    }
    Ok(bytes)
}

// Whether these bytes were fetched.
fn is_fetched(fetched: &Fetched, bytes: &[u8]) -> bool {
    match fetched {
        Fetched::Bytes(found) => found.as_slice() == bytes,
        _ => false,
    }
}

// Gives its bytes in short pieces. The nth read fails, and no read where n is 0.
#[derive(Drop)]
struct Pieces<'a> {
    rest: &'a [u8],
    piece: usize,
    nth: u32,
}

impl Read for Pieces<'_> {
    fn read(&mut self, buf: &mut [u8]) -> io::Result<usize> {
        if self.nth == 1 {
            return Err(Error::from(ErrorKind::Other));
        }
        self.nth = self.nth.saturating_sub(1);
        let count = self.rest.len().min(self.piece).min(buf.len());
        let (given, rest) = self.rest.split_at(count);
        buf.split_at_mut(count).0.copy_from_slice(given);
        self.rest = rest;
        Ok(count)
    }
}

#[test]
fn short_reads(rt: HostRuntime) -> Result<(), Fail> {
    let alloc = rt.alloc();
    let bytes = many_bytes(alloc)?;
    let table = [
        (1_000, 300_000, 200_000),
        (70_000, 149_999, 150_000),
        (7, 9, 10),
        (300_000, 199_999, 200_000),
    ];
    for (piece, limit, count) in table {
        let mut reader = Pieces {
            rest: &bytes,
            piece,
            nth: 0,
        };
        let fetched = first_bytes(alloc, &mut FaultCount::new(), &mut reader, limit);
        assert!(rt;
            is_fetched(&fetched, bytes.split_at(bytes.len().min(count)).0),
            "pieces of {piece}"
        );
    }
    for nth in [1, 2, 4] {
        let mut reader = Pieces {
            rest: &bytes,
            piece: 60_000,
            nth,
        };
        let fetched = first_bytes(alloc, &mut FaultCount::new(), &mut reader, 300_000);
        assert!(rt; matches!(fetched, Fetched::Failed), "read {nth}");
    }
    Ok(())
}

// What a take into a buffer of four bytes gives.
fn taken<I: Source>(alloc: Global, input: &mut I) -> Result<String, Fail> {
    let mut buf = [0; 4];
    Ok(match input.take(&mut buf) {
        Ok(count) => String::from_utf8_lossy(alloc, buf.split_at(count).0)?,
        Err(Failed) => String::from_str(alloc, "failed")?,
    })
}

#[test]
fn memory_source(rt: HostRuntime) -> Result<(), Fail> {
    let alloc = rt.alloc();
    let bytes = Vec::from_slice(alloc, b"abcdefghijk")?;
    let mut input = ListSource::new(bytes, 5, vec![in alloc; 2, 2, 4]?);
    for answer in ["abcd", "failed", "efgh", "failed", "ijk", "", ""] {
        assert_eq!(rt; taken(alloc, &mut input)?.as_str(), answer);
    }
    let bytes = Vec::from_slice(alloc, b"abcd")?;
    let mut input = ListSource::new(bytes, 3, Vec::new(alloc));
    for answer in ["abc", "d", ""] {
        assert_eq!(rt; taken(alloc, &mut input)?.as_str(), answer);
    }
    Ok(())
}

#[test]
fn real_source(rt: HostRuntime) -> Result<(), Fail> {
    let alloc = rt.alloc();
    let reader = Pieces {
        rest: b"abcdefg",
        piece: 3,
        nth: 3,
    };
    let mut input = ReaderSource::new(reader);
    for answer in ["abc", "def", "failed"] {
        assert_eq!(rt; taken(alloc, &mut input)?.as_str(), answer);
    }
    let mut whole = ReaderSource::new(b"abcdefg".as_slice());
    for answer in ["abcd", "efg", "", ""] {
        assert_eq!(rt; taken(alloc, &mut whole)?.as_str(), answer);
    }
    Ok(())
}

#[test]
fn real_files(rt: HostRuntime) -> Result<(), Fail> {
    let alloc = rt.alloc();
    let name = "nm_outside_test.tmp";
    let mut files = DiskCabinet::new(&rt);
    assert_eq!(rt; files.begin(alloc, name), Ok(()));
    assert_eq!(rt; files.append(b"some "), Ok(()));
    assert_eq!(rt; files.append(b"bytes"), Ok(()));
    assert_eq!(rt; files.close(), Ok(()));
    for (name, limit, answer) in [
        (name, 100, "some bytes"),
        (name, 3, "some"),
        (".", 3, "failed"),
        ("nm_outside_test.tmp/x", 3, "failed"),
    ] {
        assert_eq!(rt;
            fetched(alloc, &mut files, name, limit)?.as_str(),
            answer,
            "{name}"
        );
    }
    assert_eq!(rt; files.begin(alloc, "."), Err(BeginFault::Failed));
    fs::remove_file(&rt, name)?;
    assert_eq!(rt; fetched(alloc, &mut files, name, 100)?.as_str(), "absent");
    Ok(())
}

#[test]
fn real_file_of_several_pieces(rt: HostRuntime) -> Result<(), Fail> {
    let alloc = rt.alloc();
    let bytes = many_bytes(alloc)?;
    let name = "nm_outside_large.tmp";
    let mut files = DiskCabinet::new(&rt);
    assert_eq!(rt; files.begin(alloc, name), Ok(()));
    assert_eq!(rt; files.append(&bytes), Ok(()));
    assert_eq!(rt; files.close(), Ok(()));
    assert!(rt; is_fetched(&files.fetch(alloc, name, 300_000), &bytes));
    assert!(rt;
        is_fetched(
            &files.fetch(alloc, name, 149_999),
            bytes.split_at(bytes.len().min(150_000)).0
        )
    );
    fs::remove_file(&rt, name)?;
    Ok(())
}

#[test]
fn real_file_left_open(rt: HostRuntime) -> Result<(), Fail> {
    let alloc = rt.alloc();
    let (first, second) = ("nm_outside_first.tmp", "nm_outside_second.tmp");
    let mut files = DiskCabinet::new(&rt);
    assert_eq!(rt; files.begin(alloc, first), Ok(()));
    assert_eq!(rt; files.append(b"one"), Ok(()));
    assert_eq!(rt; files.begin(alloc, second), Ok(()));
    assert_eq!(rt; files.append(b"two"), Ok(()));
    assert_eq!(rt; files.close(), Ok(()));
    assert_eq!(rt; fetched(alloc, &mut files, first, 9)?.as_str(), "one");
    assert_eq!(rt; fetched(alloc, &mut files, second, 9)?.as_str(), "two");
    fs::remove_file(&rt, first)?;
    fs::remove_file(&rt, second)?;
    Ok(())
}

#[test]
fn long_names(rt: HostRuntime) -> Result<(), Fail> {
    let alloc = rt.alloc();
    let mut files = DiskCabinet::new(&rt);
    let mut path = String::new(alloc);
    let mut unknown = String::new(alloc);
    for _ in 0..300 {
        path.push_str("./")?;
        unknown.push_str("x")?;
    }
    path.push_str("nm_outside_path.tmp")?;
    assert_eq!(rt; files.begin(alloc, &path), Ok(()));
    assert_eq!(rt; files.append(b"long"), Ok(()));
    assert_eq!(rt; files.close(), Ok(()));
    assert_eq!(rt; fetched(alloc, &mut files, &path, 9)?.as_str(), "long");
    fs::remove_file(&rt, "nm_outside_path.tmp")?;
    assert_eq!(rt; fetched(alloc, &mut files, &path, 9)?.as_str(), "absent");
    assert_eq!(rt; fetched(alloc, &mut files, &unknown, 9)?.as_str(), "failed");
    assert_eq!(rt; files.begin(alloc, &unknown), Err(BeginFault::Failed));
    Ok(())
}

// A writer that takes so many bytes in all, two at a time.
#[derive(Drop)]
struct Narrow {
    left: usize,
}

impl Write for Narrow {
    fn write(&mut self, buf: &[u8]) -> io::Result<usize> {
        let count = buf.len().min(self.left).min(2);
        self.left -= count;
        Ok(count)
    }

    fn flush(&mut self) -> io::Result<()> {
        Ok(())
    }
}

#[test]
fn real_writer(rt: HostRuntime) -> Result<(), Fail> {
    let alloc = rt.alloc();
    let mut bytes: Vec<u8> = Vec::new(alloc);
    {
        let mut out = WriterSink::new(&mut bytes);
        assert_eq!(rt; put(&mut out, b"ab"), Ok(()));
        assert_eq!(rt; put(&mut out, b""), Ok(()));
        assert_eq!(rt; put(&mut out, b"c"), Ok(()));
    }
    assert!(rt; bytes.as_slice() == b"abc".as_slice());
    let mut narrow = WriterSink::new(Narrow { left: 3 });
    assert_eq!(rt; put(&mut narrow, b"abc"), Ok(()));
    assert_eq!(rt; put(&mut narrow, b"d"), Err(Failed), "no byte was taken");
    Ok(())
}

#[test]
fn large_piece(rt: HostRuntime) -> Result<(), Fail> {
    let alloc = rt.alloc();
    let piece = many_bytes(alloc)?;
    let mut bytes: Vec<u8> = Vec::new(alloc);
    assert_eq!(rt; put(&mut WriterSink::new(&mut bytes), &piece), Ok(()));
    assert!(rt; bytes.as_slice() == piece.as_slice());
    let mut narrow = WriterSink::new(Narrow { left: piece.len() });
    assert_eq!(rt; put(&mut narrow, &piece), Ok(()));
    Ok(())
}
