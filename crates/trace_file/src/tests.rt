ghost use Rattle.std.specs.Prelude.{◌≡◌};

use super::*;
use nm_base::{AcceptNote, LetterId, MAX_TRACE_BYTES, ProcNo};
use nm_outside::{Cabinet, CabinetCall, CabinetFail, MemCabinet};
use sha2::{Digest, Sha256};
use std::alloc::{AllocError, Global};
use std::test::*;

const PROGRAM: [u8; 32] = [7; 32];

const HEADER: [u8; 6] = [0x4e, 0x4d, 0x54, 0x52, 1, 3];

const NOTE: [u8; 11] = [1, 0, 0, 0, 0, 1, 2, 0, 0, 0, 0];

const COUNTS: [u8; 13] = [3, 0, 0, 0, 10, 0, 0, 0, 6, 0, 0, 0, 6];

// The file with these items behind its header, and the right digest.
fn file(alloc: Global, header: &[u8], items: &[u8], counts: &[u8]) -> Result<Vec<u8>, AllocError> {
    let mut bytes = Vec::from_slice(alloc, header)?;
    bytes.extend_from_slice(&PROGRAM)?;
    bytes.extend_from_slice(items)?;
    bytes.extend_from_slice(counts)?;
    let digest = Sha256::digest(bytes.as_slice());
    bytes.extend_from_slice(&digest)?;
    Ok(bytes)
}

fn damage_of(alloc: Global, bytes: &[u8]) -> Option<(DamageKind, u32)> {
    if bytes.len() > MAX_TRACE_BYTES as usize {
        return None;
    }
    match decode(alloc, bytes) {
        Err(TraceFault::Damage { kind, place }) => Some((kind, place)),
        _ => None,
    }
}

fn first(bytes: &[u8], count: usize) -> &[u8] {
    &bytes[..count.min(bytes.len())]
}

fn process(no: u8) -> ProcNo
    ensures { result.no ≡ no }
{
    ProcNo { no }
}

fn letter(sender: u8, number: u32) -> LetterId
    ensures { result.sender.no ≡ sender }
{
    LetterId {
        sender: process(sender),
        number,
    }
}

#[test]
fn a_trace_is_read(rt: HostRuntime) -> Result<(), Fail> {
    let bytes = file(rt.alloc(), &HEADER, &NOTE, &COUNTS)?;
    assert_eq!(rt; bytes.len(), 94);
    let trace = decode(rt.alloc(), &bytes).ok().ok_or("it is a trace")?;
    assert_eq!(rt; trace.version(), 1);
    assert_eq!(rt; trace.mask(), 0);
    let n = trace.n();
    assert!(rt; n == 3);
    assert_eq!(rt; trace.digest(), &PROGRAM);
    assert_eq!(rt; trace.lost().len(), 0);
    assert_eq!(rt; trace.count(process(0)), 10);
    assert_eq!(rt; trace.count(process(2)), 6);
    let note = AcceptNote {
        receiver: process(0),
        receive: 1,
        id: letter(2, 0),
    };
    assert_eq!(rt; trace.notes(), [note].as_slice());
    Ok(())
}

#[test]
fn a_mask_is_read(rt: HostRuntime) -> Result<(), Fail> {
    let items = [0, 0, 1, 2, 2, 2, 0, 0, 0, 0];
    let bytes = file(rt.alloc(), &[0x4e, 0x4d, 0x54, 0x52, 2, 3], &items, &COUNTS)?;
    assert_eq!(rt; bytes.len(), 93);
    let trace = decode(rt.alloc(), &bytes).ok().ok_or("it is a trace")?;
    assert_eq!(rt; trace.mask(), 258);
    assert_eq!(rt; trace.lost(), [letter(2, 0)].as_slice());
    Ok(())
}

#[test]
fn damage_is_named(rt: HostRuntime) -> Result<(), Fail> {
    let alloc = rt.alloc();
    let t1 = file(alloc, &HEADER, &NOTE, &COUNTS)?;
    for count in 0..94u32 {
        let short = damage_of(alloc, first(&t1, count as usize));
        assert_eq!(rt; short, Some((DamageKind::Short, count)));
    }
    let mut longer = Vec::from_slice(alloc, &t1)?;
    longer.push(0)?;
    assert_eq!(rt; damage_of(alloc, &longer), Some((DamageKind::Trailing, 94)));
    let mut other = Vec::from_slice(alloc, &t1)?;
    assert_eq!(rt; other.len(), 94);
    other[61] = 7;
    assert_eq!(rt; damage_of(alloc, &other), Some((DamageKind::Digest, 62)));
    other[4] = 9;
    assert_eq!(rt; damage_of(alloc, &other), Some((DamageKind::Version, 4)));
    other[0] = 9;
    assert_eq!(rt; damage_of(alloc, &other), Some((DamageKind::Magic, 0)));
    Ok(())
}

#[test]
fn kinds_have_names(rt: HostRuntime) {
    let table = [
        (DamageKind::Short, "Short"),
        (DamageKind::Magic, "Magic"),
        (DamageKind::Version, "Version"),
        (DamageKind::Count, "Count"),
        (DamageKind::Tag, "Tag"),
        (DamageKind::Process, "Process"),
        (DamageKind::Order, "Order"),
        (DamageKind::Repeat, "Repeat"),
        (DamageKind::Digest, "Digest"),
        (DamageKind::Trailing, "Trailing"),
    ];
    for (kind, name) in table {
        assert_eq!(rt; kind.name(), name);
    }
}

#[test]
fn false_traces_are_named(rt: HostRuntime) -> Result<(), Fail> {
    let alloc = rt.alloc();
    let twice = [
        1, 0, 0, 0, 0, 0, 1, 0, 0, 0, 0, 1, 0, 0, 0, 0, 1, 1, 0, 0, 0, 0,
    ];
    let level = [
        1, 0, 0, 0, 0, 1, 2, 0, 0, 0, 0, 1, 0, 0, 0, 0, 1, 1, 0, 0, 0, 0,
    ];
    let after_lost = [2, 1, 0, 0, 0, 0, 1, 0, 0, 0, 0, 1, 2, 0, 0, 0, 0];
    let stranger = [1, 0, 0, 0, 0, 0, 3, 0, 0, 0, 0];
    let many = [3, 0, 0xf, 0x42, 0x40, 0, 0, 0, 1, 0, 0, 0, 0];
    let repeated = file(alloc, &HEADER, &twice, &COUNTS)?;
    assert_eq!(rt; damage_of(alloc, &repeated), Some((DamageKind::Repeat, 49)));
    let disordered = file(alloc, &HEADER, &level, &COUNTS)?;
    assert_eq!(rt;
        damage_of(alloc, &disordered),
        Some((DamageKind::Order, 49))
    );
    let late = file(alloc, &HEADER, &after_lost, &COUNTS)?;
    assert_eq!(rt; damage_of(alloc, &late), Some((DamageKind::Order, 44)));
    let strange = file(alloc, &HEADER, &stranger, &COUNTS)?;
    assert_eq!(rt; damage_of(alloc, &strange), Some((DamageKind::Process, 38)));
    let tagged = file(alloc, &HEADER, &[4], &COUNTS)?;
    assert_eq!(rt; damage_of(alloc, &tagged), Some((DamageKind::Tag, 38)));
    let counted = file(alloc, &HEADER, &[], &many)?;
    assert_eq!(rt; damage_of(alloc, &counted), Some((DamageKind::Count, 38)));
    let empty = file(alloc, &[0x4e, 0x4d, 0x54, 0x52, 1, 0], &[], &COUNTS)?;
    assert_eq!(rt; damage_of(alloc, &empty), Some((DamageKind::Count, 5)));
    Ok(())
}

// Writes the trace of one note, as far as the cabinet goes.
fn record(alloc: Global, files: &mut MemCabinet) -> bool {
    let Ok(mut writer) = TraceWriter::begin(alloc, files, "t", 1, 0, 3, &PROGRAM) else {
        return false;
    };
    let note = AcceptNote {
        receiver: process(0),
        receive: 1,
        id: letter(2, 0),
    };
    if writer.note(files, note).is_err() {
        return false;
    }
    writer.close(files, &[10, 6, 6]).is_ok()
}

#[test]
fn what_was_written_is_read(rt: HostRuntime) -> Result<(), Fail> {
    let alloc = rt.alloc();
    let mut files = MemCabinet::new(alloc, Vec::new(alloc), 100, Vec::new(alloc))
        .ok()
        .ok_or("memory")?;
    assert!(rt; record(alloc, &mut files));
    let written = files.file("t").ok_or("it was written")?;
    let t1 = file(alloc, &HEADER, &NOTE, &COUNTS)?;
    assert_eq!(rt; written, t1.as_slice());
    Ok(())
}

// Writes a trace of version 2 with one lost letter, as far as the cabinet goes, and gives the number of its bytes.
fn record_lost(alloc: Global, files: &mut MemCabinet) -> Option<u32> {
    let Ok(mut writer) = TraceWriter::begin(alloc, files, "t", 2, 258, 3, &PROGRAM) else {
        return None;
    };
    if writer.lost(files, letter(2, 0)).is_err() {
        return None;
    }
    writer.close(files, &[10, 6, 6]).ok()
}

#[test]
fn a_lost_letter_is_written(rt: HostRuntime) -> Result<(), Fail> {
    let alloc = rt.alloc();
    let mut files = MemCabinet::new(alloc, Vec::new(alloc), 100, Vec::new(alloc))
        .ok()
        .ok_or("memory")?;
    assert_eq!(rt; record_lost(alloc, &mut files), Some(93));
    let written = files.file("t").ok_or("it was written")?;
    let items = [0, 0, 1, 2, 2, 2, 0, 0, 0, 0];
    let bytes = file(alloc, &[0x4e, 0x4d, 0x54, 0x52, 2, 3], &items, &COUNTS)?;
    assert_eq!(rt; written, bytes.as_slice());
    Ok(())
}

#[test]
fn a_failed_call_leaves_a_front(rt: HostRuntime) -> Result<(), Fail> {
    let alloc = rt.alloc();
    let t1 = file(alloc, &HEADER, &NOTE, &COUNTS)?;
    let table = [
        (CabinetCall::Append, 1, 0, 0),
        (CabinetCall::Append, 2, 11, 49),
        (CabinetCall::Append, 3, 5, 54),
        (CabinetCall::Close, 1, 0, 94),
    ];
    for (call, nth, kept, left) in table {
        let fails = vec![in alloc; CabinetFail { call, nth, kept }]?;
        let mut files = MemCabinet::new(alloc, Vec::new(alloc), 100, fails)
            .ok()
            .ok_or("memory")?;
        assert!(rt; !record(alloc, &mut files));
        let written = files.file("t").ok_or("it was begun")?;
        assert_eq!(rt; written, first(&t1, left));
    }
    Ok(())
}
