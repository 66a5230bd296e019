//! Recordings into a cabinet in memory, of processes that go through lists of events.

ghost use Rattle.std.specs.Prelude.{◌≡◌, ℕ, [], ◌∷◌, true, length, map, slice_get, Some, IfOk};
ghost use Rattle.nm_base.specs.Scripts.{Script};
ghost use Rattle.processes.specs.declared.listed.Listed.{Listed};
ghost use Rattle.processes.specs.Listed.{are_proper, listed};
ghost use Rattle.processes.specs.Seats.{process_in};
ghost use Rattle.world.specs.Worlds.{AreNumbered};

use crate::{RecordFault, Recorded, record_run};
use mailboxes::ListMail;
use nm_base::{Kind, LetterId, ProcNo, WantOfMemory};
use nm_outside::{Cabinet, CabinetCall, CabinetFail, Fetched, MemCabinet};
use processes::{Listed, Proc, Seat};
use schedules::read_schedule;
use std::alloc::Global;
use std::test::Fail;

fn send() -> Kind
    ensures { result ≡ Kind.Sent 0 (record { no = 0 }) 0 1 (7 ∷ 0 ∷ 0 ∷ 0 ∷ 0 ∷ 0 ∷ 0 ∷ 0 ∷ []) }
{
    Kind::Sent {
        number: 0,
        dest: ProcNo { no: 0 },
        chan: 0,
        len: 1,
        words: [7, 0, 0, 0, 0, 0, 0, 0],
    }
}

fn receive() -> Kind
    ensures { result ≡ Kind.Accepted 1 (record { sender = record { no = 0 }; number = 0 }) }
{
    let sender = ProcNo { no: 0 };
    Kind::Accepted {
        set: 1,
        id: LetterId { sender, number: 0 },
    }
}

fn seat(alloc: Global, no: u8, kinds: &[Kind]) -> Result<Seat<Listed>, WantOfMemory>
    requires { are_proper 0 kinds.now ≡ true }
    ensures name { IfOk result (λ s. ⟦<Listed as Proc>⟧.name_of (process_in s) ≡ record { no = no }) }
    ensures begins { IfOk result (λ s. ⟦<Listed as Proc>⟧.stands_for (process_in s) (listed kinds.now) [] 0) }
{
    let kinds = Vec::from_slice(alloc, kinds)?;
    Ok(Seat::begin(Listed::new(ProcNo { no }, kinds)))
}

/// Process 0, which goes through these events, and processes 1 and 2, which send it a letter each.
fn three(alloc: Global, kinds: &[Kind]) -> Result<Vec<Seat<Listed>>, WantOfMemory>
    requires { are_proper 0 kinds.now ≡ true }
    ensures few { IfOk result (λ v. length v.items ≡ 3) }
    ensures names { IfOk result (λ v. AreNumbered ⟦<Listed as Proc>⟧.name_of (map process_in v.items)) }
    ensures begins { IfOk result (λ v. (p : ℕ) (x : Listed) → slice_get (map process_in v.items) p ≡ Some x
        → (s : Script) × ⟦<Listed as Proc>⟧.stands_for x s [] 0) }
{
    let end = Kind::Ended { value: 0 };
    let first = seat(alloc, 0, kinds)?;
    let second = seat(alloc, 1, &[send(), end])?;
    let third = seat(alloc, 2, &[send(), end])?;
    match Vec::from_array(alloc, [first, second, third]) {
        Ok(seats) => Ok(seats),
        Err(_) => Err(WantOfMemory),
    }
}

fn recorded(
    alloc: Global,
    kinds: &[Kind],
    files: &mut MemCabinet,
) -> Result<Recorded<Listed, ListMail>, RecordFault>
    requires { are_proper 0 kinds.now ≡ true }
{
    let Ok(seats) = three(alloc, kinds) else {
        return Err(RecordFault::Memory);
    };
    let Ok(schedule) = read_schedule(alloc, b"1*2 2*2 0*3", 3) else {
        return Err(RecordFault::Memory);
    };
    record_run(alloc, seats, 1, 0, &schedule, &[7; 32], "T", files)
}

fn cabinet(alloc: Global, fails: &[CabinetFail]) -> Result<MemCabinet, WantOfMemory> {
    let fails = Vec::from_slice(alloc, fails)?;
    MemCabinet::new(alloc, Vec::new(alloc), 1000, fails)
}

/// The second of two letters could have been received first.
#[test]
fn a_race_is_noted(rt: HostRuntime) -> Result<(), Fail> {
    let end = Kind::Ended { value: 0 };
    let mut files = cabinet(rt.alloc(), &[])?;
    let Ok(done) = recorded(rt.alloc(), &[receive(), receive(), end], &mut files) else {
        return Err("not recorded")?;
    };
    assert_eq!(rt; (done.notes, done.lost, done.bytes), (1, 0, 94));
    assert!(rt; done.stopped.is_none());
    let Fetched::Bytes(bytes) = files.fetch(rt.alloc(), "T", 100) else {
        return Err("no file")?;
    };
    assert_eq!(rt; bytes.len(), 94);
    let entries = [
        1, 0, 0, 0, 0, 1, 2, 0, 0, 0, 0, 3, 0, 0, 0, 3, 0, 0, 0, 2, 0, 0, 0, 2,
    ];
    let written = bytes.as_slice().get(38..62).ok_or("it is short")?;
    assert_eq!(rt; written, entries.as_slice());
    Ok(())
}

/// A letter that was never received could have been received first.
#[test]
fn a_lost_letter_is_written(rt: HostRuntime) -> Result<(), Fail> {
    let end = Kind::Ended { value: 0 };
    let mut files = cabinet(rt.alloc(), &[])?;
    let Ok(done) = recorded(rt.alloc(), &[receive(), end], &mut files) else {
        return Err("not recorded")?;
    };
    assert_eq!(rt; (done.notes, done.lost, done.bytes), (0, 1, 89));
    Ok(())
}

/// A write that fails in the middle of the note.
#[test]
fn a_failed_write_leaves_a_front(rt: HostRuntime) -> Result<(), Fail> {
    let fail = CabinetFail {
        call: CabinetCall::Append,
        nth: 2,
        kept: 5,
    };
    let end = Kind::Ended { value: 0 };
    let mut files = cabinet(rt.alloc(), &[fail])?;
    let Err(fault) = recorded(rt.alloc(), &[receive(), receive(), end], &mut files) else {
        return Err("recorded")?;
    };
    assert_eq!(rt; fault, RecordFault::Write);
    let Fetched::Bytes(bytes) = files.fetch(rt.alloc(), "T", 100) else {
        return Err("no file")?;
    };
    assert_eq!(rt; bytes.len(), 43);
    Ok(())
}
