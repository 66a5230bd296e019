//! Writes a trace again in version 2, entry by entry.

ghost use Rattle.std.specs.Prelude.{◌≡◌, ◌+◌, ◌*◌, ◌<◌, ◌≤◌, ◌⊎◌, ◌++◌, ℕ, List, length, take, Some, IsSome, IsTrue, IfOk, OnOk, OnErr, IsErrOf, IsOk, All, is_err, false, option_map};
ghost use Rattle.std.specs.List.{flat_map};
ghost use Rattle.std.specs.FinMap.{insert};
ghost use Rattle.nm_base.specs.declared.limits.TheConstants.{MAX_PROCESSES, MAX_TRACE_BYTES};
ghost use Rattle.nm_outside.specs.Begun.{has_failed};
ghost use Rattle.nm_outside.specs.Causes.{BelongsTo};
ghost use Rattle.trace_file.specs.Bytes as Spec;
ghost use Rattle.trace_file.specs.Bytes.{spelling};
ghost use Rattle.trace_file.specs.Rules.{IsTrace, AreCounts};
ghost use Rattle.trace_file.specs.Writing.{Writes, processes, written};
ghost use Rattle.nm_top.specs.Upgrades.{upgraded};
ghost use Rattle.nm_top.specs.private.Rewriting.{Place, IsSoFar, HoldsFront, entries, holding};

use nm_base::{AcceptNote, LetterId, ProcNo};
use nm_outside::{BeginFault, Cabinet, Failed};
use std::alloc::Global;
use trace_file::{Trace, TraceWriter};

// The version that is written.
const NEWEST_VERSION: u8 = 2;

/// Writes these notes.
fn write_notes<C: Cabinet>(
    writer: &mut TraceWriter,
    notes: &[AcceptNote],
    files: &mut C,
) -> Result<(), Failed>
    requires is_open { IsTrue (C.is_open files.old) }
    requires small { written writer.old + 11 * length notes.now ≤ MAX_TRACE_BYTES }
    requires receivers { All (λ a. a.receiver.no < processes writer.old) notes.now }
    requires senders { All (λ a. a.id.sender.no < processes writer.old) notes.now }

    ensures so_far { OnOk result ((at : Place) (b : List ℕ)
        → IsSoFar at writer.old (C.files files.old) (C.open_name files.old) b
        → IsSoFar at writer.new (C.files files.new) (C.open_name files.new) (b ++ flat_map Spec.note notes.now)) }
    ensures cut { OnErr result ((at : Place) (b : List ℕ)
        → IsSoFar at writer.old (C.files files.old) (C.open_name files.old) b
        → HoldsFront at (C.files files.new) (b ++ flat_map Spec.note notes.now)) }
    ensures size { OnOk result (written writer.new ≡ written writer.old + 11 * length notes.now) }
    ensures failed { BelongsTo (is_err result) (C.write_faults files.old) (C.write_faults files.new) }
    ensures sure { (at : Place) (b : List ℕ) (room : ℕ)
        → IsSoFar at writer.old (C.files files.old) (C.open_name files.old) b
        → IsSome at.start → C.sure_room files.old ≡ Some room
        → length b + length (flat_map Spec.note notes.now) ≤ room → IsOk result }
    ensures still_open { C.is_open files.new ≡ C.is_open files.old }

    // Nothing else changes.
    ensures same_n { processes writer.new ≡ processes writer.old }
    ensures same_room { C.sure_room files.new ≡ C.sure_room files.old }
    ensures same_reads { C.read_faults files.new ≡ C.read_faults files.old }
    ensures same_absents { C.absents files.new ≡ C.absents files.old }
{
    for note in notes {
        writer.note(files, *note)?;
    }
    Ok(())
}

/// Writes these lost letters.
fn write_lost<C: Cabinet>(
    writer: &mut TraceWriter,
    lost: &[LetterId],
    files: &mut C,
) -> Result<(), Failed>
    requires is_open { IsTrue (C.is_open files.old) }
    requires small { written writer.old + 6 * length lost.now ≤ MAX_TRACE_BYTES }
    requires senders { All (λ id. id.sender.no < processes writer.old) lost.now }

    ensures so_far { OnOk result ((at : Place) (b : List ℕ)
        → IsSoFar at writer.old (C.files files.old) (C.open_name files.old) b
        → IsSoFar at writer.new (C.files files.new) (C.open_name files.new) (b ++ flat_map Spec.lost_entry lost.now)) }
    ensures cut { OnErr result ((at : Place) (b : List ℕ)
        → IsSoFar at writer.old (C.files files.old) (C.open_name files.old) b
        → HoldsFront at (C.files files.new) (b ++ flat_map Spec.lost_entry lost.now)) }
    ensures size { OnOk result (written writer.new ≡ written writer.old + 6 * length lost.now) }
    ensures failed { BelongsTo (is_err result) (C.write_faults files.old) (C.write_faults files.new) }
    ensures sure { (at : Place) (b : List ℕ) (room : ℕ)
        → IsSoFar at writer.old (C.files files.old) (C.open_name files.old) b
        → IsSome at.start → C.sure_room files.old ≡ Some room
        → length b + length (flat_map Spec.lost_entry lost.now) ≤ room → IsOk result }
    ensures still_open { C.is_open files.new ≡ C.is_open files.old }

    // Nothing else changes.
    ensures same_n { processes writer.new ≡ processes writer.old }
    ensures same_room { C.sure_room files.new ≡ C.sure_room files.old }
    ensures same_reads { C.read_faults files.new ≡ C.read_faults files.old }
    ensures same_absents { C.absents files.new ≡ C.absents files.old }
{
    for id in lost {
        writer.lost(files, *id)?;
    }
    Ok(())
}

/// The trace's numbers of events, and 0 for the processes that there aren't.
fn counts_of(trace: &Trace) -> [u32; 32]
    requires few { trace.now.n ≤ MAX_PROCESSES }
    requires each { length trace.now.counts ≡ trace.now.n }
    ensures { take trace.now.n result ≡ trace.now.counts }
{
    let mut counts = [0; 32];
    for p in 0..trace.n() {
        counts[p as usize] = trace.count(ProcNo { no: p });
    }
    counts
}

/// Writes what comes behind the header: the entries and the counts; and closes the file. Gives the number of all bytes.
fn write_behind<C: Cabinet>(
    mut writer: TraceWriter,
    trace: &Trace,
    files: &mut C,
) -> Result<u32, Failed>
    requires is_open { IsTrue (C.is_open files.old) }
    requires trace { IsTrace trace.now }
    requires n { processes writer ≡ trace.now.n }
    requires small { written writer + length (entries trace.now) ≤ MAX_TRACE_BYTES }

    ensures size { IfOk result (λ size. (at : Place)
        → IsSoFar at writer (C.files files.old) (C.open_name files.old) (Spec.header (upgraded trace.now))
        → size ≡ length (spelling (upgraded trace.now))) }
    ensures whole { OnOk result ((at : Place)
        → IsSoFar at writer (C.files files.old) (C.open_name files.old) (Spec.header (upgraded trace.now))
        → C.files files.new ≡ holding at (spelling (upgraded trace.now))) }
    ensures cut { OnErr result ((at : Place)
        → IsSoFar at writer (C.files files.old) (C.open_name files.old) (Spec.header (upgraded trace.now))
        → HoldsFront at (C.files files.new) (spelling (upgraded trace.now))) }
    ensures failed { BelongsTo (is_err result) (C.write_faults files.old) (C.write_faults files.new) }
    ensures sure { (at : Place) (room : ℕ)
        → IsSoFar at writer (C.files files.old) (C.open_name files.old) (Spec.header (upgraded trace.now))
        → IsSome at.start → C.sure_room files.old ≡ Some room
        → length (spelling (upgraded trace.now)) ≤ room → IsOk result }

    // Nothing else changes.
    ensures same_room { C.sure_room files.new ≡ C.sure_room files.old }
    ensures same_reads { C.read_faults files.new ≡ C.read_faults files.old }
    ensures same_absents { C.absents files.new ≡ C.absents files.old }
{
    write_notes(&mut writer, trace.notes(), files)?;
    write_lost(&mut writer, trace.lost(), files)?;
    let counts = counts_of(trace);
    writer.close(files, &counts[..trace.n() as usize])
}

/// Writes the trace in version 2 to the named file. `Memory` leaves all files; `Failed` comes where a write failed.
/// Gives the number of bytes.
pub fn write_upgraded<C: Cabinet>(
    alloc: Global,
    trace: &Trace,
    name: &str,
    files: &mut C,
) -> Result<u32, BeginFault>
    requires trace { IsTrace trace.now }
    requires small { length (spelling trace.now) ≤ MAX_TRACE_BYTES }

    ensures bytes { IfOk result (λ bytes. bytes ≡ length (spelling (upgraded trace.now))) }
    // The named file is the spelling, where the files are told, and no other file changed.
    ensures written { OnOk result (C.files files.new
        ≡ option_map (λ fs. insert fs name.now (spelling (upgraded trace.now))) (C.files files.old)) }
    // After a failure it is a front of that, or nothing changed.
    ensures cut { IsErrOf result BeginFault.Failed → (C.files files.new ≡ C.files files.old)
        ⊎ ((many : ℕ) × (C.files files.new
        ≡ option_map (λ fs. insert fs name.now (take many (spelling (upgraded trace.now)))) (C.files files.old))) }
    ensures memory { IsErrOf result BeginFault.Memory → C.files files.new ≡ C.files files.old }
    ensures failed { BelongsTo (has_failed result) (C.write_faults files.old) (C.write_faults files.new) }
    ensures sure { (room : ℕ) → IsSome (C.files files.old) → C.sure_room files.old ≡ Some room
        → length (spelling (upgraded trace.now)) ≤ room → has_failed result ≡ false }

    // Nothing else changes.
    ensures same_room { C.sure_room files.new ≡ C.sure_room files.old }
    ensures same_reads { C.read_faults files.new ≡ C.read_faults files.old }
    ensures same_absents { C.absents files.new ≡ C.absents files.old }
{
    let writer = TraceWriter::begin(
        alloc,
        files,
        name,
        NEWEST_VERSION,
        trace.mask(),
        trace.n(),
        trace.digest(),
    )?;
    match write_behind(writer, trace, files) {
        Ok(bytes) => Ok(bytes),
        Err(Failed) => Err(BeginFault::Failed),
    }
}
