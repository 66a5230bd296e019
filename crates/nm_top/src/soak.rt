//! The command `soak`: a program of its own is recorded, replayed, finished and certified in memory.

ghost use Rattle.std.specs.Prelude.{◌≡◌, ◌∷◌, ◌++◌, ◌+◌, ◌≤◌, ℕ, List, [], length, Contains, IfOk, IfErr, Some};
ghost use Rattle.std.specs.FinMap.{get};
ghost use Rattle.sha2.specs.Sha256.{sha256};
ghost use Rattle.nm_base.specs.declared.limits.TheConstants.{MAX_TRACE_BYTES};
ghost use Rattle.nm_outside.specs.Held.{held_by, room_of};
ghost use Rattle.c_tree.specs.declared.program.Program.{Program};
ghost use Rattle.c_tree.specs.Play.{script_of};
ghost use Rattle.stack_code.specs.View.{seen_code};
ghost use Rattle.c_process.specs.Standing.{IsCodeOf};
ghost use Rattle.event_list.specs.declared.Event.{Event};
ghost use Rattle.event_list.specs.Runs.{IsRun};
ghost use Rattle.event_list.specs.Traces.{IsLoggedName};
ghost use Rattle.trace_file.specs.Bytes.{spelling};
ghost use Rattle.trace_file.specs.Content.{Content};
ghost use Rattle.trace_file.specs.Rules.{IsTrace};
ghost use Rattle.cut_witness.specs.Certificates.{IsCertificate};
ghost use Rattle.cut_witness.specs.Comparisons.{HasEntries};
ghost use Rattle.report.specs.Printing.{Prints};
ghost use Rattle.report.specs.Runs.{RunsProgram, summary_of};
ghost use Rattle.report.specs.Texts.{certificates_line, trace_line, turns_line};
ghost use Rattle.nm_top.specs.Finishing.{entries_of};
ghost use Rattle.nm_top.specs.Programs.{Reads};
ghost use Rattle.nm_top.specs.SoakText as own;
ghost use Rattle.nm_top.specs.Soaking.{replayed_text};
ghost use Rattle.nm_top.specs.private.Soaked.{HasSoaked, IsBehind, IsOfRecording, IsOwnStop, IsSoakWork, IsUpTo, ReplaysSoaked};
ghost use Rattle.nm_top.specs.private.Tellings.{Told};

use crate::fetch::{Source, digest_of, unread};
use crate::program::program_of;
use crate::replay::{begun, replay_turns};
use crate::start::compiled;
use crate::status::Status;
use crate::stop::Stop;
use crate::tell::tell;
use c_process::{CProc, seats_of};
use cut_witness::{Witness, witness};
use event_list::EventList;
use mailboxes::OrderedMail;
use nm_base::{AcceptNote, LetterId, WantOfMemory};
use nm_outside::{Failed, MemCabinet, Sink};
use recorder::{RecordFault, Recorded, record_run};
use replay_core::{Replay, ReplayFault};
use report::{certificates_line, run_summary, soak_line, trace_line, turns_line};
use schedules::generated;
use stack_code::Code;
use std::alloc::Global;
use trace_file::{Trace, decode};
use world::World;

/// How many processes run the program.
pub const SOAK_PROCESSES: u8 = 4;

/// How many turns the recording has, and the replay before it is finished.
pub const SOAK_TURNS: u32 = 200_000;

// The bytes that the trace in memory may have. No trace of so many turns passes them: a note takes two events and 11
// bytes, and an entry of a lost letter one event and 6 bytes.
const SOAK_ROOM: u32 = 2_097_152;

// The name of the trace in memory.
const TRACE_NAME: &str = "trace";

// The text of the program.
fn soak_text() -> &'static str
    ensures { result.now ≡ own.soak_text }
{
    "#include <stdio.h>
int total;
int main(void)
{
    int i;
    if (self() == 0) {
        for (i = 0; i < 3000; i++) {
            total += receive(3u);
            send(from(), 2, total);
        }
    } else {
        for (i = 0; i < 1000; i++) {
            send(0, i % 2, self() * 100 + i);
            receive(4u);
        }
    }
    printf(\"%d\\n\", total);
    return 0;
}
"
}

// The program, and the digest of its text.
fn own_program<'a>(alloc: Global) -> Result<Source, Stop<'a>>
    ensures program { IfOk result (λ s. Reads own.soak_text s.program) }
    ensures digest { IfOk result (λ s. s.digest ≡ sha256 own.soak_text) }
    ensures refused { IfErr result IsOwnStop }
{
    let text = soak_text().as_bytes();
    let digest = digest_of(text);
    match program_of(alloc, text) {
        Ok(program) => Ok(Source { program, digest }),
        Err(fault) => Err(unread(fault)),
    }
}

// Runs the code under the turns that the seed gives, and writes the trace of the run to a file in memory.
fn record_generated<'c>(
    alloc: Global,
    code: &'c Code,
    digest: &[u8; 32],
    seed: u32,
    files: &mut MemCabinet,
) -> Result<Recorded<CProc<'c>, OrderedMail>, WantOfMemory>
    requires code { (p : Program) × IsCodeOf p (seen_code code.now) }
    requires room { room_of files.old ≡ Some SOAK_ROOM }
    ensures { IfOk result (λ r. (p : Program) → IsCodeOf p (seen_code code.now)
        → HasSoaked p digest.now seed r TRACE_NAME.now (held_by files.new)) }
{
    let schedule = generated(alloc, seed, SOAK_PROCESSES, SOAK_TURNS)?;
    let seats = seats_of(alloc, code, SOAK_PROCESSES)?;
    let recorded = match record_run(alloc, seats, 1, 0, &schedule, digest, TRACE_NAME, files) {
        Ok(recorded) => recorded,
        Err(RecordFault::Memory) => return Err(WantOfMemory),
        Err(RecordFault::Write) => unreachable!(),
    };
    match recorded.stopped {
        None => Ok(recorded),
        Some(_) => Err(WantOfMemory),
    }
}

// The trace in memory.
fn trace_in_memory(alloc: Global, files: &MemCabinet) -> Result<Trace, WantOfMemory>
    requires { (t : Content) × IsTrace t × (length (spelling t) ≤ MAX_TRACE_BYTES)
        × (get (held_by files.now) TRACE_NAME.now ≡ Some (spelling t)) }
    ensures { IfOk result (λ x. (t : Content) → IsTrace t
        → get (held_by files.now) TRACE_NAME.now ≡ Some (spelling t) → x ≡ t) }
{
    let Some(bytes) = files.file(TRACE_NAME) else {
        unreachable!();
    };
    match decode(alloc, bytes) {
        Ok(trace) => Ok(trace),
        Err(_) => Err(WantOfMemory),
    }
}

// The replay of the code under the trace, by the turns that the seed after this one gives, and finished; and how many
// of those turns made no event.
fn replay_generated<'c>(
    alloc: Global,
    code: &'c Code,
    trace: &Trace,
    seed: u32,
) -> Result<(Replay<CProc<'c>, OrderedMail>, u32), WantOfMemory>
    requires trace { IsTrace trace.now }
    requires recorded { (p : Program) × IsCodeOf p (seen_code code.now) × IsOfRecording p trace.now seed }
    ensures { IfOk result (λ r. (p : Program) → IsCodeOf p (seen_code code.now)
        → ReplaysSoaked r.0 p trace.now seed r.1) }
{
    let schedule = generated(alloc, seed.wrapping_add(1), SOAK_PROCESSES, SOAK_TURNS)?;
    let mut replay = begun(alloc, code, trace)?;
    let idle = replay_turns(alloc, &mut replay, &schedule)?;
    match replay.finish(alloc) {
        Ok(_) => Ok((replay, idle)),
        Err(ReplayFault::Memory) => Err(WantOfMemory),
        Err(ReplayFault::Stuck { .. }) => unreachable!(),
    }
}

// Makes the certificate of a letter that is logged in the list.
fn certify_one(
    alloc: Global,
    events: &EventList,
    mask: u32,
    id: LetterId,
) -> Result<Witness, WantOfMemory>
    requires sound { (p : Program) × (n : ℕ) × IsRun (script_of p n) mask events.now.events }
    requires logged { IsLoggedName mask events.now.events id }
    ensures { IfOk result (λ w. (w.id ≡ id) × IsCertificate mask events.now.events w) }
{
    let found = witness(alloc, events, mask, id)?;
    let Some(w) = found else {
        unreachable!();
    };
    Ok(w)
}

// Makes the certificates of the letters that were received, and answers their number.
fn certify_noted(
    alloc: Global,
    events: &EventList,
    mask: u32,
    notes: &[AcceptNote],
) -> Result<u32, WantOfMemory>
    requires sound { (p : Program) × (n : ℕ) × IsRun (script_of p n) mask events.now.events }
    requires logged { (note : AcceptNote) → Contains notes.now note → IsLoggedName mask events.now.events note.id }
    requires few { length notes.now ≤ MAX_TRACE_BYTES }
    ensures { IfOk result (λ made. made ≡ length notes.now) }
{
    let mut made = 0;
    for note in notes {
        let _w = certify_one(alloc, events, mask, note.id)?;
        made += 1;
    }
    Ok(made)
}

// Makes those of the letters that were never received, and answers their number.
fn certify_lost(
    alloc: Global,
    events: &EventList,
    mask: u32,
    lost: &[LetterId],
) -> Result<u32, WantOfMemory>
    requires sound { (p : Program) × (n : ℕ) × IsRun (script_of p n) mask events.now.events }
    requires logged { (id : LetterId) → Contains lost.now id → IsLoggedName mask events.now.events id }
    requires few { length lost.now ≤ MAX_TRACE_BYTES }
    ensures { IfOk result (λ made. made ≡ length lost.now) }
{
    let mut made = 0;
    for id in lost {
        let _w = certify_one(alloc, events, mask, *id)?;
        made += 1;
    }
    Ok(made)
}

// Makes a certificate for each letter that the trace names, and tells their number.
fn tell_certificates<O: Sink>(
    alloc: Global,
    trace: &Trace,
    events: &EventList,
    out: &mut O,
) -> Status
    requires sound { (p : Program) × (n : ℕ) × IsRun (script_of p n) trace.now.mask events.now.events }
    requires entries { HasEntries trace.now.mask trace.now.notes trace.now.lost events.now.events }
    requires few { length trace.now.notes + length trace.now.lost ≤ MAX_TRACE_BYTES }
    ensures { Told (IsUpTo (certificates_line (length (entries_of trace.now)) ∷ [])) (O.given out.old)
        (O.given out.new) (O.faults out.old) (O.faults out.new) result }
{
    let notes = trace.notes();
    let names = trace.lost();
    let Ok(noted) = certify_noted(alloc, events, trace.mask(), notes) else {
        return Status::WantOfMemory;
    };
    let Ok(lost) = certify_lost(alloc, events, trace.mask(), names) else {
        return Status::WantOfMemory;
    };
    match certificates_line(out, noted + lost) {
        Ok(()) => Status::Done,
        Err(_) => Status::WriteFault,
    }
}

// Prints the summary of a finished replay, and the line of the turns before it was finished.
fn put_replayed<O: Sink>(
    out: &mut O,
    world: &World<CProc<'_>, OrderedMail>,
    idle: u32,
) -> Result<(), Failed>
    ensures { (p : Program) (E : List Event) → RunsProgram world.now p E
        → Prints (O.given out.old) (O.given out.new) (O.faults out.old) (O.faults out.new)
        (summary_of E ++ turns_line SOAK_TURNS idle) result }
{
    run_summary(out, world)?;
    turns_line(out, SOAK_TURNS, idle)
}

// Replays the code under the trace of its recording, tells that, and then its certificates.
fn tell_replay<O: Sink>(alloc: Global, code: &Code, trace: &Trace, seed: u32, out: &mut O) -> Status
    requires trace { IsTrace trace.now }
    requires few { length trace.now.notes + length trace.now.lost ≤ MAX_TRACE_BYTES }
    requires recorded { (p : Program) × IsCodeOf p (seen_code code.now) × IsOfRecording p trace.now seed }
    ensures { (p : Program) → IsCodeOf p (seen_code code.now)
        → Told (IsUpTo (replayed_text p trace.now seed ∷ certificates_line (length (entries_of trace.now)) ∷ []))
        (O.given out.old) (O.given out.new) (O.faults out.old) (O.faults out.new) result }
{
    let Ok(replayed) = replay_generated(alloc, code, trace, seed) else {
        return Status::WantOfMemory;
    };
    match put_replayed(out, replayed.0.world(), replayed.1) {
        Ok(()) => tell_certificates(alloc, trace, replayed.0.events(), out),
        Err(_) => Status::WriteFault,
    }
}

// Prints the summary of a recording, and the line of its trace.
fn put_recorded<O: Sink>(
    out: &mut O,
    recorded: &Recorded<CProc<'_>, OrderedMail>,
) -> Result<(), Failed>
    ensures { (p : Program) (E : List Event) → RunsProgram recorded.now.world p E
        → Prints (O.given out.old) (O.given out.new) (O.faults out.old) (O.faults out.new)
        (summary_of E ++ trace_line recorded.now.notes recorded.now.lost recorded.now.bytes) result }
{
    run_summary(out, &recorded.world)?;
    trace_line(out, recorded.notes, recorded.lost, recorded.bytes)
}

// Records the code in memory, tells that, and then the replay and the certificates.
fn tell_recording<O: Sink>(
    alloc: Global,
    code: &Code,
    digest: &[u8; 32],
    seed: u32,
    out: &mut O,
) -> Status
    requires code { (p : Program) × IsCodeOf p (seen_code code.now) }
    requires digest { digest.now ≡ sha256 own.soak_text }
    ensures { (p : Program) → IsCodeOf p (seen_code code.now) → Reads own.soak_text p
        → Told (IsBehind seed p) (O.given out.old) (O.given out.new) (O.faults out.old) (O.faults out.new) result }
{
    let Ok(mut files) = MemCabinet::new(alloc, Vec::new(alloc), SOAK_ROOM, Vec::new(alloc)) else {
        return Status::WantOfMemory;
    };
    let Ok(recorded) = record_generated(alloc, code, digest, seed, &mut files) else {
        return Status::WantOfMemory;
    };
    if put_recorded(out, &recorded).is_err() {
        return Status::WriteFault;
    }
    match trace_in_memory(alloc, &files) {
        Ok(trace) => tell_replay(alloc, code, &trace, seed, out),
        Err(_) => Status::WantOfMemory,
    }
}

/// Runs a program of its own under the turns that a seed gives, records it, replays it under those of the next seed,
/// finishes the replay and certifies its letters, all in memory, and prints what came of each.
pub fn soak<O: Sink>(alloc: Global, seed: u32, out: &mut O) -> Status
    ensures { Told (IsSoakWork seed) (O.given out.old) (O.given out.new) (O.faults out.old) (O.faults out.new) result }
{
    let source = match own_program(alloc) {
        Ok(source) => source,
        Err(stop) => return tell(out, &stop),
    };
    let Ok(code) = compiled(alloc, &source.program) else {
        return Status::WantOfMemory;
    };
    match soak_line(out, seed, SOAK_PROCESSES, SOAK_TURNS) {
        Ok(()) => tell_recording(alloc, &code, &source.digest, seed, out),
        Err(_) => Status::WriteFault,
    }
}
