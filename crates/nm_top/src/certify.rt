//! The command `certify`.

ghost use Rattle.std.specs.Prelude.{◌≡◌, ◌+◌, ◌<◌, ◌^◌, ℕ, [], ◌∷◌, length, map, Contains, true};
ghost use Rattle.c_tree.specs.declared.program.Program.{Program};
ghost use Rattle.c_tree.specs.Play.{script_of};
ghost use Rattle.stack_code.specs.View.{seen_code};
ghost use Rattle.event_list.specs.Runs.{IsRun};
ghost use Rattle.event_list.specs.Traces.{IsLoggedName};
ghost use Rattle.event_list.specs.Turns.{all_reached};
ghost use Rattle.trace_file.specs.Rules.{IsTrace};
ghost use Rattle.cut_witness.specs.Comparisons.{HasEntries};
ghost use Rattle.c_process.specs.Standing.{IsCodeOf};
ghost use Rattle.replay_core.specs.Gates.{seen_trace};
ghost use Rattle.nm_top.specs.Commands as commands;
ghost use Rattle.nm_top.specs.Finishing.{entries_of, finished};
ghost use Rattle.nm_top.specs.private.Certifications.{PutsCertificates};
ghost use Rattle.nm_top.specs.private.Tellings.{AreCertificates, IsCertifyWork, Told};
ghost use Rattle.nm_top.specs.Watches.{Call};
ghost use Rattle.nm_top.specs.private.Works.{Carries, outside};

use crate::finish::stuck;
use crate::pair::{Pair, pair_in};
use crate::replay::begun;
use crate::start::compiled;
use crate::status::Status;
use crate::stop::Stop;
use crate::tell::tell;
use cut_witness::{Compared, compare, witness};
use event_list::EventList;
use nm_base::{AcceptNote, LetterId};
use nm_outside::{Cabinet, Sink};
use replay_core::ReplayFault;
use report::{Refusal, certificate, certificates_line};
use stack_code::Code;
use std::alloc::Global;
use trace_file::Trace;

/// Why no more certificates were printed.
#[derive(Clone, Copy, Debug)]
pub enum Halt {
    Write,
    Memory,
}

// Prints the certificate of a letter that is logged in the list.
fn put_certificate<O: Sink>(
    alloc: Global,
    events: &EventList,
    mask: u32,
    id: LetterId,
    out: &mut O,
) -> Result<(), Halt>
    requires sound { (p : Program) × (n : ℕ) × IsRun (script_of p n) mask events.now.events }
    requires logged { IsLoggedName mask events.now.events id }
    ensures { (p : Program) (n : ℕ) → IsRun (script_of p n) mask events.now.events
        → PutsCertificates p n mask events.now.events (id ∷ []) (O.given out.old) (O.given out.new) (O.faults out.old)
        (O.faults out.new) result }
{
    let Ok(found) = witness(alloc, events, mask, id) else {
        return Err(Halt::Memory);
    };
    let Some(w) = found else {
        unreachable!();
    };
    match certificate(out, &w) {
        Ok(()) => Ok(()),
        Err(_) => Err(Halt::Write),
    }
}

// Prints the certificates of the letters that were received.
fn put_noted<O: Sink>(
    alloc: Global,
    events: &EventList,
    mask: u32,
    notes: &[AcceptNote],
    out: &mut O,
) -> Result<(), Halt>
    requires sound { (p : Program) × (n : ℕ) × IsRun (script_of p n) mask events.now.events }
    requires logged { (note : AcceptNote) → Contains notes.now note → IsLoggedName mask events.now.events note.id }
    ensures { (p : Program) (n : ℕ) → IsRun (script_of p n) mask events.now.events
        → PutsCertificates p n mask events.now.events (map (λ note. note.id) notes.now) (O.given out.old)
        (O.given out.new) (O.faults out.old) (O.faults out.new) result }
{
    for note in notes {
        put_certificate(alloc, events, mask, note.id, out)?;
    }
    Ok(())
}

// Prints those of the letters that were never received.
fn put_lost<O: Sink>(
    alloc: Global,
    events: &EventList,
    mask: u32,
    lost: &[LetterId],
    out: &mut O,
) -> Result<(), Halt>
    requires sound { (p : Program) × (n : ℕ) × IsRun (script_of p n) mask events.now.events }
    requires logged { (id : LetterId) → Contains lost.now id → IsLoggedName mask events.now.events id }
    ensures { (p : Program) (n : ℕ) → IsRun (script_of p n) mask events.now.events
        → PutsCertificates p n mask events.now.events lost.now (O.given out.old) (O.given out.new) (O.faults out.old)
        (O.faults out.new) result }
{
    for id in lost {
        put_certificate(alloc, events, mask, *id, out)?;
    }
    Ok(())
}

// The status of a command that printed no more certificates.
fn halted(halt: Halt) -> Status
    ensures write { halt ≡ Halt.Write → result ≡ Status.WriteFault }
    ensures memory { halt ≡ Halt.Memory → result ≡ Status.WantOfMemory }
{
    match halt {
        Halt::Write => Status::WriteFault,
        Halt::Memory => Status::WantOfMemory,
    }
}

// Prints the certificates of the letters that the trace names, and their number.
fn put_certificates<O: Sink>(
    alloc: Global,
    trace: &Trace,
    events: &EventList,
    out: &mut O,
) -> Status
    requires sound { (p : Program) × (n : ℕ) × IsRun (script_of p n) trace.now.mask events.now.events }
    requires entries { HasEntries trace.now.mask trace.now.notes trace.now.lost events.now.events }
    requires few { length trace.now.notes + length trace.now.lost < 2 ^ 32 }
    ensures { (p : Program) (n : ℕ) → IsRun (script_of p n) trace.now.mask events.now.events
        → Told (AreCertificates p n trace.now.mask events.now.events (entries_of trace.now))
        (O.given out.old) (O.given out.new) (O.faults out.old) (O.faults out.new) result }
{
    let notes = trace.notes();
    let lost = trace.lost();
    if let Err(halt) = put_noted(alloc, events, trace.mask(), notes, out) {
        return halted(halt);
    }
    if let Err(halt) = put_lost(alloc, events, trace.mask(), lost, out) {
        return halted(halt);
    }
    match certificates_line(out, (notes.len() + lost.len()) as u32) {
        Ok(()) => Status::Done,
        Err(_) => Status::WriteFault,
    }
}

// Compares the entries of a finished replay with those of its trace, and prints its certificates.
fn certify_finished<O: Sink>(
    alloc: Global,
    trace: &Trace,
    events: &EventList,
    out: &mut O,
) -> Status
    requires sound { (p : Program) × (n : ℕ) × IsRun (script_of p n) trace.now.mask events.now.events }
    requires few { length trace.now.notes + length trace.now.lost < 2 ^ 32 }
    ensures { (p : Program) → events.now.events ≡ (finished p trace.now).events
        → all_reached (seen_trace trace.now) (finished p trace.now).events ≡ true
        → IsRun (script_of p trace.now.n) trace.now.mask events.now.events
        → Told (IsCertifyWork p trace.now) (O.given out.old) (O.given out.new) (O.faults out.old) (O.faults out.new)
        result }
{
    let Ok(compared) = compare(alloc, trace, events) else {
        return Status::WantOfMemory;
    };
    if let Compared::Differs { first } = compared {
        return tell(out, &Stop::Refused(Refusal::NotItsTrace { letter: first }));
    }
    put_certificates(alloc, trace, events, out)
}

// Replays the code to its end, and certifies its letters.
fn certify_code<O: Sink>(alloc: Global, code: &Code, trace: &Trace, out: &mut O) -> Status
    requires trace { IsTrace trace.now }
    requires few { length trace.now.notes + length trace.now.lost < 2 ^ 32 }
    requires code { (p : Program) × IsCodeOf p (seen_code code.now) }
    ensures { (p : Program) → IsCodeOf p (seen_code code.now) → Told (IsCertifyWork p trace.now)
        (O.given out.old) (O.given out.new) (O.faults out.old) (O.faults out.new) result }
{
    let Ok(mut replay) = begun(alloc, code, trace) else {
        return Status::WantOfMemory;
    };
    match replay.finish(alloc) {
        Ok(_) => certify_finished(alloc, trace, replay.events(), out),
        Err(ReplayFault::Stuck { counts }) => tell(out, &stuck(trace, counts)),
        Err(ReplayFault::Memory) => Status::WantOfMemory,
    }
}

// Compiles the program and certifies its trace.
fn certify_pair<O: Sink>(alloc: Global, pair: &Pair, out: &mut O) -> Status
    requires trace { IsTrace pair.now.trace }
    requires few { length pair.now.trace.notes + length pair.now.trace.lost < 2 ^ 32 }
    ensures { Told (IsCertifyWork pair.now.program pair.now.trace)
        (O.given out.old) (O.given out.new) (O.faults out.old) (O.faults out.new) result }
{
    let Ok(code) = compiled(alloc, &pair.program) else {
        return Status::WantOfMemory;
    };
    certify_code(alloc, &code, &pair.trace, out)
}

/// Replays the program in a file under the trace in another to its recorded end, and prints for each letter that the
/// trace names a certificate: another run, in which the race goes the other way.
pub fn certify<C: Cabinet, O: Sink>(
    alloc: Global,
    program: &str,
    trace: &str,
    files: &mut C,
    out: &mut O,
) -> Status
    ensures { (x : Call) → Carries x (commands.Certify program.now trace.now)
        (outside (C.files files.old) (C.absents files.old) (C.read_faults files.old) (C.write_faults files.old)
        (C.sure_room files.old) (O.given out.old) (O.faults out.old))
        (outside (C.files files.new) (C.absents files.new) (C.read_faults files.new) (C.write_faults files.new)
        (C.sure_room files.new) (O.given out.new) (O.faults out.new)) result }
{
    match pair_in(alloc, files, program, trace) {
        Ok(pair) => certify_pair(alloc, &pair, out),
        Err(stop) => tell(out, &stop),
    }
}
