//! The command `record`.

ghost use Rattle.std.specs.Prelude.{◌++◌, ℕ, List, length};
ghost use Rattle.c_tree.specs.declared.program.Program.{Program};
ghost use Rattle.stack_code.specs.View.{seen_code};
ghost use Rattle.c_process.specs.Standing.{IsCodeOf};
ghost use Rattle.schedules.specs.Bounds.{AreFewTurns};
ghost use Rattle.event_list.specs.declared.Event.{Event};
ghost use Rattle.trace_file.specs.Rules.{IsVersion};
ghost use Rattle.report.specs.Printing.{Prints};
ghost use Rattle.report.specs.Runs.{RunsProgram, blocks};
ghost use Rattle.report.specs.Texts.{trace_line};
ghost use Rattle.nm_top.specs.Answers.{to_record};
ghost use Rattle.nm_top.specs.Commands.{Record};
ghost use Rattle.nm_top.specs.private.Named.{AreFew};
ghost use Rattle.nm_top.specs.private.Recorded.{HasRecorded, recorded_work};
ghost use Rattle.nm_top.specs.Watches.{Call};
ghost use Rattle.nm_top.specs.private.Works.{Carries, Tells, outside};

use crate::run::{RunInput, demanded};
use crate::start::compiled;
use crate::status::Status;
use crate::tell::tell;
use c_process::{CProc, seats_of};
use mailboxes::OrderedMail;
use nm_outside::{Cabinet, Failed, Sink};
use recorder::{RecordFault, Recorded, record_run};
use report::{blocks, stopped_line, trace_line};
use stack_code::Code;
use std::alloc::Global;

/// How a recording is written: the file, the version of the trace, and the set of the ordered channels.
#[derive(Clone, Copy, Debug)]
pub struct Recording<'a> {
    pub trace: &'a str,
    pub version: u8,
    pub mask: u32,
}

// Prints the blocks and the summary of a whole recording, and the line of its trace.
fn put_recorded<O: Sink>(
    out: &mut O,
    recorded: &Recorded<CProc<'_>, OrderedMail>,
) -> Result<(), Failed>
    ensures text { (p : Program) (E : List Event) → RunsProgram recorded.now.world p E
        → Prints (O.given out.old) (O.given out.new) (O.faults out.old) (O.faults out.new)
        (blocks p (length recorded.now.world.processes) E
        ++ trace_line recorded.now.notes recorded.now.lost recorded.now.bytes) result }
{
    blocks(out, &recorded.world)?;
    trace_line(out, recorded.notes, recorded.lost, recorded.bytes)
}

// Prints what was recorded, or the one line of a recording that stopped.
fn tell_recorded<O: Sink>(out: &mut O, recorded: &Recorded<CProc<'_>, OrderedMail>) -> Status
    ensures { (p : Program) (E : List Event) → RunsProgram recorded.now.world p E
        → Tells (recorded_work recorded.now.stopped (blocks p (length recorded.now.world.processes) E
        ++ trace_line recorded.now.notes recorded.now.lost recorded.now.bytes))
        (O.given out.old) (O.given out.new) (O.faults out.old) (O.faults out.new) result }
{
    match recorded.stopped {
        None => match put_recorded(out, recorded) {
            Ok(()) => Status::Done,
            Err(_) => Status::WriteFault,
        },
        Some(turns) => match stopped_line(out, turns) {
            Ok(()) => Status::WantOfMemory,
            Err(_) => Status::WriteFault,
        },
    }
}

// Runs the code, and writes the trace of the run as it goes.
fn record_code<C: Cabinet, O: Sink>(
    alloc: Global,
    code: &Code,
    demanded: &RunInput,
    processes: u8,
    to: Recording<'_>,
    files: &mut C,
    out: &mut O,
) -> Status
    requires range { AreFew processes }
    requires version { IsVersion to.version to.mask }
    requires turns { AreFewTurns processes demanded.now.schedule }
    requires code { (p : Program) × IsCodeOf p (seen_code code.now) }
    ensures { (program schedule : List ℕ) (p : Program) → IsCodeOf p (seen_code code.now) → HasRecorded
        (to_record program processes schedule to.entry.trace.now to.entry.version to.entry.mask) p
        demanded.now.source.digest demanded.now.schedule
        (outside (C.files files.old) (C.absents files.old) (C.read_faults files.old) (C.write_faults files.old)
        (C.sure_room files.old) (O.given out.old) (O.faults out.old))
        (outside (C.files files.new) (C.absents files.new) (C.read_faults files.new) (C.write_faults files.new)
        (C.sure_room files.new) (O.given out.new) (O.faults out.new)) result }
{
    let Ok(seats) = seats_of(alloc, code, processes) else {
        return Status::WantOfMemory;
    };
    match record_run(
        alloc,
        seats,
        to.version,
        to.mask,
        &demanded.schedule,
        &demanded.source.digest,
        to.trace,
        files,
    ) {
        Ok(recorded) => tell_recorded(out, &recorded),
        Err(RecordFault::Memory) => Status::WantOfMemory,
        Err(RecordFault::Write) => Status::WriteFault,
    }
}

// Compiles the program and records it.
fn record_program<C: Cabinet, O: Sink>(
    alloc: Global,
    demanded: &RunInput,
    processes: u8,
    to: Recording<'_>,
    files: &mut C,
    out: &mut O,
) -> Status
    requires range { AreFew processes }
    requires version { IsVersion to.version to.mask }
    requires turns { AreFewTurns processes demanded.now.schedule }
    ensures { (program schedule : List ℕ) → HasRecorded
        (to_record program processes schedule to.entry.trace.now to.entry.version to.entry.mask)
        demanded.now.source.program demanded.now.source.digest demanded.now.schedule
        (outside (C.files files.old) (C.absents files.old) (C.read_faults files.old) (C.write_faults files.old)
        (C.sure_room files.old) (O.given out.old) (O.faults out.old))
        (outside (C.files files.new) (C.absents files.new) (C.read_faults files.new) (C.write_faults files.new)
        (C.sure_room files.new) (O.given out.new) (O.faults out.new)) result }
{
    let Ok(code) = compiled(alloc, &demanded.source.program) else {
        return Status::WantOfMemory;
    };
    record_code(alloc, &code, demanded, processes, to, files, out)
}

/// Runs the program in a file as so many processes, under the schedule in another, writes the trace of the run
/// to a third, and prints the processes' blocks, the summary and the line of the trace.
pub fn record<C: Cabinet, O: Sink>(
    alloc: Global,
    program: &str,
    processes: u8,
    schedule: &str,
    to: Recording<'_>,
    files: &mut C,
    out: &mut O,
) -> Status
    requires range { AreFew processes }
    requires version { IsVersion to.version to.mask }
    ensures { (x : Call)
        → Carries x (Record program.now processes schedule.now to.entry.trace.now to.entry.version to.entry.mask)
        (outside (C.files files.old) (C.absents files.old) (C.read_faults files.old) (C.write_faults files.old)
        (C.sure_room files.old) (O.given out.old) (O.faults out.old))
        (outside (C.files files.new) (C.absents files.new) (C.read_faults files.new) (C.write_faults files.new)
        (C.sure_room files.new) (O.given out.new) (O.faults out.new)) result }
{
    match demanded(alloc, program, processes, schedule, files) {
        Ok(demanded) => record_program(alloc, &demanded, processes, to, files, out),
        Err(stop) => tell(out, &stop),
    }
}
