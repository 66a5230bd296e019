//! The command `run`.

ghost use Rattle.std.specs.Prelude.{◌≡◌, IfSome, IfOk};
ghost use Rattle.sha2.specs.Sha256.{sha256};
ghost use Rattle.c_tree.specs.declared.program.Program.{Program};
ghost use Rattle.stack_code.specs.View.{seen_code};
ghost use Rattle.c_process.specs.Standing.{IsCodeOf};
ghost use Rattle.schedules.specs.Bounds.{AreFewTurns};
ghost use Rattle.report.specs.Runs.{blocks};
ghost use Rattle.nm_top.specs.Commands.{Run};
ghost use Rattle.nm_top.specs.Programs.{Reads};
ghost use Rattle.nm_top.specs.Schedules.{IsSchedule};
ghost use Rattle.nm_top.specs.Demands.{HoldsIn, IsFetched, program_file, schedule_file};
ghost use Rattle.nm_top.specs.Runs.{run_demands, run_of_program};
ghost use Rattle.nm_top.specs.private.Named.{AreFew};
ghost use Rattle.nm_top.specs.Watches.{Call};
ghost use Rattle.nm_top.specs.private.Works.{Carries, Counts, Gives, Tries, outside};

use crate::fetch::{Source, program_in, schedule_in};
use crate::start::{compiled, world_after};
use crate::status::Status;
use crate::stop::Stop;
use crate::tell::tell;
use c_tree::Program;
use nm_outside::{Cabinet, Sink};
use report::blocks;
use schedules::Schedule;
use stack_code::Code;
use std::alloc::Global;

// Runs the code as so many processes, and prints their blocks and the summary.
fn run_code<O: Sink>(
    alloc: Global,
    code: &Code,
    processes: u8,
    schedule: &Schedule,
    mask: u32,
    out: &mut O,
) -> Status
    requires range { AreFew processes }
    requires turns { AreFewTurns processes schedule.now }
    requires code { (p : Program) × IsCodeOf p (seen_code code.now) }
    ensures { (p : Program) → IsCodeOf p (seen_code code.now)
        → Tries (blocks p processes (run_of_program p processes mask schedule.now)) (O.given out.old) (O.given out.new)
        (O.faults out.old) (O.faults out.new) result }
{
    let Ok(world) = world_after(alloc, code, processes, schedule, mask) else {
        return Status::WantOfMemory;
    };
    match blocks(out, &world) {
        Ok(()) => Status::Done,
        Err(_) => Status::WriteFault,
    }
}

// Compiles the program and runs it.
fn run_program<O: Sink>(
    alloc: Global,
    program: &Program,
    processes: u8,
    schedule: &Schedule,
    mask: u32,
    out: &mut O,
) -> Status
    requires range { AreFew processes }
    requires turns { AreFewTurns processes schedule.now }
    ensures { Tries (blocks program.now processes (run_of_program program.now processes mask schedule.now))
        (O.given out.old) (O.given out.new) (O.faults out.old) (O.faults out.new) result }
{
    let Ok(code) = compiled(alloc, program) else {
        return Status::WantOfMemory;
    };
    run_code(alloc, &code, processes, schedule, mask, out)
}

/// What a run demands.
#[derive(Drop)]
pub struct RunInput {
    pub source: Source,
    pub schedule: Schedule,
}

/// What a run demands: a program, and a schedule for so many processes.
pub fn demanded<'a, C: Cabinet>(
    alloc: Global,
    program: &'a str,
    processes: u8,
    schedule: &'a str,
    files: &mut C,
) -> Result<RunInput, Stop<'a>>
    requires range { AreFew processes }
    ensures gives { IfSome (C.files files.old) (λ held. Gives
        (λ x. HoldsIn held (λ text. Reads text x.source.program × (x.source.digest ≡ sha256 text))
        (program_file program.now)
        × HoldsIn held (λ text. IsSchedule processes text x.schedule) (schedule_file schedule.now))
        (run_demands program.now processes schedule.now) held result) }
    ensures turns { IfOk result (λ x. AreFewTurns processes x.schedule) }
    ensures counts { Counts (IsFetched (run_demands program.now processes schedule.now)) (C.absents files.old)
        (C.absents files.new) (C.read_faults files.old) (C.read_faults files.new) result }
    ensures files { C.files files.new ≡ C.files files.old }
    ensures writes { C.write_faults files.new ≡ C.write_faults files.old }
    ensures room { C.sure_room files.new ≡ C.sure_room files.old }
{
    let source = match program_in(alloc, files, program) {
        Ok(source) => source,
        Err(stop) => return Err(stop),
    };
    match schedule_in(alloc, files, schedule, processes) {
        Ok(schedule) => Ok(RunInput { source, schedule }),
        Err(stop) => Err(stop),
    }
}

/// Runs the program in a file as so many processes, under the schedule in another, with the channels of
/// the mask ordered, and prints the processes' blocks and the summary.
pub fn run<C: Cabinet, O: Sink>(
    alloc: Global,
    program: &str,
    processes: u8,
    schedule: &str,
    mask: u32,
    files: &mut C,
    out: &mut O,
) -> Status
    requires range { AreFew processes }
    ensures { (x : Call) → Carries x (Run program.now processes schedule.now mask)
        (outside (C.files files.old) (C.absents files.old) (C.read_faults files.old) (C.write_faults files.old)
        (C.sure_room files.old) (O.given out.old) (O.faults out.old))
        (outside (C.files files.new) (C.absents files.new) (C.read_faults files.new) (C.write_faults files.new)
        (C.sure_room files.new) (O.given out.new) (O.faults out.new)) result }
{
    match demanded(alloc, program, processes, schedule, files) {
        Ok(demanded) => run_program(
            alloc,
            &demanded.source.program,
            processes,
            &demanded.schedule,
            mask,
            out,
        ),
        Err(stop) => tell(out, &stop),
    }
}
