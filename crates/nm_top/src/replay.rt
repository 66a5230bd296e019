//! The command `replay` with a schedule.

ghost use Rattle.std.specs.Prelude.{◌≡◌, ℕ, ◌+◌, ◌-◌, ◌≤◌, ◌++◌, List, [], length, map, take, IfSome, IfOk, OnErr, Option};
ghost use Rattle.nm_outside.specs.Files.{Files};
ghost use Rattle.c_tree.specs.declared.program.Program.{Program};
ghost use Rattle.stack_code.specs.View.{seen_code};
ghost use Rattle.schedules.specs.declared.schedule.Turn.{Turn};
ghost use Rattle.schedules.specs.Bounds.{AreFewTurns};
ghost use Rattle.event_list.specs.declared.Event.{Event};
ghost use Rattle.event_list.specs.Turns.{after};
ghost use Rattle.world.specs.Outcomes.{outcome};
ghost use Rattle.trace_file.specs.Content.{Content};
ghost use Rattle.trace_file.specs.Rules.{IsTrace};
ghost use Rattle.c_process.specs.Standing.{IsCodeOf};
ghost use Rattle.report.specs.Printing.{Prints};
ghost use Rattle.report.specs.Runs.{RunsProgram, blocks};
ghost use Rattle.report.specs.Texts.{turns_line};
ghost use Rattle.nm_top.specs.Commands as commands;
ghost use Rattle.nm_top.specs.Schedules.{IsSchedule};
ghost use Rattle.nm_top.specs.Demands.{AreReplayed, HoldsIn, IsFetched, schedule_file};
ghost use Rattle.nm_top.specs.Answers.{demands_of};
ghost use Rattle.nm_top.specs.Finishing.{replayed};
ghost use Rattle.nm_top.specs.Watches.{call, given, watch_lines};
ghost use Rattle.nm_top.specs.Heard.{Hears};
ghost use Rattle.nm_top.specs.private.Replaying.{HasReplayed, ReplaysProgram};
ghost use Rattle.nm_top.specs.private.Tellings.{HearsReplay, IsReplayWork, Told};
ghost use Rattle.nm_top.specs.private.Works.{Carries, Counts, Gives, outside};

use crate::fetch::schedule_in;
use crate::pair::{Pair, pair_in};
use crate::start::compiled;
use crate::status::Status;
use crate::stop::Stop;
use crate::tell::tell;
use crate::watching::{put_watchers, tell_each};
use c_process::{CProc, seats_of};
use mailboxes::OrderedMail;
use nm_base::WantOfMemory;
use nm_outside::{Cabinet, Failed, Sink};
use replay_core::Replay;
use report::{blocks, turns_line};
use schedules::Schedule;
use stack_code::Code;
use std::alloc::Global;
use trace_file::Trace;
use watchers::Watcher;
use world::{Turned, World};

/// The replay of the code under the trace, before its first event.
pub fn begun<'c>(
    alloc: Global,
    code: &'c Code,
    trace: &Trace,
) -> Result<Replay<CProc<'c>, OrderedMail>, WantOfMemory>
    requires trace { IsTrace trace.now }
    requires code { (p : Program) × IsCodeOf p (seen_code code.now) }
    ensures { IfOk result (λ r. (p : Program) → IsCodeOf p (seen_code code.now) → ReplaysProgram r p trace.now []) }
{
    let seats = seats_of(alloc, code, trace.n())?;
    let replay = Replay::new(alloc, seats, trace)?;
    Ok(replay)
}

// 1 for a turn that made no event, and else 0.
fn idle_turns(turned: &Turned) -> u32
    ensures few { result ≤ 1 }
    ensures counts { (E : List Event) → result + length (after E (outcome turned.now)) ≡ length E + 1 }
{
    match turned {
        Turned::Idle(_) => 1,
        Turned::Went { .. } => 0,
    }
}

/// Makes the turns of a schedule, and answers how many of them made no event.
pub fn replay_turns(
    alloc: Global,
    replay: &mut Replay<CProc<'_>, OrderedMail>,
    schedule: &Schedule,
) -> Result<u32, WantOfMemory>
    requires turns { AreFewTurns (length replay.old.world.processes) schedule.now }
    ensures made { IfOk result (λ idle. (p : Program) (t : Content) → ReplaysProgram replay.old p t []
        → ReplaysProgram replay.new p t (replayed p t schedule.now)
        × (idle ≡ length schedule.now - length (replayed p t schedule.now))) }
    ensures began { OnErr result ((p : Program) (t : Content) → ReplaysProgram replay.old p t []
        → (many : ℕ) × ReplaysProgram replay.new p t (replayed p t (take many schedule.now))) }
{
    let mut idle = 0;
    for i in 0..schedule.turns() {
        let turned = replay.turn(alloc, schedule.turn(i))?;
        idle += idle_turns(&turned);
    }
    Ok(idle)
}

/// Prints the blocks and the summary of a replay, the line of its turns, and those of the watchers.
pub fn put_replay<O: Sink, W: Watcher>(
    out: &mut O,
    world: &World<CProc<'_>, OrderedMail>,
    turns: u32,
    idle: u32,
    watch: &Vec<W>,
) -> Result<(), Failed>
    ensures { (p : Program) (E : List Event) → RunsProgram world.now p E
        → Prints (O.given out.old) (O.given out.new) (O.faults out.old) (O.faults out.new)
        (blocks p (length world.now.processes) E ++ turns_line turns idle
        ++ watch_lines 0 (map W.watched watch.now.items)) result }
{
    blocks(out, world)?;
    turns_line(out, turns, idle)?;
    put_watchers(out, watch)
}

// Tells the watchers of each event of a replay, and prints it where all turns were made.
fn tell_replay<O: Sink, W: Watcher>(
    alloc: Global,
    replay: &Replay<CProc<'_>, OrderedMail>,
    turns: u32,
    idle: Result<u32, WantOfMemory>,
    watch: &mut Vec<W>,
    out: &mut O,
) -> Status
    ensures told { (p : Program) (t : Content) (ts : List Turn) → HasReplayed replay.now p t ts idle
        → turns ≡ length ts → Told (IsReplayWork p t ts
        (given (map W.watched watch.old.items) (map W.watched watch.new.items)))
        (O.given out.old) (O.given out.new) (O.faults out.old) (O.faults out.new) result }
    ensures heard { (p : Program) (t : Content) (ts : List Turn) → HasReplayed replay.now p t ts idle
        → HearsReplay p t ts (given (map W.watched watch.old.items) (map W.watched watch.new.items)) result }
{
    tell_each(alloc, watch, replay.events());
    let Ok(idle) = idle else {
        return Status::WantOfMemory;
    };
    match put_replay(out, replay.world(), turns, idle, watch) {
        Ok(()) => Status::Done,
        Err(_) => Status::WriteFault,
    }
}

/// What a replay with a schedule demands.
#[derive(Drop)]
pub struct ReplayInput {
    pair: Pair,
    schedule: Schedule,
}

// A program, a trace of it, and a schedule for as many processes as the trace has.
fn scheduled<'a, C: Cabinet>(
    alloc: Global,
    program: &'a str,
    trace: &'a str,
    schedule: &'a str,
    files: &mut C,
) -> Result<ReplayInput, Stop<'a>>
    ensures gives { IfSome (C.files files.old) (λ held. Gives
        (λ x. AreReplayed held program.now trace.now x.pair.program x.pair.trace
        × HoldsIn held (λ text. IsSchedule x.pair.trace.n text x.schedule) (schedule_file schedule.now))
        (demands_of (commands.Replay program.now trace.now schedule.now)) held result) }
    ensures trace { IfOk result (λ x. IsTrace x.pair.trace) }
    ensures turns { IfOk result (λ x. AreFewTurns x.pair.trace.n x.schedule) }
    ensures counts { Counts (IsFetched (demands_of (commands.Replay program.now trace.now schedule.now)))
        (C.absents files.old) (C.absents files.new) (C.read_faults files.old) (C.read_faults files.new) result }
    ensures files { C.files files.new ≡ C.files files.old }
    ensures writes { C.write_faults files.new ≡ C.write_faults files.old }
    ensures room { C.sure_room files.new ≡ C.sure_room files.old }
{
    let pair = match pair_in(alloc, files, program, trace) {
        Ok(pair) => pair,
        Err(stop) => return Err(stop),
    };
    match schedule_in(alloc, files, schedule, pair.trace.n()) {
        Ok(schedule) => Ok(ReplayInput { pair, schedule }),
        Err(stop) => Err(stop),
    }
}

/// Replays the program in a file under the trace in another by the turns of a schedule, tells the watchers of each
/// event, and prints the processes' blocks, the summary, the line of its turns and those of the watchers.
pub fn replay<C: Cabinet, O: Sink, W: Watcher>(
    alloc: Global,
    program: &str,
    trace: &str,
    schedule: &str,
    files: &mut C,
    out: &mut O,
    watch: &mut Vec<W>,
) -> Status
    ensures carries { (input : Option (List ℕ))
        → Carries (call input (given (map W.watched watch.old.items) (map W.watched watch.new.items)))
        (commands.Replay program.now trace.now schedule.now)
        (outside (C.files files.old) (C.absents files.old) (C.read_faults files.old) (C.write_faults files.old)
        (C.sure_room files.old) (O.given out.old) (O.faults out.old))
        (outside (C.files files.new) (C.absents files.new) (C.read_faults files.new) (C.write_faults files.new)
        (C.sure_room files.new) (O.given out.new) (O.faults out.new)) result }
    ensures told { IfSome (C.files files.old) (λ held. Hears (commands.Replay program.now trace.now schedule.now) held
        result (given (map W.watched watch.old.items) (map W.watched watch.new.items))) }
{
    let input = match scheduled(alloc, program, trace, schedule, files) {
        Ok(input) => input,
        Err(stop) => return tell(out, &stop),
    };
    let Ok(code) = compiled(alloc, &input.pair.program) else {
        return Status::WantOfMemory;
    };
    let Ok(mut replay) = begun(alloc, &code, &input.pair.trace) else {
        return Status::WantOfMemory;
    };
    let idle = replay_turns(alloc, &mut replay, &input.schedule);
    tell_replay(alloc, &replay, input.schedule.turns(), idle, watch, out)
}
