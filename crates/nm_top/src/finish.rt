//! The command `replay` without a schedule: the replay is finished by round robin.

ghost use Rattle.std.specs.Prelude.{◌≡◌, ℕ, List, Option, [], map, true, slice_index, IfSome};
ghost use Rattle.c_tree.specs.declared.program.Program.{Program};
ghost use Rattle.stack_code.specs.View.{seen_code};
ghost use Rattle.event_list.specs.Events.{count};
ghost use Rattle.event_list.specs.Turns.{all_reached};
ghost use Rattle.trace_file.specs.Content.{Content, count_of};
ghost use Rattle.trace_file.specs.Rules.{IsTrace};
ghost use Rattle.c_process.specs.Standing.{IsCodeOf};
ghost use Rattle.replay_core.specs.Gates.{seen_trace};
ghost use Rattle.nm_top.specs.Commands as commands;
ghost use Rattle.nm_top.specs.Finishing.{finished};
ghost use Rattle.watchers.specs.Watched.{Watched};
ghost use Rattle.nm_top.specs.Watches.{Given, Hear, call, given};
ghost use Rattle.nm_top.specs.Heard.{Hears};
ghost use Rattle.nm_top.specs.private.Replaying.{HasFinishedRun, IfStuck, ReplaysProgram, WasUnfinished};
ghost use Rattle.nm_top.specs.private.Tellings.{HearsFinish, IsFinishWork, IsStuckStop, Told};
ghost use Rattle.nm_top.specs.private.Works.{Carries, outside};

use crate::pair::{Pair, pair_in};
use crate::replay::{begun, put_replay};
use crate::start::compiled;
use crate::status::Status;
use crate::stop::Stop;
use crate::tell::tell;
use crate::watching::tell_each;
use c_process::CProc;
use mailboxes::OrderedMail;
use nm_base::ProcNo;
use nm_outside::{Cabinet, Sink};
use replay_core::{Finished, Replay, ReplayFault};
use report::Refusal;
use stack_code::Code;
use std::alloc::Global;
use trace_file::Trace;
use watchers::Watcher;

// Each process's recorded number of events, and 0 for processes that there aren't.
fn counts_of(trace: &Trace) -> [u32; 32]
    requires { IsTrace trace.now }
    ensures { (p : ℕ) → slice_index result p ≡ count_of trace.now p }
{
    let mut counts = [0; 32];
    for p in 0..trace.n() {
        counts[p as usize] = trace.count(ProcNo { no: p });
    }
    counts
}

/// What stops a command whose replay is stuck after these events.
pub fn stuck<'a>(trace: &Trace, events: [u32; 32]) -> Stop<'a>
    requires { IsTrace trace.now }
    ensures { IsStuckStop trace.now events result }
{
    let n = trace.n();
    let counts = counts_of(trace);
    Stop::Refused(Refusal::Stuck { n, events, counts })
}

// Prints a finished replay.
fn tell_finished<O: Sink, W: Watcher>(
    out: &mut O,
    replay: &Replay<CProc<'_>, OrderedMail>,
    round: Finished,
    watch: &Vec<W>,
) -> Status
    ensures told { (p : Program) (t : Content) (first : List Watched)
        → ReplaysProgram replay.now p t (finished p t).events
        → all_reached (seen_trace t) (finished p t).events ≡ true
        → round.turns ≡ (finished p t).turns → round.idle ≡ (finished p t).idle
        → Hear (finished p t).events (given first (map W.watched watch.now.items))
        → Told (IsFinishWork p t (given first (map W.watched watch.now.items)))
        (O.given out.old) (O.given out.new) (O.faults out.old) (O.faults out.new) result }
    ensures heard { (p : Program) (t : Content) (first : List Watched)
        → Hear (finished p t).events (given first (map W.watched watch.now.items))
        → HearsFinish p t (given first (map W.watched watch.now.items)) result }
{
    match put_replay(out, replay.world(), round.turns, round.idle, watch) {
        Ok(()) => Status::Done,
        Err(_) => Status::WriteFault,
    }
}

// Prints why a replay wasn't finished.
fn tell_unfinished<O: Sink>(out: &mut O, fault: ReplayFault, stuck: &Stop<'_>) -> Status
    ensures told { (p : Program) (t : Content) (x : Given) → WasUnfinished p t x stuck.now fault
        → Told (IsFinishWork p t x) (O.given out.old) (O.given out.new) (O.faults out.old) (O.faults out.new) result }
    ensures heard { (p : Program) (t : Content) (x : Given) → WasUnfinished p t x stuck.now fault
        → HearsFinish p t x result }
{
    match fault {
        ReplayFault::Stuck { .. } => tell(out, stuck),
        ReplayFault::Memory => Status::WantOfMemory,
    }
}

// Tells the watchers of each event of a replay that was finished, and prints it, or why it is none.
fn tell_finish<O: Sink, W: Watcher>(
    alloc: Global,
    replay: &Replay<CProc<'_>, OrderedMail>,
    round: Result<Finished, ReplayFault>,
    stuck: &Stop<'_>,
    watch: &mut Vec<W>,
    out: &mut O,
) -> Status
    ensures told { (p : Program) (t : Content) → HasFinishedRun replay.now p t round
        → IfStuck round (λ events. IsStuckStop t events stuck.now)
        → Told (IsFinishWork p t (given (map W.watched watch.old.items) (map W.watched watch.new.items)))
        (O.given out.old) (O.given out.new) (O.faults out.old) (O.faults out.new) result }
    ensures heard { (p : Program) (t : Content) → HasFinishedRun replay.now p t round
        → IfStuck round (λ events. IsStuckStop t events stuck.now)
        → HearsFinish p t (given (map W.watched watch.old.items) (map W.watched watch.new.items)) result }
{
    tell_each(alloc, watch, replay.events());
    match round {
        Ok(round) => tell_finished(out, replay, round, watch),
        Err(fault) => tell_unfinished(out, fault, stuck),
    }
}

// What stops the command where finishing is stuck.
fn stuck_after<'a>(trace: &Trace, round: &Result<Finished, ReplayFault>) -> Stop<'a>
    requires { IsTrace trace.now }
    ensures { IfStuck round.now (λ events. IsStuckStop trace.now events result) }
{
    match round {
        Err(ReplayFault::Stuck { counts }) => stuck(trace, *counts),
        _ => Stop::Memory,
    }
}

/// Replays the program in a file under the trace in another to its recorded end, tells the watchers of each event, and
/// prints the processes' blocks, the summary, the line of its turns and those of the watchers.
pub fn finish<C: Cabinet, O: Sink, W: Watcher>(
    alloc: Global,
    program: &str,
    trace: &str,
    files: &mut C,
    out: &mut O,
    watch: &mut Vec<W>,
) -> Status
    ensures carries { (input : Option (List ℕ))
        → Carries (call input (given (map W.watched watch.old.items) (map W.watched watch.new.items)))
        (commands.Finish program.now trace.now)
        (outside (C.files files.old) (C.absents files.old) (C.read_faults files.old) (C.write_faults files.old)
        (C.sure_room files.old) (O.given out.old) (O.faults out.old))
        (outside (C.files files.new) (C.absents files.new) (C.read_faults files.new) (C.write_faults files.new)
        (C.sure_room files.new) (O.given out.new) (O.faults out.new)) result }
    ensures told { IfSome (C.files files.old) (λ held. Hears (commands.Finish program.now trace.now) held
        result (given (map W.watched watch.old.items) (map W.watched watch.new.items))) }
{
    let pair = match pair_in(alloc, files, program, trace) {
        Ok(pair) => pair,
        Err(stop) => return tell(out, &stop),
    };
    let Ok(code) = compiled(alloc, &pair.program) else {
        return Status::WantOfMemory;
    };
    let Ok(mut replay) = begun(alloc, &code, &pair.trace) else {
        return Status::WantOfMemory;
    };
    let round = replay.finish(alloc);
    let stuck = stuck_after(&pair.trace, &round);
    tell_finish(alloc, &replay, round, &stuck, watch, out)
}
