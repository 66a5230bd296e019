//! The command `debug`.

ghost use Rattle.std.specs.Prelude.{◌≡◌, ℕ, List, Option, map};
ghost use Rattle.nm_top.specs.Commands as commands;
ghost use Rattle.nm_top.specs.Watches.{call, given};
ghost use Rattle.c_tree.specs.declared.program.Program.{Program};
ghost use Rattle.stack_code.specs.View.{seen_code};
ghost use Rattle.trace_file.specs.Rules.{IsTrace};
ghost use Rattle.c_process.specs.Standing.{IsCodeOf};
ghost use Rattle.nm_outside.specs.Causes.{BelongsTo};
ghost use Rattle.nm_top.specs.Debugging.{PrintsUntil, TakesTooMany, is_write_end};
ghost use Rattle.nm_top.specs.private.DebugWork.{TellsDebug, end_work};
ghost use Rattle.nm_top.specs.private.Works.{CarriesOut, Tells, outside};

use crate::pair::pair_in;
use crate::start::compiled;
use crate::status::Status;
use crate::stop::Stop;
use crate::talk::{End, talk};
use crate::tell::tell;
use debugger::Session;
use mailboxes::OrderedMail;
use nm_outside::{Cabinet, Sink, Source};
use report::Refusal;
use stack_code::Code;
use std::alloc::Global;
use trace_file::Trace;
use watchers::Watcher;

// What the end of a session comes to: a failed take, and an input that is too long, print their line.
fn tell_end<O: Sink>(end: End, out: &mut O) -> Status
    ensures tells { (text : List ℕ) (before : Option (List ℕ)) (was : ℕ) → PrintsUntil end before (O.given out.old) text
        → BelongsTo (is_write_end end) was (O.faults out.old)
        → Tells (end_work end text) before (O.given out.new) was (O.faults out.new) result }
    ensures full { result ≡ Status.InputFull → end ≡ End.InputFull }
{
    match end {
        End::Over => Status::Done,
        End::InputFault => tell(out, &Stop::Refused(Refusal::InputFault)),
        End::InputFull => tell(out, &Stop::Refused(Refusal::InputFull)),
        End::Write => Status::WriteFault,
        End::Memory => Status::WantOfMemory,
    }
}

// A session of the code under the trace, with the lines of the input.
fn debug_code<I: Source, O: Sink, W: Watcher>(
    alloc: Global,
    code: &Code,
    trace: &Trace,
    input: &mut I,
    out: &mut O,
    watch: &mut Vec<W>,
) -> Status
    requires trace { IsTrace trace.now }
    requires code { (p : Program) × IsCodeOf p (seen_code code.now) }
    ensures tells { (p : Program) → IsCodeOf p (seen_code code.now) → TellsDebug p trace.now
        (call (I.left input.old) (given (map W.watched watch.old.items) (map W.watched watch.new.items)))
        (O.given out.old) (O.given out.new) (O.faults out.old) (O.faults out.new) (I.faults input.old)
        (I.faults input.new)
        result }
    ensures full { result ≡ Status.InputFull → TakesTooMany (I.taken input.old) (I.taken input.new) }
{
    let Ok(mut session) = Session::<OrderedMail>::new(alloc, code, trace) else {
        return Status::WantOfMemory;
    };
    let end = talk(&mut session, alloc, input, watch, out);
    tell_end(end, out)
}

/// Replays the program in a file under the trace in another as the lines of the input ask, and prints the reply to each
/// before more input is taken.
pub fn debug<C: Cabinet, I: Source, O: Sink, W: Watcher>(
    alloc: Global,
    program: &str,
    trace: &str,
    files: &mut C,
    input: &mut I,
    out: &mut O,
    watch: &mut Vec<W>,
) -> Status
    ensures carries { CarriesOut (call (I.left input.old) (given (map W.watched watch.old.items)
        (map W.watched watch.new.items)))
        (commands.Debug program.now trace.now)
        (outside (C.files files.old) (C.absents files.old) (C.read_faults files.old) (C.write_faults files.old)
        (C.sure_room files.old) (O.given out.old) (O.faults out.old))
        (outside (C.files files.new) (C.absents files.new) (C.read_faults files.new) (C.write_faults files.new)
        (C.sure_room files.new) (O.given out.new) (O.faults out.new))
        (I.faults input.old) (I.faults input.new) result }
    ensures full { result ≡ Status.InputFull → TakesTooMany (I.taken input.old) (I.taken input.new) }
{
    let pair = match pair_in(alloc, files, program, trace) {
        Ok(pair) => pair,
        Err(stop) => return tell(out, &stop),
    };
    let Ok(code) = compiled(alloc, &pair.program) else {
        return Status::WantOfMemory;
    };
    debug_code(alloc, &code, &pair.trace, input, out, watch)
}
