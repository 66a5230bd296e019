//! Lines that go forwards.

ghost use Rattle.std.specs.Prelude.{◌≡◌, ◌∷◌, ◌<◌, ℕ, List, [], false, map, nat_le, is_err, option_map, IfOk, IfSome, OnOk};
ghost use Rattle.c_tree.specs.declared.program.Program.{Program};
ghost use Rattle.event_list.specs.Events.{count, messages};
ghost use Rattle.event_list.specs.Turns.{after, all_reached};
ghost use Rattle.world.specs.Outcomes.{outcome, reason};
ghost use Rattle.trace_file.specs.Content.{Content, count_of};
ghost use Rattle.event_list.specs.declared.Event.{Event};
ghost use Rattle.replay_core.specs.Gates.{seen_trace};
ghost use Rattle.c_process.specs.Values.{next_line_after};
ghost use Rattle.checkpoints.specs.Kept.{AreBelow};
ghost use Rattle.nm_outside.specs.Causes.{BelongsTo};
ghost use Rattle.report.specs.Printing.{Prints};
ghost use Rattle.report.specs.Replies as replies;
ghost use Rattle.watchers.specs.Watched.{Told, Watched};
ghost use Rattle.debugger.specs.Lines as lines;
ghost use Rattle.debugger.specs.Sessions.{Session as Defined, end_line, end_text, halt, halt_by, idle_line};
ghost use Rattle.debugger.specs.Sittings.{HasReplied, IsSameSitting, IsSessionOf};
ghost use Rattle.debugger.specs.Faults.{is_write};
ghost use Rattle.debugger.specs.private.Making.{HasGone, HasNotedStep, HasNotedTurn, HasRun, HasStepped, IsLonger, event_of, halt_text, step_text, turn_text, with_made};

use crate::fault::SessionFault;
use crate::session::Session;
use crate::watching::first_stop;
use c_process::CProc;
use checkpoints::Checkpoints;
use event_list::Event;
use mailboxes::Mail;
use nm_base::{ProcNo, WantOfMemory};
use nm_outside::{Failed, Sink};
use processes::Proc;
use report::{Notice, broke_line, event_line, notice_line, watcher_line};
use schedules::Turn;
use std::alloc::Global;
use watchers::{Watcher, tell};
use world::{Idle, Turned};

/// A world is kept each time that the number of its events is a multiple of this.
const KEPT_EVERY: u32 = 64;

/// Where a run came to a halt.
#[derive(Clone, Copy, Debug)]
pub(crate) enum Halt {
    /// No step makes an event any more.
    Over,
    /// A breakpoint fits after the event.
    Broke { k: u32, event: Event },
    /// A watcher stops after the event.
    Watched { k: usize, event: Event },
}

/// `step`: one event, by turns in cyclic order.
pub(crate) fn step<'c, M: Mail, W: Watcher, O: Sink>(
    session: &mut Session<'c, M>,
    alloc: Global,
    watch: &mut Vec<W>,
    out: &mut O,
) -> Result<(), SessionFault>
    ensures replied { (p : Program) (s : Defined) → IsSessionOf session.old p s
        → HasReplied lines.Step p s (map W.watched watch.old.items) session.new
        (map W.watched watch.new.items) (O.given out.old) (O.given out.new) result }
    ensures cause { BelongsTo (is_write result) (O.faults out.old) (O.faults out.new) }
    ensures same { IsSameSitting session.old session.new }
{
    let made = noted_step(session, alloc, watch)?;
    put_step(session, made, out)?;
    Ok(())
}

/// `step P`, once its turn was made.
pub(crate) fn after_turn<'c, M: Mail, W: Watcher, O: Sink>(
    session: &mut Session<'c, M>,
    alloc: Global,
    turned: &Turned,
    watch: &mut Vec<W>,
    out: &mut O,
) -> Result<(), SessionFault>
    ensures replied { (p : Program) (s : Defined) (q : ℕ) → HasGone p s q session.old turned.now
        → HasReplied (lines.StepOf q) p s (map W.watched watch.old.items) session.new
        (map W.watched watch.new.items) (O.given out.old) (O.given out.new) result }
    ensures cause { BelongsTo (is_write result) (O.faults out.old) (O.faults out.new) }
    ensures same { IsSameSitting session.old session.new }
{
    note_turn(session, alloc, turned, watch)?;
    put_turn(turned, out)?;
    Ok(())
}

/// `run`: as `step` again and again, until a breakpoint fits or a watcher stops.
pub(crate) fn run<'c, M: Mail, W: Watcher, O: Sink>(
    session: &mut Session<'c, M>,
    alloc: Global,
    watch: &mut Vec<W>,
    out: &mut O,
) -> Result<(), SessionFault>
    ensures replied { (p : Program) (s : Defined) → IsSessionOf session.old p s
        → HasReplied lines.Run p s (map W.watched watch.old.items) session.new
        (map W.watched watch.new.items) (O.given out.old) (O.given out.new) result }
    ensures cause { BelongsTo (is_write result) (O.faults out.old) (O.faults out.new) }
    ensures same { IsSameSitting session.old session.new }
{
    let end = run_on(session, alloc, watch)?;
    put_halt(session, end, out)?;
    Ok(())
}

// Makes steps until the run comes to a halt.
fn run_on<'c, M: Mail, W: Watcher>(
    session: &mut Session<'c, M>,
    alloc: Global,
    watch: &mut Vec<W>,
) -> Result<Halt, WantOfMemory>
    ensures run { IfOk result (λ end. (p : Program) (s : Defined) → IsSessionOf session.old p s
        → HasRun p s (map W.watched watch.old.items) session.new (map W.watched watch.new.items) end) }
    ensures same { IsSameSitting session.old session.new }
{
    while let Some(event) = noted_step(session, alloc, watch)? {
        if let Some(end) = halt_after(session, watch, &event) {
            return Ok(end);
        }
    }
    Ok(Halt::Over)
}

// ---- What is printed.

// What is printed of a step.
fn put_step<'c, M: Mail, O: Sink>(
    session: &Session<'c, M>,
    made: Option<Event>,
    out: &mut O,
) -> Result<(), Failed>
    ensures text { (p : Program) (s : Defined) → IsSessionOf session.now p s
        → Prints (O.given out.old) (O.given out.new) (O.faults out.old) (O.faults out.new)
        (step_text p session.now.trace s.run made) result }
    ensures cause { BelongsTo (is_err result) (O.faults out.old) (O.faults out.new) }
{
    match made {
        Some(event) => event_line(out, &event),
        None => put_end(session, out),
    }
}

// What is printed of a turn.
fn put_turn<O: Sink>(turned: &Turned, out: &mut O) -> Result<(), Failed>
    ensures { Prints (O.given out.old) (O.given out.new) (O.faults out.old) (O.faults out.new)
        (turn_text (outcome turned.now)) result }
{
    match turned {
        Turned::Went { event, .. } => event_line(out, event),
        Turned::Idle(why) => notice_line(out, idle_notice(*why)),
    }
}

// What is printed where a run came to a halt.
fn put_halt<'c, M: Mail, O: Sink>(
    session: &Session<'c, M>,
    end: Halt,
    out: &mut O,
) -> Result<(), Failed>
    ensures text { (p : Program) (s : Defined) → IsSessionOf session.now p s
        → Prints (O.given out.old) (O.given out.new) (O.faults out.old) (O.faults out.new)
        (halt_text p session.now.trace s.run end) result }
    ensures cause { BelongsTo (is_err result) (O.faults out.old) (O.faults out.new) }
{
    match end {
        Halt::Over => put_end(session, out),
        Halt::Broke { k, event } => broke_line(out, k, &event),
        Halt::Watched { k, event } => watcher_line(out, k, &event),
    }
}

// The end of a run: no step makes an event any more.
fn put_end<'c, M: Mail, O: Sink>(session: &Session<'c, M>, out: &mut O) -> Result<(), Failed>
    ensures text { (p : Program) (s : Defined) → IsSessionOf session.now p s
        → Prints (O.given out.old) (O.given out.new) (O.faults out.old) (O.faults out.new)
        (end_line p (seen_trace session.now.trace) s.run) result }
    ensures cause { BelongsTo (is_err result) (O.faults out.old) (O.faults out.new) }
{
    notice_line(out, end_notice(is_finished(session)))
}

fn end_notice(finished: bool) -> Notice
    ensures { replies.notice_line result ≡ end_text finished }
{
    if finished {
        Notice::Finished
    } else {
        Notice::Stuck
    }
}

// Whether each process has its recorded count.
fn is_finished<'c, M: Mail>(session: &Session<'c, M>) -> bool
    ensures { (p : Program) (s : Defined) → IsSessionOf session.now p s
        → result ≡ all_reached (seen_trace session.now.trace) s.run }
{
    for no in 0..session.trace.n() {
        if !has_reached(session, ProcNo { no }) {
            return false;
        }
    }
    true
}

fn has_reached<'c, M: Mail>(session: &Session<'c, M>, q: ProcNo) -> bool
    requires { q.no < session.now.trace.n }
    ensures { (p : Program) (s : Defined) → IsSessionOf session.now p s
        → result ≡ nat_le (count_of session.now.trace q.no) (count s.run q.no) }
{
    session.trace.count(q) <= session.replay.world().count(q)
}

// Why a turn changed nothing.
fn idle_notice(why: Idle) -> Notice
    ensures { replies.notice_line result ≡ idle_line (reason why) }
{
    match why {
        Idle::Over => Notice::IdleOver,
        Idle::AtCount => Notice::IdleCount,
        Idle::NoLetter => Notice::IdleLetter,
    }
}

// ---- Where a run stops.

// Where the run stops after its last event, if it does: at the lowest breakpoint that fits, or else at
// the lowest watcher that stops.
fn halt_after<'c, M: Mail, W: Watcher>(
    session: &Session<'c, M>,
    watch: &Vec<W>,
    event: &Event,
) -> Option<Halt>
    requires { event.now.proc.no < session.now.trace.n }
    ensures { (p : Program) (s : Defined) → IsSessionOf session.now p s
        → option_map (halt_text p session.now.trace s.run) result
        ≡ halt p (seen_trace session.now.trace) s (map W.watched watch.now.items) event.now }
{
    let next = next_line(session, event.proc);
    let broke = session.breaks.fitting(event.proc, event.kind, next);
    halt_by(event, broke, first_stop(watch))
}

// At a breakpoint of this place, or else at a watcher of this number.
fn halt_by(event: &Event, broke: Option<u32>, watcher: Option<usize>) -> Option<Halt>
    ensures { (p : Program) (t : Content) (R : List Event)
        → option_map (halt_text p t R) result ≡ halt_by event.now broke watcher }
{
    if let Some(k) = broke {
        return Some(Halt::Broke { k, event: *event });
    }
    match watcher {
        Some(k) => Some(Halt::Watched { k, event: *event }),
        None => None,
    }
}

// The line of the process's next event, where this is a Line.
fn next_line<'c, M: Mail>(session: &Session<'c, M>, q: ProcNo) -> Option<u32>
    requires { q.no < session.now.trace.n }
    ensures { (p : Program) (s : Defined) → IsSessionOf session.now p s
        → result ≡ next_line_after p session.now.trace.n q.no (messages s.run q.no) (count s.run q.no) }
{
    session.replay.world().seat(q).process().next_line()
}

// ---- How events are made.

// A step, of which the watchers are told.
fn noted_step<'c, M: Mail, W: Watcher>(
    session: &mut Session<'c, M>,
    alloc: Global,
    watch: &mut Vec<W>,
) -> Result<Option<Event>, WantOfMemory>
    ensures noted { IfOk result (λ e. (p : Program) (s : Defined) → IsSessionOf session.old p s
        → HasNotedStep p s (map W.watched watch.old.items) session.new (map W.watched watch.new.items) e) }
    ensures longer { IfOk result (λ o. IfSome o (IsLonger session.old session.new)) }
    ensures same { IsSameSitting session.old session.new }
{
    match make_step(session, alloc)? {
        Some(event) => {
            note(session, alloc, &event, watch)?;
            Ok(Some(event))
        }
        None => Ok(None),
    }
}

// Tells the watchers the event of a turn, if it made one.
fn note_turn<'c, M: Mail, W: Watcher>(
    session: &mut Session<'c, M>,
    alloc: Global,
    turned: &Turned,
    watch: &mut Vec<W>,
) -> Result<(), WantOfMemory>
    ensures noted { OnOk result ((p : Program) (s : Defined) (q : ℕ) → HasGone p s q session.old turned.now
        → HasNotedTurn p s q (map W.watched watch.old.items) session.new (map W.watched watch.new.items) turned.now) }
    ensures same { IsSameSitting session.old session.new }
{
    match turned {
        Turned::Went { event, .. } => note(session, alloc, event, watch),
        Turned::Idle(_) => Ok(()),
    }
}

/// One turn of a process with pick 0. Nothing is told of it yet.
pub(crate) fn make_turn<'c, M: Mail>(
    session: &mut Session<'c, M>,
    alloc: Global,
    q: ProcNo,
) -> Result<Turned, WantOfMemory>
    requires { q.no < session.old.trace.n }
    ensures gone { IfOk result (λ what. (p : Program) (s : Defined) → IsSessionOf session.old p s
        → HasGone p s q.no session.new what) }
    ensures same { IsSameSitting session.old session.new }
{
    session.replay.turn(alloc, Turn { proc: q, pick: 0 })
}

// A step. Nothing is told of it yet.
fn make_step<'c, M: Mail>(
    session: &mut Session<'c, M>,
    alloc: Global,
) -> Result<Option<Event>, WantOfMemory>
    ensures stepped { IfOk result (λ e. (p : Program) (s : Defined) → IsSessionOf session.old p s
        → HasStepped p s session.new e) }
    ensures longer { IfOk result (λ o. IfSome o (IsLonger session.old session.new)) }
    ensures same { IsSameSitting session.old session.new }
{
    session.replay.step(alloc)
}

/// Tells the watchers an event that was made, and keeps it among the latest and, now and then, the world.
pub(crate) fn note<'c, M: Mail, W: Watcher>(
    session: &mut Session<'c, M>,
    alloc: Global,
    event: &Event,
    watch: &mut Vec<W>,
) -> Result<(), WantOfMemory>
    ensures noted { OnOk result ((p : Program) (s : Defined) → IsSessionOf session.old p s
        → IsSessionOf session.new p (with_made s event.now)) }
    ensures told { (dropped : ℕ)
        × Told (event.now ∷ []) (map W.watched watch.old.items) (map W.watched watch.new.items) dropped }
    ensures replay { session.new.replay ≡ session.old.replay }
    ensures same { IsSameSitting session.old session.new }
{
    let _dropped = tell(alloc, watch, event);
    session.latest.push(event);
    keep(session, alloc)
}

// Keeps the world where its number of events is a multiple of 64 and no kept world has as many.
fn keep<'c, M: Mail>(session: &mut Session<'c, M>, alloc: Global) -> Result<(), WantOfMemory>
    ensures kept { (p : Program) (s : Defined) → IsSessionOf session.old p s → IsSessionOf session.new p s }
    ensures replay { session.new.replay ≡ session.old.replay }
    ensures same { IsSameSitting session.old session.new }
{
    let made = session.replay.world().events();
    if made % KEPT_EVERY != 0 || is_kept(&session.kept, made) {
        return Ok(());
    }
    session.kept.keep(alloc, session.replay.world())
}

// Whether a kept world has as many events.
fn is_kept<'c, M: Mail>(kept: &Checkpoints<CProc<'c>, M>, made: u32) -> bool
    ensures { result ≡ false → AreBelow made kept.now }
{
    match kept.longest() {
        Some(longest) => longest >= made,
        None => false,
    }
}
