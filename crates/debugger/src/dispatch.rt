//! The lines of a session.

ghost use Rattle.std.specs.Prelude.{◌≡◌, ◌<◌, ◌↔◌, map, IfOk};
ghost use Rattle.c_tree.specs.declared.program.Program.{Program};
ghost use Rattle.nm_outside.specs.Causes.{BelongsTo};
ghost use Rattle.debugger.specs.declared.dispatch.Next.TheVariants as next;
ghost use Rattle.debugger.specs.Lines.{Quit, asked_of};
ghost use Rattle.debugger.specs.Lines as lines;
ghost use Rattle.debugger.specs.Sessions.{Session as Defined};
ghost use Rattle.debugger.specs.Sittings.{HasReplied, IsSameSitting, IsSessionOf};
ghost use Rattle.debugger.specs.private.Asking.{IsAmong, asked};
ghost use Rattle.debugger.specs.Faults.{is_write};

use crate::answer::{clear_break, drop_watcher, list_watchers, set_break};
use crate::backward::{avoid, back, order, stop};
use crate::breakpoints::Break;
use crate::fault::SessionFault;
use crate::forward::{after_turn, make_turn, run, step};
use crate::line::{Line, read_line};
use crate::looking::{
    look_clock, look_frames, look_last, look_mail, look_output, look_places, look_value,
    not_a_line, not_a_process,
};
use crate::session::Session;
use mailboxes::Mail;
use nm_base::ProcNo;
use nm_outside::Sink;
use std::alloc::Global;
use watchers::Watcher;

/// Whether a session goes on.
#[derive(Clone, Copy, Debug, PartialEq, Eq)]
pub enum Next {
    /// It waits for its next line.
    More,
    /// The line was `quit`.
    Quit,
}

impl<'c, M: Mail> Session<'c, M> {
    /// Answers a line, without its newline: writes its reply, and tells the watchers each event that it
    /// makes. After a fault the session isn't used any more.
    pub fn line<W: Watcher, O: Sink>(
        &mut self,
        alloc: Global,
        text: &[u8],
        watch: &mut Vec<W>,
        out: &mut O,
    ) -> Result<Next, SessionFault>
        // The reply, and the session and the watchers after it, are those that are defined for what the line asks.
        ensures replied { (p : Program) (s : Defined) → IsSessionOf self.old p s
            → HasReplied (asked_of self.old.trace.n text.now) p s (map W.watched watch.old.items) self.new
            (map W.watched watch.new.items) (O.given out.old) (O.given out.new) result }
        // Write comes exactly where the sink failed.
        ensures cause { BelongsTo (is_write result) (O.faults out.old) (O.faults out.new) }
        // The session ends exactly with a line `quit`.
        ensures next { IfOk result (λ what. (what ≡ next.Quit) ↔ (asked_of self.old.trace.n text.now ≡ Quit)) }
        ensures same { IsSameSitting self.old self.new }
    {
        let line = read_line(text, self.trace.n());
        answer(self, alloc, line, watch, out)?;
        Ok(next_after(&line))
    }
}

// Whether the session goes on after a line.
fn next_after(line: &Line<'_>) -> Next
    ensures { (result ≡ next.Quit) ↔ (asked line.now ≡ Quit) }
{
    match line {
        Line::Quit => Next::Quit,
        _ => Next::More,
    }
}

// `step P`
fn step_of<'c, M: Mail, W: Watcher, O: Sink>(
    session: &mut Session<'c, M>,
    alloc: Global,
    q: ProcNo,
    watch: &mut Vec<W>,
    out: &mut O,
) -> Result<(), SessionFault>
    requires { q.no < session.old.trace.n }
    ensures replied { (p : Program) (s : Defined) → IsSessionOf session.old p s
        → HasReplied (lines.StepOf q.no) p s (map W.watched watch.old.items) session.new
        (map W.watched watch.new.items) (O.given out.old) (O.given out.new) result }
    ensures cause { BelongsTo (is_write result) (O.faults out.old) (O.faults out.new) }
    ensures same { IsSameSitting session.old session.new }
{
    let turned = make_turn(session, alloc, q)?;
    after_turn(session, alloc, &turned, watch, out)
}

// The reply to what a line asks.
fn answer<'c, M: Mail, W: Watcher, O: Sink>(
    session: &mut Session<'c, M>,
    alloc: Global,
    line: Line<'_>,
    watch: &mut Vec<W>,
    out: &mut O,
) -> Result<(), SessionFault>
    requires { IsAmong session.old.trace.n line }
    ensures replied { (p : Program) (s : Defined) → IsSessionOf session.old p s
        → HasReplied (asked line.entry) p s (map W.watched watch.old.items) session.new
        (map W.watched watch.new.items) (O.given out.old) (O.given out.new) result }
    ensures cause { BelongsTo (is_write result) (O.faults out.old) (O.faults out.new) }
    ensures same { IsSameSitting session.old session.new }
{
    match line {
        Line::Nothing => Ok(()),
        Line::Quit => Ok(()),
        Line::NotALine => not_a_line(session, out),
        Line::NotAProcess => not_a_process(session, out),
        Line::SetBreak { p, at } => set_break(session, Break { proc: p, at }, out),
        Line::Clear { k } => clear_break(session, k, out),
        Line::Step => step(session, alloc, watch, out),
        Line::StepOf { p } => step_of(session, alloc, p, watch, out),
        Line::Run => run(session, alloc, watch, out),
        Line::Back { k } => back(session, alloc, k, watch, out),
        Line::Print { p, name, index } => look_value(session, p, name, index, out),
        Line::Frames { p } => look_frames(session, p, out),
        Line::Where => look_places(session, out),
        Line::Output { p } => look_output(session, p, out),
        Line::Mail { p } => look_mail(session, p, out),
        Line::Clock { p } => look_clock(session, p, out),
        Line::Last => look_last(session, out),
        Line::Watch => list_watchers(session, watch, out),
        Line::Detach { k } => drop_watcher(session, watch, k, out),
        Line::Stop { p, k } => stop(session, alloc, p, k, watch, out),
        Line::Avoid { p, k } => avoid(session, alloc, p, k, watch, out),
        Line::Compare { p, k, q, j } => order(session, alloc, (p, k), (q, j), watch, out),
    }
}
