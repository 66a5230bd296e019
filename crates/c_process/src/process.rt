//! A process that runs code.

ghost use Rattle.std.specs.Prelude.{◌≡◌, ◌<◌, ◌≤◌, ℕ, List, [], ◌∷◌, IfOk, IsTrue};
ghost use Rattle.nm_base.specs.declared.kind.Kind.{Kind};
ghost use Rattle.nm_base.specs.declared.limits.TheConstants.{MAX_PROCESSES};
ghost use Rattle.nm_base.specs.Message.{Message};
ghost use Rattle.nm_base.specs.Scripts.{Script};
ghost use Rattle.c_tree.specs.declared.program.Program.{Program};
ghost use Rattle.c_tree.specs.Play.{script_of};
ghost use Rattle.stack_code.specs.View.{seen_code};
ghost use Rattle.proc_machine.specs.Machines.{machine_setting, next_of, state_of, letters_sent};
ghost use Rattle.proc_machine.specs.Pauses.{status_of};
ghost use Rattle.c_process.specs.Standing.{IsCodeOf, main_line_of};
ghost use Rattle.c_process.specs.Shown.{end_of, look_of, line_in, output_after, line_after};
ghost use Rattle.c_process.specs.Following.{looks_at};

use nm_base::{Kind, ProcNo, WantOfMemory};
use proc_machine::{Machine, Pause};
use processes::{Look, Proc};
use stack_code::Code;
use std::alloc::Global;

/// A process of a program, by the code of the program: this number of so many processes, after so
/// many events.
#[derive(Drop)]
pub struct CProc<'c> {
    pub(crate) code: &'c Code,
    pub(crate) machine: Box<Machine<'c>>,
    pub(crate) me: ProcNo,
    pub(crate) count: u32,
    pub(crate) look: Look,
    pub ghost runs: { (machine_setting machine.value).code ≡ seen_code code.now },
    pub ghost named: { (machine_setting machine.value).me ≡ me },
    pub ghost few: { letters_sent machine.value ≤ count },
    pub ghost seen: { IsTrue (looks_at look (next_of machine.value)) },
}

impl<'c> CProc<'c> {
    /// The process of this number among `n`, before its first event. `me` is below `n`, and `n` is 1 to 32.
    pub fn new(alloc: Global, code: &'c Code, me: ProcNo, n: u8) -> Result<CProc<'c>, WantOfMemory>
        requires me { me.no < n }
        requires few { n ≤ MAX_PROCESSES }
        ensures stands { IfOk result
            (λ x. (p : Program) → IsCodeOf p (seen_code code.now)
            → ⟦<CProc<'c> as Proc>⟧.stands_for x (script_of p n me.no) [] 0) }
        ensures name { IfOk result (λ x. ⟦<CProc<'c> as Proc>⟧.name_of x ≡ me) }
        ensures origin { IfOk result (λ x. ⟦<CProc<'c> as Proc>⟧.origin_of x ≡ (seen_code code.now, n)) }
        ensures count { IfOk result (λ x. ⟦<CProc<'c> as Proc>⟧.count_of x ≡ 0) }
    {
        let machine = boxed(alloc, Machine::new(alloc, code, me, n)?)?;
        let look = look_at(machine.pending(), Look::Ended { value: 0 });
        Ok(CProc {
            code,
            machine,
            me,
            count: 0,
            look,
        })
    }

    /// The bytes that it printed so far.
    pub fn output(&self) -> &[u8]
        ensures { (p : Program) (s : Script) (letters : List Message) (k : ℕ)
            → IsCodeOf p (⟦<CProc<'c> as Proc>⟧.origin_of self.now).0
            → ⟦<CProc<'c> as Proc>⟧.stands_for self.now s letters k
            → result.now ≡ output_after p (⟦<CProc<'c> as Proc>⟧.origin_of self.now).1
            (⟦<CProc<'c> as Proc>⟧.name_of self.now).no letters k }
    {
        self.machine.output()
    }

    /// The line at which it is: if its next event is a Line, that event's line, otherwise the line of
    /// the last Line event of the innermost frame; without a frame the line of `main`'s name.
    pub fn line(&self) -> u32
        ensures { (p : Program) (s : Script) (letters : List Message) (k : ℕ)
            → IsCodeOf p (⟦<CProc<'c> as Proc>⟧.origin_of self.now).0
            → ⟦<CProc<'c> as Proc>⟧.stands_for self.now s letters k
            → result ≡ line_after p (⟦<CProc<'c> as Proc>⟧.origin_of self.now).1
            (⟦<CProc<'c> as Proc>⟧.name_of self.now).no letters k }
    {
        match self.machine.pending() {
            Pause::Line { line } => line,
            _ => self.line_of_frame(),
        }
    }

    // The line of the innermost frame, or without one that of `main`'s name.
    fn line_of_frame(&self) -> u32
        ensures { result ≡ line_in (state_of self.now.machine.value []).frames
            (main_line_of (seen_code self.now.code.now)) }
    {
        if self.machine.frame_count() == 0 {
            self.code.main_line()
        } else {
            self.machine.frame(0).line
        }
    }
}

/// A machine behind a pointer, so that it stays where it is while its process moves.
pub(crate) fn boxed<'c>(
    alloc: Global,
    machine: Machine<'c>,
) -> Result<Box<Machine<'c>>, WantOfMemory>
    ensures { IfOk result (λ b. b.value ≡ machine.entry) }
{
    Box::new(alloc, machine).map_err(|_| WantOfMemory)
}

/// How a process ended whose last event was of this kind.
pub(crate) fn end_with(kind: Kind) -> Look
    ensures { (events : List Kind) → result ≡ end_of (kind ∷ events) }
{
    match kind {
        Kind::Ended { value } => Look::Ended { value },
        Kind::Faulted { cause } => Look::Faulted { cause },
        _ => Look::Ended { value: 0 },
    }
}

/// What a process shows before this pause; where it is over, how it ended.
pub(crate) fn look_at(pause: Pause, end: Look) -> Look
    ensures looks { (events : List Kind) → end ≡ end_of events → result ≡ look_of (status_of pause) events }
{
    match pause {
        Pause::Receive { set } => Look::Waiting { set },
        Pause::Done => end,
        _ => Look::Able,
    }
}
