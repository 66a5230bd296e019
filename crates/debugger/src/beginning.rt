//! The beginning of a session, and of a replay.

ghost use Rattle.std.specs.Prelude.{◌≡◌, [], IfOk};
ghost use Rattle.c_tree.specs.declared.program.Program.{Program};
ghost use Rattle.stack_code.specs.View.{seen_code};
ghost use Rattle.trace_file.specs.Rules.{IsTrace};
ghost use Rattle.c_process.specs.Standing.{IsCodeOf};
ghost use Rattle.debugger.specs.Sessions.{first_session};
ghost use Rattle.debugger.specs.Sittings.{IsReplayAt, IsSessionOf};

use crate::breakpoints::Breakpoints;
use crate::latest::Latest;
use crate::session::Session;
use c_process::{CProc, seats_of};
use checkpoints::Checkpoints;
use mailboxes::Mail;
use nm_base::WantOfMemory;
use replay_core::Replay;
use stack_code::Code;
use std::alloc::Global;
use trace_file::Trace;

impl<'c, M: Mail> Session<'c, M> {
    /// A session of a program before its first event, under a trace that keeps the rules of a trace file.
    pub fn new(
        alloc: Global,
        code: &'c Code,
        trace: &'c Trace,
    ) -> Result<Session<'c, M>, WantOfMemory>
        requires code { (p : Program) × IsCodeOf p (seen_code code.now) }
        requires trace { IsTrace trace.now }
        ensures begins { IfOk result (λ x. (p : Program) → IsCodeOf p (seen_code code.now)
            → IsSessionOf x p first_session) }
        ensures code { IfOk result (λ x. x.code ≡ seen_code code.now) }
        ensures trace { IfOk result (λ x. x.trace ≡ trace.now) }
    {
        let replay = new_replay(alloc, code, trace)?;
        let kept = Checkpoints::new(alloc)?;
        let latest = Latest::new(alloc)?;
        Ok(Session {
            code,
            trace,
            replay,
            kept,
            breaks: Breakpoints::new(),
            latest,
        })
    }
}

/// The replay of a program before its first event.
pub(crate) fn new_replay<'c, M: Mail>(
    alloc: Global,
    code: &'c Code,
    trace: &Trace,
) -> Result<Replay<CProc<'c>, M>, WantOfMemory>
    requires code { (p : Program) × IsCodeOf p (seen_code code.now) }
    requires trace { IsTrace trace.now }
    ensures { IfOk result (λ r. (p : Program) → IsCodeOf p (seen_code code.now)
        → IsReplayAt (seen_code code.now) p trace.now r []) }
{
    let seats = seats_of(alloc, code, trace.n())?;
    let replay = Replay::new(alloc, seats, trace)?;
    Ok(replay)
}
