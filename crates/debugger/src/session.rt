//! A session.

use crate::breakpoints::Breakpoints;
use crate::latest::Latest;
use c_process::CProc;
use checkpoints::Checkpoints;
use mailboxes::Mail;
use replay_core::Replay;
use stack_code::Code;
use std::marker::Model;
use trace_file::Trace;

/// A replay of a program under a trace, breakpoints, and the latest events that were made. It stands
/// for a program and a session of it.
#[derive(Drop)]
pub struct Session<'c, M: Mail> {
    pub(crate) code: &'c Code,
    pub(crate) trace: &'c Trace,
    pub(crate) replay: Replay<CProc<'c>, M>,
    pub(crate) kept: Checkpoints<CProc<'c>, M>,
    pub(crate) breaks: Breakpoints,
    pub(crate) latest: Latest,
}

impl<'c, M: Mail> Model for Session<'c, M> {
    ghost use Rattle.stack_code.specs.View.{seen_code};
    ghost use Rattle.debugger.specs.Sittings.{Sitting, IsSomeSession};

    ghost Value = { Sitting M };

    ghost view = { λ s. record {
      code = seen_code s.code.now;
      trace = s.trace.now;
      replay = s.replay;
      kept = s.kept;
      breaks = s.breaks;
      latest = s.latest;
    } };

    ghost invariant = { λ s. IsSomeSession (record {
      code = seen_code s.code.now;
      trace = s.trace.now;
      replay = s.replay;
      kept = s.kept;
      breaks = s.breaks;
      latest = s.latest;
    }) };
}
