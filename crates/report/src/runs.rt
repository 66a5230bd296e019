//! The blocks of a run.

ghost use Rattle.std.specs.Prelude.{◌≡◌, ◌<◌, List, length, is_err};
ghost use Rattle.c_tree.specs.declared.program.Program.{Program};
ghost use Rattle.event_list.specs.declared.Event.{Event};
ghost use Rattle.nm_outside.specs.Causes.{BelongsTo};
ghost use Rattle.report.specs.Printing.{Prints};
ghost use Rattle.report.specs.Runs as runs;
ghost use Rattle.report.specs.Runs.{RunsProgram, block_of, all_blocks, summary_of};

use crate::one_process::block;
use crate::summaries::summary;
use c_process::CProc;
use mailboxes::Mail;
use nm_base::ProcNo;
use nm_outside::{Failed, Sink};
use processes::Proc;
use world::World;

// The block of a process of the world.
fn put_block<'c, M: Mail, O: Sink>(
    out: &mut O,
    world: &World<CProc<'c>, M>,
    p: ProcNo,
) -> Result<(), Failed>
    requires { p.no < length world.now.processes }
    ensures text { (program : Program) (E : List Event) → RunsProgram world.now program E
        → Prints (O.given out.old) (O.given out.new) (O.faults out.old) (O.faults out.new)
        (block_of program (length world.now.processes) E p.no) result }
    ensures cause { BelongsTo (is_err result) (O.faults out.old) (O.faults out.new) }
{
    let process = world.seat(p).process();
    let look = process.look();
    let line = process.line();
    block(out, p.no, look, line, world.count(p), process.output())
}

// The blocks in order of the processes' numbers.
fn put_blocks<'c, M: Mail, O: Sink>(out: &mut O, world: &World<CProc<'c>, M>) -> Result<(), Failed>
    ensures text { (program : Program) (E : List Event) → RunsProgram world.now program E
        → Prints (O.given out.old) (O.given out.new) (O.faults out.old) (O.faults out.new)
        (all_blocks program (length world.now.processes) E) result }
    ensures cause { BelongsTo (is_err result) (O.faults out.old) (O.faults out.new) }
{
    for p in 0..world.n() {
        put_block(out, world, ProcNo { no: p })?;
    }
    Ok(())
}

/// The summary of a world's run. A letter that was sent and not accepted waits.
pub fn run_summary<'c, M: Mail, O: Sink>(
    out: &mut O,
    world: &World<CProc<'c>, M>,
) -> Result<(), Failed>
    ensures text { (program : Program) (E : List Event) → RunsProgram world.now program E
        → Prints (O.given out.old) (O.given out.new) (O.faults out.old) (O.faults out.new)
        (summary_of E) result }
    ensures cause { BelongsTo (is_err result) (O.faults out.old) (O.faults out.new) }
{
    let sent = world.sent();
    let accepted = world.accepted();
    summary(
        out,
        world.events(),
        sent,
        accepted,
        sent.saturating_sub(accepted),
    )
}

/// The blocks of all processes in order of their numbers, and the summary.
pub fn blocks<'c, M: Mail, O: Sink>(out: &mut O, world: &World<CProc<'c>, M>) -> Result<(), Failed>
    ensures text { (program : Program) (E : List Event) → RunsProgram world.now program E
        → Prints (O.given out.old) (O.given out.new) (O.faults out.old) (O.faults out.new)
        (runs.blocks program (length world.now.processes) E) result }
    ensures cause { BelongsTo (is_err result) (O.faults out.old) (O.faults out.new) }
{
    put_blocks(out, world)?;
    run_summary(out, world)
}
