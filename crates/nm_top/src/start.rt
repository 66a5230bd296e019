//! The world of a program.

ghost use Rattle.std.specs.Prelude.{◌≡◌, length, IfOk};
ghost use Rattle.c_tree.specs.declared.program.Program.{Program};
ghost use Rattle.stack_code.specs.View.{seen_code};
ghost use Rattle.c_process.specs.Standing.{IsCodeOf};
ghost use Rattle.report.specs.Runs.{RunsProgram};
ghost use Rattle.schedules.specs.Bounds.{AreFewTurns};
ghost use Rattle.nm_top.specs.Runs.{run_of_program};
ghost use Rattle.nm_top.specs.private.Named.{AreFew};

use crate::turns::make_turns;
use c_compile::compile;
use c_process::{CProc, seats_of};
use c_tree::Program;
use mailboxes::{Mail, OrderedMail};
use nm_base::WantOfMemory;
use processes::Proc;
use schedules::Schedule;
use stack_code::Code;
use std::alloc::Global;
use world::World;

/// The code of a program.
pub fn compiled(alloc: Global, program: &Program) -> Result<Code, WantOfMemory>
    ensures { IfOk result (λ code. IsCodeOf program.now (seen_code code)) }
{
    let code = compile(alloc, program)?;
    Ok(code)
}

/// The world after the turns of a schedule, of as many processes that run this code. The channels of the
/// mask are ordered.
pub fn world_after<'c>(
    alloc: Global,
    code: &'c Code,
    n: u8,
    schedule: &Schedule,
    mask: u32,
) -> Result<World<CProc<'c>, OrderedMail>, WantOfMemory>
    requires range { AreFew n }
    requires turns { AreFewTurns n schedule.now }
    requires code { (p : Program) × IsCodeOf p (seen_code code.now) }
    ensures runs { IfOk result (λ w. (p : Program) → IsCodeOf p (seen_code code.now)
        → RunsProgram w p (run_of_program p n mask schedule.now)) }
    ensures size { IfOk result (λ w. length w.processes ≡ n) }
{
    let seats = seats_of(alloc, code, n)?;
    let mut world = World::new(alloc, seats, mask)?;
    make_turns(alloc, &mut world, schedule)?;
    Ok(world)
}
