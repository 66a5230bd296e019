//! The turns of a run.

ghost use Rattle.std.specs.Prelude.{◌≡◌, ℕ, [], length, map, OnOk};
ghost use Rattle.nm_base.specs.Scripts.{Script};
ghost use Rattle.event_list.specs.Turns.{run_of};
ghost use Rattle.world.specs.Worlds.{IsWorldOf};
ghost use Rattle.schedules.specs.Bounds.{AreFewTurns};
ghost use Rattle.nm_top.specs.Schedules.{seen_turn};

use mailboxes::{FreeGate, Mail};
use nm_base::WantOfMemory;
use processes::Proc;
use schedules::Schedule;
use std::alloc::Global;
use world::World;

/// Makes the turns of a schedule in a world before its first event: of whatever scripts that world
/// stands for, the world afterwards stands for the run of the schedule.
pub fn make_turns<P: Proc, M: Mail>(
    alloc: Global,
    world: &mut World<P, M>,
    schedule: &Schedule,
) -> Result<(), WantOfMemory>
    requires begins { (s : ℕ → Script) × IsWorldOf P.stands_for world.old s [] }
    requires turns { AreFewTurns (length world.old.processes) schedule.now }
    ensures run { OnOk result ((s : ℕ → Script) → IsWorldOf P.stands_for world.old s []
        → IsWorldOf P.stands_for world.new s (run_of s world.old.mask (map seen_turn schedule.now))) }
    ensures mask { world.new.mask ≡ world.old.mask }
    ensures size { length world.new.processes ≡ length world.old.processes }
    ensures origins { map P.origin_of world.new.processes ≡ map P.origin_of world.old.processes }
{
    for i in 0..schedule.turns() {
        world.turn(alloc, schedule.turn(i), &FreeGate)?;
    }
    Ok(())
}
