//! Schedules from a seed.

ghost use Rattle.std.specs.Prelude.{◌≡◌, ◌<◌, ◌≤◌, IfOk};
ghost use Rattle.nm_base.specs.declared.limits.TheConstants.{MAX_TURNS};
ghost use Rattle.schedules.specs.Bounds.{AreFewTurns};
ghost use Rattle.schedules.specs.Generated.{next_number, numbered_turn, generated_turns};

use crate::schedule::{Schedule, Turn};
use nm_base::{ProcNo, WantOfMemory};
use std::alloc::Global;

/// The number after x.
fn step(x: u32) -> u32
    ensures { result ≡ next_number x }
{
    ((1664525 * u64::from(x) + 1013904223) % 4294967296) as u32
}

/// The turn that a number stands for.
fn turn_of(x: u32, n: u8) -> Turn
    requires some { 0 < n }
    requires few { n ≤ 32 }
    ensures { result ≡ numbered_turn n x }
{
    Turn {
        proc: ProcNo {
            no: (x / 65536 % u32::from(n)) as u8,
        },
        pick: x / 256 % 256,
    }
}

/// So many turns of n processes, by the numbers that follow the seed: x becomes
/// `(1664525 * x + 1013904223) mod 2^32` for each turn, its process is `(x div 65536) mod n` and
/// its pick `(x div 256) mod 256`. A linear congruential generator, whose low bits are poor. It
/// needs n from 1 to 32 and at most 1,000,000 turns.
pub fn generated(alloc: Global, seed: u32, n: u8, turns: u32) -> Result<Schedule, WantOfMemory>
    requires some { 0 < n }
    requires few { n ≤ 32 }
    requires many { turns ≤ MAX_TURNS }
    ensures list { IfOk result (λ s. s ≡ generated_turns n seed turns) }
    ensures turns { IfOk result (AreFewTurns n) }
{
    let mut all = Vec::new(alloc);
    let mut x = seed;
    for _i in 0..turns {
        x = step(x);
        match all.push(turn_of(x, n)) {
            Ok(()) => {}
            Err(_) => return Err(WantOfMemory),
        }
    }
    Ok(Schedule::from_vec(all))
}
