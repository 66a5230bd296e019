//! The turns of a schedule.

ghost use Rattle.std.specs.Prelude.{◌≡◌, ◌<◌, ◌≤◌, length, slice_get, Some};
ghost use Rattle.nm_base.specs.declared.limits.TheConstants.{MAX_TURNS};

use nm_base::ProcNo;
use std::marker::Model;

/// A turn names a process and a pick: where it receives and `a` letters are allowed, it accepts the
/// one at place `pick mod a`.
#[derive(Clone, Copy, Debug, PartialEq, Eq)]
pub struct Turn {
    pub proc: ProcNo,
    pub pick: u32,
}

/// At most 1,000,000 turns. Contracts see their list.
#[derive(Drop)]
pub struct Schedule {
    turns: Vec<Turn>,
}

impl Model for Schedule {
    ghost use Rattle.std.specs.Prelude.{List, length, ◌≤◌};
    ghost use Rattle.nm_base.specs.declared.limits.TheConstants.{MAX_TURNS};
    ghost use Rattle.schedules.specs.declared.schedule.Turn.{Turn};

    ghost Value = { List Turn };

    ghost view = { λ s. s.turns.items };

    ghost invariant = { λ s. length s.turns.items ≤ MAX_TURNS };
}

impl Schedule {
    /// The schedule of these turns.
    pub(crate) fn from_vec(turns: Vec<Turn>) -> Schedule
        requires { length turns.items ≤ MAX_TURNS }
        ensures { result ≡ turns.items }
    {
        Schedule { turns }
    }

    /// The number of turns.
    pub fn turns(&self) -> u32
        ensures { result ≡ length self.now }
    {
        self.turns.len() as u32
    }

    /// The turn at this place, from 0.
    pub fn turn(&self, i: u32) -> Turn
        requires { i < length self.now }
        ensures { slice_get self.now i ≡ Some result }
    {
        self.turns[i as usize]
    }
}
