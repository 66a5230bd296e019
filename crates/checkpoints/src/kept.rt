//! Kept worlds.

ghost use Rattle.std.specs.Prelude.{◌≡◌, ◌≤◌, [], All, IfOk, OnOk, OnErr, IfSome, IfNone, option_map};
ghost use Rattle.checkpoints.specs.Kept.{AreBelow, KeepsCopy, IsCopyOf, up_to, last};

use crate::parts::{copy_of_last, count_up_to, make_room, put_last, thin};
use mailboxes::Mail;
use nm_base::WantOfMemory;
use processes::Proc;
use std::alloc::Global;
use std::marker::Model;
use world::World;

/// So many worlds are kept at most.
pub const MOST_KEPT: u8 = 16;

/// Copies of worlds, each of more events than those before it. Contracts see them as a list.
#[derive(Drop)]
pub struct Checkpoints<P: Proc, M: Mail> {
    worlds: Vec<World<P, M>>,
}

impl<P: Proc, M: Mail> Model for Checkpoints<P, M> {
    ghost use Rattle.std.specs.Prelude.{List};
    ghost use Rattle.world.specs.Worlds.{Parts};
    ghost use Rattle.checkpoints.specs.Kept.{AreKept};

    ghost Value = { List (Parts P M) };

    ghost view = { λ c. c.worlds.items };

    ghost invariant = { λ c. AreKept c.worlds.items };
}

impl<P: Proc, M: Mail> Checkpoints<P, M> {
    /// No world is kept.
    pub fn new(alloc: Global) -> Result<Checkpoints<P, M>, WantOfMemory>
        ensures { IfOk result (λ c. c ≡ []) }
    {
        Ok(Checkpoints {
            worlds: Vec::new(alloc),
        })
    }

    /// The number of events of the last kept world, if one is kept.
    pub fn longest(&self) -> Option<u32>
        ensures last { result ≡ option_map (λ w. w.events) (last self.now) }
        ensures none { IfNone result (self.now ≡ []) }
        ensures longest { IfSome result (λ n. All (λ w. w.events ≤ n) self.now) }
    {
        let last = self.worlds.last()?;
        Some(last.events())
    }

    /// Keeps a copy of a world that has more events than those kept. Where 16 are kept, those at the
    /// places 1, 3, .., 15 are dropped first. Where memory is refused nothing changed.
    pub fn keep(&mut self, alloc: Global, world: &World<P, M>) -> Result<(), WantOfMemory>
        requires later { AreBelow world.now.events self.old }
        ensures kept { OnOk result (KeepsCopy P.stands_for P.origin_of world.now self.old self.new) }
        ensures refused { OnErr result (self.new ≡ self.old) }
    {
        let copy = world.copy(alloc)?;
        make_room(&mut self.worlds)?;
        thin(&mut self.worlds);
        put_last(&mut self.worlds, copy);
        Ok(())
    }

    /// A copy of the last kept world with at most k events, and none exactly where there is none.
    /// Those with more are dropped. Where memory is refused none is.
    pub fn back_to(&mut self, alloc: Global, k: u32) -> Result<Option<World<P, M>>, WantOfMemory>
        ensures copy { IfOk result (λ w. IsCopyOf P.stands_for P.origin_of (last (up_to k self.old)) w) }
        ensures dropped { OnOk result (self.new ≡ up_to k self.old) }
        ensures refused { OnErr result (self.new ≡ self.old) }
    {
        let left = count_up_to(self.worlds.as_slice(), k);
        let copy = copy_of_last(alloc, &self.worlds.as_slice()[..left])?;
        self.worlds.truncate(left);
        Ok(copy)
    }
}
