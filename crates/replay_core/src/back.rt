//! Going back in a replay.

ghost use Rattle.std.specs.Prelude.{◌≡◌, ◌≤◌, length, map, IfOk, OnOk, OnErr};
ghost use Rattle.replay_core.specs.Replaying.{ReplaysAll, IsSameRun};
ghost use Rattle.replay_core.specs.Backwards.{GoesBack, HasWayBack, with_world};

use crate::replay::Replay;
use mailboxes::Mail;
use nm_base::WantOfMemory;
use processes::Proc;
use schedules::Turn;
use std::alloc::Global;
use world::World;

impl<P: Proc, M: Mail> Replay<P, M> {
    /// Goes back to the first `to` events of a replay whose events were all made with pick 0. The
    /// world `from` is one after some of these events, of processes of the same origins; those that
    /// are missing are made again. Where memory is refused the replay is as before.
    pub fn go_back(&mut self, alloc: Global, from: World<P, M>, to: u32) -> Result<(), WantOfMemory>
        requires way { HasWayBack P.stands_for self.old from }
        requires reached { from.events ≤ to }
        requires within { to ≤ length self.old.events }
        requires origins { map P.origin_of from.processes ≡ map P.origin_of self.old.world.processes }
        ensures back { OnOk result (GoesBack P.stands_for self.old from self.new to) }
        ensures refused { OnErr result (ReplaysAll P.stands_for self.old self.new) }
        ensures same { IsSameRun P.origin_of self.old self.new }
    {
        let world = self.made_again(alloc, from, to)?;
        self.world = world;
        self.events.cut(to);
        Ok(())
    }

    // The world after the first `to` events, from one after some of them.
    fn made_again(
        &self,
        alloc: Global,
        from: World<P, M>,
        to: u32,
    ) -> Result<World<P, M>, WantOfMemory>
        requires way { HasWayBack P.stands_for self.now from }
        requires reached { from.events ≤ to }
        requires within { to ≤ length self.now.events }
        ensures made { IfOk result (λ w. GoesBack P.stands_for self.now from (with_world self.now w to) to) }
        ensures origins { IfOk result (λ w. map P.origin_of w.processes ≡ map P.origin_of from.processes) }
    {
        let mut world = from;
        let made = world.events();
        for i in made..to {
            let proc = self.events.at(i).proc;
            world.turn(alloc, Turn { proc, pick: 0 }, &self.gate)?;
        }
        Ok(world)
    }
}
