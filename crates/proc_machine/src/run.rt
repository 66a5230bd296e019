//! Running on to the next event.

ghost use Rattle.std.specs.Prelude.{◌≡◌, List, Some};
ghost use Rattle.nm_base.specs.declared.kind.Kind.{Kind};
ghost use Rattle.stack_code.specs.View.{seen_code};
ghost use Rattle.proc_machine.specs.private.Sound.{Holds};
ghost use Rattle.proc_machine.specs.private.Run.{instr_at};
ghost use Rattle.proc_machine.specs.private.AtSetting.{StepsAt, RunsOnAt, StandsBeforeAt};

use crate::execution::{Execution, Setting};
use crate::pause::Pause;
use stack_code::Instr;

impl Execution {
    /// The instruction at which it stands, by one index into the code.
    pub(crate) fn next_instr(&self, at: Setting<'_>) -> Instr
        requires { ∥ Holds (seen_code at.code.now) self.now ∥₁ }
        ensures { instr_at (seen_code at.entry.code.now) self.now ≡ Some result }
    {
        at.code
            .fetch(self.frame.start as usize + self.frame.place as usize)
    }

    /// Does the next instruction.
    fn step(&mut self, at: Setting<'_>) -> Option<Pause>
        requires { ∥ Holds (seen_code at.code.now) self.old ∥₁ }
        ensures holds { ∥ Holds (seen_code at.entry.code.now) self.new ∥₁ }
        ensures steps { StepsAt at.entry self.old self.new result }
    {
        let instr = self.next_instr(at);
        self.execute(at, instr)
    }

    /// Runs on to just before the next event.
    pub(crate) fn run(&mut self, at: Setting<'_>) -> Pause
        requires { ∥ Holds (seen_code at.code.now) self.old ∥₁ }
        ensures holds { ∥ Holds (seen_code at.entry.code.now) self.new ∥₁ }
        ensures reaches { (events : List Kind) → RunsOnAt at.entry self.old self.new events }
        ensures sent { self.new.sent ≡ self.old.sent }
        ensures stands { StandsBeforeAt at.entry self.new result }
    {
        'steps: loop {
            if let Some(pause) = self.step(at) {
                return pause;
            }
        }
    }
}
