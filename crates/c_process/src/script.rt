//! A process that runs code, as a process of a run.

use crate::process::{CProc, boxed, end_with, look_at};
use nm_base::{Kind, Letter, ProcNo, WantOfMemory};
use processes::{Look, Proc};
use std::alloc::Global;

impl<'c> Proc for CProc<'c> {
    ghost use Rattle.std.specs.Prelude.{◌≡◌, ℕ};
    ghost use Rattle.stack_code.specs.Code.{Code};
    ghost use Rattle.stack_code.specs.View.{seen_code};
    ghost use Rattle.proc_machine.specs.Machines.{machine_setting};
    ghost use Rattle.c_process.specs.Following.{Follows};
    ghost use Rattle.c_process.specs.private.Laws.{follows_lawful, follows_shows};

    ghost stands_for = { λ x s letters k. Follows x.machine.value x.look s letters k × (k ≡ x.count) };

    ghost Origin = { Code × ℕ };

    ghost origin_of = { λ x. (seen_code x.code.now, (machine_setting x.machine.value).count) };

    ghost name_of = { λ x. x.me };

    ghost count_of = { λ x. x.count };

    ghost look_of = { λ x. x.look };

    fn me(&self) -> ProcNo {
        self.me
    }

    fn count(&self) -> u32 {
        self.count
    }

    fn look(&self) -> Look {
        self.look
    }

    #[inline(always)]
    fn step(&mut self, alloc: Global) -> Result<(Kind, Option<Letter>), WantOfMemory> {
        let machine = &mut *self.machine;
        machine.reserve_output(alloc)?;
        let (kind, letter) = machine.advance();
        let next = machine.pending();
        self.count += 1;
        self.look = look_at(next, end_with(kind));
        Ok((kind, letter))
    }

    #[inline(always)]
    fn give(&mut self, letter: Letter) -> Kind {
        let machine = &mut *self.machine;
        let kind = machine.accept(letter);
        let next = machine.pending();
        self.count += 1;
        self.look = look_at(next, end_with(kind));
        kind
    }

    fn copy(&self, alloc: Global) -> Result<Self, WantOfMemory> {
        let machine = boxed(alloc, self.machine.copy(alloc)?)?;
        Ok(CProc {
            code: self.code,
            machine,
            me: self.me,
            count: self.count,
            look: self.look,
        })
    }

    ghost lawful = { λ x s letters k h. follows_lawful x.machine.value x.look s letters k h.0 };

    ghost shows = { λ x s letters k h. follows_shows x.machine.value x.look s letters k h.0 };

    ghost counts = { λ x s letters k h. h.1 };
}
