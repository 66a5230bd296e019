//! An event, and the run to the next.

ghost use Rattle.std.specs.Prelude.{◌≡◌, ◌+◌, ◌<◌, ◌≤◌, ◌^◌, replicate, slice_get, slice_index, Some, IsTrue};
ghost use Rattle.std.specs.Vec.{vec_len, vec_capacity};
ghost use Rattle.nm_base.specs.declared.kind.Kind.TheVariants as kind;
ghost use Rattle.stack_code.specs.declared.instr.Instr.TheVariants as instr;
ghost use Rattle.stack_code.specs.Code.{steps_of};
ghost use Rattle.stack_code.specs.View.{seen_code};
ghost use Rattle.proc_machine.specs.declared.pause.Pause.TheVariants as pause;
ghost use Rattle.proc_machine.specs.private.Ready.{is_addressed, has_room};
ghost use Rattle.proc_machine.specs.private.Sound.{Holds};
ghost use Rattle.proc_machine.specs.private.Moves.{sent_by};
ghost use Rattle.proc_machine.specs.private.Run.{Accepts, instr_at, waits_at};
ghost use Rattle.proc_machine.specs.private.AtSetting.{AfterAt, AcceptsAt};

use crate::execution::{Execution, Setting};
use crate::pause::Pause;
use nm_base::Letter;
use stack_code::Instr;

impl Execution {
    /// How many words the send at which it stands has.
    pub(crate) fn words_to_send(&self, at: Setting<'_>) -> u32
        requires holds { ∥ Holds (seen_code at.code.now) self.now ∥₁ }
        requires waits { IsTrue
            (waits_at
            (slice_get
            (steps_of (seen_code at.code.now) self.now.frame.function) self.now.frame.place) pause.Send) }
        ensures { instr_at (seen_code at.entry.code.now) self.now ≡ Some (instr.Send result) }
    {
        match self.next_instr(at) {
            Instr::Send(words) => words,
            _ => unreachable!(),
        }
    }

    /// Which text it prints next.
    pub(crate) fn text_to_print(&self, at: Setting<'_>) -> u32
        requires holds { ∥ Holds (seen_code at.code.now) self.now ∥₁ }
        requires waits { IsTrue
            (waits_at
            (slice_get
            (steps_of (seen_code at.code.now) self.now.frame.function) self.now.frame.place) pause.Print) }
        ensures { instr_at (seen_code at.entry.code.now) self.now ≡ Some (instr.Print result) }
    {
        match self.next_instr(at) {
            Instr::Print(text) => text,
            _ => unreachable!(),
        }
    }

    /// Comes to a line.
    pub(crate) fn go_past_line(&mut self, at: Setting<'_>, line: u32) -> Pause
        requires holds { ∥ Holds (seen_code at.code.now) self.old ∥₁ }
        requires there { instr_at (seen_code at.code.now) self.old ≡ Some (instr.Line line) }
        ensures holds { ∥ Holds (seen_code at.entry.code.now) self.new ∥₁ }
        ensures after { AfterAt at.entry self.old self.new (kind.Line line) result }
        ensures sent { self.new.sent ≡ self.old.sent }
    {
        self.pass_line(at, line);
        self.run(at)
    }

    /// Sends a letter.
    pub(crate) fn go_past_send(&mut self, at: Setting<'_>, words: u32) -> (Letter, Pause)
        requires holds { ∥ Holds (seen_code at.code.now) self.old ∥₁ }
        requires there { instr_at (seen_code at.code.now) self.old ≡ Some (instr.Send words) }
        requires addressed { IsTrue (is_addressed at.count words self.old.calls.own) }
        requires few { self.old.sent + 1 < 2 ^ 32 }
        ensures holds { ∥ Holds (seen_code at.entry.code.now) self.new ∥₁ }
        ensures after { AfterAt at.entry self.old self.new (sent_by result.0) result.1 }
        ensures sent { self.new.sent ≡ self.old.sent + 1 }
        ensures named { result.0.id ≡ record { sender = at.entry.me; number = self.old.sent } }
        ensures unposted { (result.0.posted ≡ 0) × (result.0.stamp.parts ≡ replicate 32 0) }
    {
        let letter = self.send_letter(at, words);
        let next = self.run(at);
        (letter, next)
    }

    /// Prints, and answers how many bytes.
    pub(crate) fn go_past_print(&mut self, at: Setting<'_>, text: u32) -> (u32, Pause)
        requires holds { ∥ Holds (seen_code at.code.now) self.old ∥₁ }
        requires there { instr_at (seen_code at.code.now) self.old ≡ Some (instr.Print text) }
        requires room { IsTrue (has_room (seen_code at.code.now) text self.old) }
        requires spare { vec_len self.old.output + 4096 ≤ vec_capacity self.old.output }
        ensures holds { ∥ Holds (seen_code at.entry.code.now) self.new ∥₁ }
        ensures after { AfterAt at.entry self.old self.new (kind.Printed result.0) result.1 }
        ensures sent { self.new.sent ≡ self.old.sent }
    {
        let bytes = self.print_bytes(at, text);
        let next = self.run(at);
        (bytes, next)
    }

    /// Accepts a letter.
    pub(crate) fn go_past_receive(&mut self, at: Setting<'_>, set: u32, letter: Letter) -> Pause
        requires holds { ∥ Holds (seen_code at.code.now) self.old ∥₁ }
        requires there { instr_at (seen_code at.code.now) self.old ≡ Some instr.Receive }
        requires set_is { slice_index self.old.calls.own 0 ≡ set }
        requires some { 0 < set }
        ensures holds { ∥ Holds (seen_code at.entry.code.now) self.new ∥₁ }
        ensures after { AcceptsAt at.entry self.old self.new set letter result }
        ensures sent { self.new.sent ≡ self.old.sent }
    {
        self.take_letter(at, set, letter);
        self.run(at)
    }
}
