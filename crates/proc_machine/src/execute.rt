//! The next instruction, whatever it is.

ghost use Rattle.stack_code.specs.View.{seen_code};
ghost use Rattle.proc_machine.specs.private.Ready.{IsReady};
ghost use Rattle.proc_machine.specs.private.AtSetting.{MovesAt};

use crate::execution::{Execution, Setting};
use crate::pause::Pause;
use stack_code::Instr;

impl Execution {
    /// One instruction: the execution goes on, or stands before an event.
    pub(crate) fn execute(&mut self, at: Setting<'_>, instr: Instr) -> Option<Pause>
        requires { IsReady (seen_code at.code.now) instr self.old }
        ensures { MovesAt at.entry instr self.old self.new result }
    {
        match instr {
            Instr::Line(line) => self.at_line(at, line),
            Instr::Push(bits) => self.push_bits(at, bits),
            Instr::Drop => self.drop_top(at),
            Instr::Dup => self.duplicate(at),
            Instr::Swap => self.swap(at),
            Instr::GlobalPlace(slot) => self.global_place(at, slot),
            Instr::LocalPlace(slot) => self.local_place(at, slot),
            Instr::GlobalAt { base, len } => self.global_at(at, base, len),
            Instr::LocalAt { base, len } => self.local_at(at, base, len),
            Instr::ParamAt(slot) => self.param_at(at, slot),
            Instr::GlobalArray { base, len } => self.global_array(at, base, len),
            Instr::LocalArray { base, len } => self.local_array(at, base, len),
            Instr::ParamArray(slot) => self.param_array(at, slot),
            Instr::Load => self.load(at),
            Instr::Store => self.store(at),
            Instr::Unary(op, of) => self.unary(at, op, of),
            Instr::Binary(op, of) => self.binary(at, op, of),
            Instr::Jump(target) => self.jump(at, target),
            Instr::JumpZero(target) => self.jump_zero(at, target),
            Instr::Zero { base, len } => self.zero(at, base, len),
            Instr::Call(function) => self.call(at, function),
            Instr::Return => self.give_back(at),
            Instr::Send(words) => self.send(at, words),
            Instr::Receive => self.receive(at),
            Instr::Word => self.letter_word(at),
            Instr::Words => self.letter_words(at),
            Instr::From => self.letter_from(at),
            Instr::Via => self.letter_via(at),
            Instr::SelfNo => self.self_no(at),
            Instr::Count => self.count(at),
            Instr::Print(text) => self.print(at, text),
        }
    }
}
