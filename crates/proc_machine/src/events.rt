//! Making an event.

ghost use Rattle.std.specs.Prelude.{◌≡◌, ◌+◌, ◌<◌, ◌≤◌, ◌^◌, ◌&&◌, ◌++◌, length, replicate, slice_index, IsTrue};
ghost use Rattle.std.specs.List.{AllWithin};
ghost use Rattle.std.specs.Vec.{vec_len, vec_capacity};
ghost use Rattle.nm_base.specs.declared.kind.Kind.TheVariants as kind;
ghost use Rattle.c_tree.specs.Expr.{padded};
ghost use Rattle.c_tree.specs.Print.{printed};
ghost use Rattle.stack_code.specs.declared.instr.Instr.TheVariants as instr;
ghost use Rattle.stack_code.specs.Machine.{conversions};
ghost use Rattle.stack_code.specs.View.{seen_code};
ghost use Rattle.proc_machine.specs.private.Ready.{IsReady, is_addressed, has_room};
ghost use Rattle.proc_machine.specs.private.Moves.{sent_by};
ghost use Rattle.proc_machine.specs.private.AtSetting.{MakesAt, TakesAt};

use crate::execution::{Execution, Setting};
use crate::messages::conversions;
use crate::printing::push_printed;
use crate::words::word_or_zero;
use nm_base::{Kind, Letter, LetterId, ProcNo, Stamp};

impl Execution {
    /// Comes to a line.
    pub(crate) fn pass_line(&mut self, at: Setting<'_>, line: u32)
        requires { IsReady (seen_code at.code.now) (instr.Line line) self.old }
        ensures made { MakesAt at.entry (instr.Line line) self.old self.new (kind.Line line) }
        ensures sent { self.new.sent ≡ self.old.sent }
    {
        self.frame.line = line;
        self.frame.place += 1;
    }

    /// Accepts a letter.
    pub(crate) fn take_letter(&mut self, at: Setting<'_>, set: u32, letter: Letter)
        requires ready { IsReady (seen_code at.code.now) instr.Receive self.old }
        requires set_is { slice_index self.old.calls.own 0 ≡ set }
        requires some { 0 < set }
        ensures made { TakesAt at.entry self.old self.new set letter }
        ensures sent { self.new.sent ≡ self.old.sent }
    {
        let first = if letter.len == 0 { 0 } else { letter.words[0] };
        self.letter = Some(letter);
        let _value = self.give(1, Ok(u64::from(first)));
    }

    /// Sends a letter of so many words.
    pub(crate) fn send_letter(&mut self, at: Setting<'_>, words: u32) -> Letter
        requires ready { IsReady (seen_code at.code.now) (instr.Send words) self.old }
        requires addressed { IsTrue (is_addressed at.count words self.old.calls.own) }
        requires few { self.old.sent + 1 < 2 ^ 32 }
        ensures made { MakesAt at.entry (instr.Send words) self.old self.new (sent_by result) }
        ensures sent { self.new.sent ≡ self.old.sent + 1 }
        ensures named { result.id ≡ record { sender = at.entry.me; number = self.old.sent } }
        ensures unposted { (result.posted ≡ 0) × (result.stamp.parts ≡ replicate 32 0) }
    {
        let count = words as usize;
        let letter = Letter {
            id: LetterId {
                sender: at.me,
                number: self.sent,
            },
            dest: ProcNo {
                no: self.calls.top(count + 1) as u8,
            },
            chan: self.calls.top(count) as u8,
            len: words as u8,
            words: padded(self.calls.last(count)),
            posted: 0,
            stamp: Stamp { parts: [0; 32] },
        };
        self.sent += 1;
        let _value = self.give(count + 2, Ok(0));
        letter
    }

    /// Prints, and answers how many bytes.
    pub(crate) fn print_bytes(&mut self, at: Setting<'_>, text: u32) -> u32
        requires ready { IsReady (seen_code at.code.now) (instr.Print text) self.old }
        requires room { IsTrue (has_room (seen_code at.code.now) text self.old) }
        requires spare { vec_len self.old.output + 4096 ≤ vec_capacity self.old.output }
        ensures made { MakesAt at.entry (instr.Print text) self.old self.new (kind.Printed result) }
        ensures sent { self.new.sent ≡ self.old.sent }
    {
        let bytes = at.code.text(text);
        let count = conversions(bytes);
        let before = self.output.len();
        push_printed(&mut self.output, bytes, self.calls.last(count));
        let printed = (self.output.len() - before) as u32;
        let _value = self.give(count, Ok(u64::from(printed)));
        printed
    }
}

/// The words of a letter, and 0 past them.
fn padded(words: &[u64]) -> [u32; 8]
    requires { AllWithin (λ x. x < 2 ^ 32) words.now 0 (length words.now) }
    ensures { result ≡ padded words.now }
{
    let mut padded = [0; 8];
    for i in 0..8 {
        padded[i] = word_or_zero(words, i);
    }
    padded
}

/// The event that sends a letter.
pub(crate) fn sent_by(letter: &Letter) -> Kind
    ensures { result ≡ sent_by letter.now }
{
    Kind::Sent {
        number: letter.id.number,
        dest: letter.dest,
        chan: letter.chan,
        len: letter.len,
        words: letter.words,
    }
}
