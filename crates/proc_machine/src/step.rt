//! One instruction.

ghost use Rattle.std.specs.Prelude.{◌≡◌, ◌+◌, ◌-◌, ◌<◌, ◌≤◌, ◌^◌, ◌∷◌, length, Some, None};
ghost use Rattle.stack_code.specs.declared.instr.Instr.TheVariants as instr;
ghost use Rattle.stack_code.specs.View.{seen_code};
ghost use Rattle.proc_machine.specs.private.Ready.{IsReady};
ghost use Rattle.proc_machine.specs.private.Moves.{given};
ghost use Rattle.proc_machine.specs.private.Outcomes.{fault_of, element_of};
ghost use Rattle.proc_machine.specs.private.AtSetting.{MovesAt};

use crate::execution::{Execution, Setting};
use crate::pause::Pause;
use nm_base::{BinaryOp, Ctype, FaultCause, UnaryOp, apply_binary, apply_unary};
use stack_code::Instr;

impl Execution {
    /// A value takes the place of the topmost operands, or a fault leaves all as it is.
    pub(crate) fn give(&mut self, taken: usize, value: Result<u64, FaultCause>) -> Option<Pause>
        requires some { taken ≤ length self.old.calls.own }
        requires room { length self.old.calls.own - taken < self.old.calls.height }
        requires further { self.old.frame.place + 1 < 2 ^ 32 }
        ensures answer { result ≡ fault_of value }
        ensures state { self.new ≡ given taken value self.old }
    {
        match value {
            Ok(value) => {
                self.calls.discard(taken);
                self.calls.push(value);
                self.frame.place += 1;
                None
            }
            Err(cause) => Some(Pause::Fault { cause }),
        }
    }

    /// Pushes a constant.
    pub(crate) fn push_bits(&mut self, at: Setting<'_>, bits: u32) -> Option<Pause>
        requires { IsReady (seen_code at.code.now) (instr.Push bits) self.old }
        ensures { MovesAt at.entry (instr.Push bits) self.old self.new result }
    {
        self.give(0, Ok(u64::from(bits)))
    }

    /// The word at a place takes the place's place among the operands.
    pub(crate) fn load(&mut self, at: Setting<'_>) -> Option<Pause>
        requires { IsReady (seen_code at.code.now) instr.Load self.old }
        ensures { MovesAt at.entry instr.Load self.old self.new result }
    {
        let word = self.words.get(self.calls.top(0));
        self.give(1, Ok(u64::from(word)))
    }

    /// Stores the topmost operand at the place below it, and leaves the value.
    pub(crate) fn store(&mut self, at: Setting<'_>) -> Option<Pause>
        requires { IsReady (seen_code at.code.now) instr.Store self.old }
        ensures { MovesAt at.entry instr.Store self.old self.new result }
    {
        let word = self.calls.top(0);
        self.words.set(self.calls.top(1), word as u32);
        self.give(2, Ok(word))
    }

    /// The operator's value takes the place of its operand, or it stands before the operator's fault.
    pub(crate) fn unary(&mut self, at: Setting<'_>, op: UnaryOp, of: Ctype) -> Option<Pause>
        requires { IsReady (seen_code at.code.now) (instr.Unary op of) self.old }
        ensures { MovesAt at.entry (instr.Unary op of) self.old self.new result }
    {
        let value = apply_unary(op, of, self.calls.top(0) as u32);
        self.give(1, wide(value))
    }

    /// Takes the topmost operand off.
    pub(crate) fn drop_top(&mut self, at: Setting<'_>) -> Option<Pause>
        requires { IsReady (seen_code at.code.now) instr.Drop self.old }
        ensures { MovesAt at.entry instr.Drop self.old self.new result }
    {
        self.calls.discard(1);
        self.frame.place += 1;
        None
    }

    /// Pushes the topmost operand once more.
    pub(crate) fn duplicate(&mut self, at: Setting<'_>) -> Option<Pause>
        requires { IsReady (seen_code at.code.now) instr.Dup self.old }
        ensures { MovesAt at.entry instr.Dup self.old self.new result }
    {
        let value = self.calls.top(0);
        self.give(0, Ok(value))
    }

    /// Swaps the two topmost operands.
    pub(crate) fn swap(&mut self, at: Setting<'_>) -> Option<Pause>
        requires { IsReady (seen_code at.code.now) instr.Swap self.old }
        ensures { MovesAt at.entry instr.Swap self.old self.new result }
    {
        let first = self.calls.top(0);
        let second = self.calls.top(1);
        self.calls.discard(2);
        self.calls.push(first);
        self.give(0, Ok(second))
    }

    /// Pushes the place of a global.
    pub(crate) fn global_place(&mut self, at: Setting<'_>, slot: u32) -> Option<Pause>
        requires { IsReady (seen_code at.code.now) (instr.GlobalPlace slot) self.old }
        ensures { MovesAt at.entry (instr.GlobalPlace slot) self.old self.new result }
    {
        self.give(0, Ok(u64::from(slot)))
    }

    /// Pushes the place of a variable of the frame.
    pub(crate) fn local_place(&mut self, at: Setting<'_>, slot: u32) -> Option<Pause>
        requires { IsReady (seen_code at.code.now) (instr.LocalPlace slot) self.old }
        ensures { MovesAt at.entry (instr.LocalPlace slot) self.old self.new result }
    {
        self.give(0, Ok(self.place_of(slot)))
    }

    /// The place of an element of a global array takes the place of its subscript, or it stands before
    /// a fault where the array has none of that number.
    pub(crate) fn global_at(&mut self, at: Setting<'_>, base: u32, len: u32) -> Option<Pause>
        requires { IsReady (seen_code at.code.now) (instr.GlobalAt base len) self.old }
        ensures { MovesAt at.entry (instr.GlobalAt base len) self.old self.new result }
    {
        let i = self.calls.top(0);
        self.give(1, element(u64::from(base), len, i))
    }

    /// The same of an array of the frame.
    pub(crate) fn local_at(&mut self, at: Setting<'_>, base: u32, len: u32) -> Option<Pause>
        requires { IsReady (seen_code at.code.now) (instr.LocalAt base len) self.old }
        ensures { MovesAt at.entry (instr.LocalAt base len) self.old self.new result }
    {
        let i = self.calls.top(0);
        let place = self.place_of(base);
        self.give(1, element(place, len, i))
    }

    /// The same of the caller's array that a parameter names.
    pub(crate) fn param_at(&mut self, at: Setting<'_>, slot: u32) -> Option<Pause>
        requires { IsReady (seen_code at.code.now) (instr.ParamAt slot) self.old }
        ensures { MovesAt at.entry (instr.ParamAt slot) self.old self.new result }
    {
        let place = self.words.get(self.place_of(slot));
        let len = self.words.get(self.place_of(slot) + 1);
        let i = self.calls.top(0);
        self.give(1, element(u64::from(place), len, i))
    }

    /// Pushes the place and the length of a global array.
    pub(crate) fn global_array(&mut self, at: Setting<'_>, base: u32, len: u32) -> Option<Pause>
        requires { IsReady (seen_code at.code.now) (instr.GlobalArray base len) self.old }
        ensures { MovesAt at.entry (instr.GlobalArray base len) self.old self.new result }
    {
        self.calls.push(u64::from(base));
        self.give(0, Ok(u64::from(len)))
    }

    /// Pushes the place and the length of an array of the frame.
    pub(crate) fn local_array(&mut self, at: Setting<'_>, base: u32, len: u32) -> Option<Pause>
        requires { IsReady (seen_code at.code.now) (instr.LocalArray base len) self.old }
        ensures { MovesAt at.entry (instr.LocalArray base len) self.old self.new result }
    {
        let place = self.place_of(base);
        self.calls.push(place);
        self.give(0, Ok(u64::from(len)))
    }

    /// Pushes the place and the length of the caller's array that a parameter names.
    pub(crate) fn param_array(&mut self, at: Setting<'_>, slot: u32) -> Option<Pause>
        requires { IsReady (seen_code at.code.now) (instr.ParamArray slot) self.old }
        ensures { MovesAt at.entry (instr.ParamArray slot) self.old self.new result }
    {
        let place = self.words.get(self.place_of(slot));
        let len = self.words.get(self.place_of(slot) + 1);
        self.calls.push(u64::from(place));
        self.give(0, Ok(u64::from(len)))
    }

    /// The operator's value takes the place of its two operands, or it stands before the operator's
    /// fault.
    pub(crate) fn binary(&mut self, at: Setting<'_>, op: BinaryOp, of: Ctype) -> Option<Pause>
        requires { IsReady (seen_code at.code.now) (instr.Binary op of) self.old }
        ensures { MovesAt at.entry (instr.Binary op of) self.old self.new result }
    {
        let left = self.calls.top(1) as u32;
        let right = self.calls.top(0) as u32;
        self.give(2, wide(apply_binary(op, of, left, right)))
    }

    /// Goes on at the target.
    pub(crate) fn jump(&mut self, at: Setting<'_>, target: u32) -> Option<Pause>
        requires { IsReady (seen_code at.code.now) (instr.Jump target) self.old }
        ensures { MovesAt at.entry (instr.Jump target) self.old self.new result }
    {
        self.frame.place = target;
        None
    }

    /// Takes the topmost operand off, and goes on at the target where it was 0.
    pub(crate) fn jump_zero(&mut self, at: Setting<'_>, target: u32) -> Option<Pause>
        requires { IsReady (seen_code at.code.now) (instr.JumpZero target) self.old }
        ensures { MovesAt at.entry (instr.JumpZero target) self.old self.new result }
    {
        let value = self.calls.top(0);
        self.calls.discard(1);
        if value == 0 {
            self.frame.place = target;
        } else {
            self.frame.place += 1;
        }
        None
    }

    /// Makes so many words of the frame 0.
    pub(crate) fn zero(&mut self, at: Setting<'_>, base: u32, len: u32) -> Option<Pause>
        requires { IsReady (seen_code at.code.now) (instr.Zero base len) self.old }
        ensures { MovesAt at.entry (instr.Zero base len) self.old self.new result }
    {
        let place = self.place_of(base);
        self.words.clear(place, len);
        self.frame.place += 1;
        None
    }

    /// Pushes the process's own number.
    pub(crate) fn self_no(&mut self, at: Setting<'_>) -> Option<Pause>
        requires { IsReady (seen_code at.code.now) instr.SelfNo self.old }
        ensures { MovesAt at.entry instr.SelfNo self.old self.new result }
    {
        self.give(0, Ok(u64::from(at.me.no)))
    }

    /// Pushes the number of processes.
    pub(crate) fn count(&mut self, at: Setting<'_>) -> Option<Pause>
        requires { IsReady (seen_code at.code.now) instr.Count self.old }
        ensures { MovesAt at.entry instr.Count self.old self.new result }
    {
        self.give(0, Ok(u64::from(at.count)))
    }

    /// The place of a word of the innermost frame.
    fn place_of(&self, slot: u32) -> u64
        ensures within { result < 2 ^ 33 }
        ensures same { result ≡ self.now.frame.base + slot }
    {
        u64::from(self.frame.base) + u64::from(slot)
    }
}

/// The place of an element, where the subscript is within.
fn element(place: u64, len: u32, i: u64) -> Result<u64, FaultCause>
    requires { place < 2 ^ 33 }
    ensures { result ≡ element_of place len i }
{
    if i < u64::from(len) {
        Ok(place + i)
    } else {
        Err(FaultCause::Index)
    }
}

/// The same value in 64 bits.
fn wide(value: Result<u32, FaultCause>) -> Result<u64, FaultCause>
    ensures { result ≡ value }
{
    match value {
        Ok(value) => Ok(u64::from(value)),
        Err(cause) => Err(cause),
    }
}
