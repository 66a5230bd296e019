//! How many operands the functions of code have at most.

ghost use Rattle.std.specs.Prelude.{◌≡◌, ℕ, ◌+◌, ◌*◌, ◌<◌, ◌≤◌, ◌^◌, length, slice_get, Some};
ghost use Rattle.stack_code.specs.Code.{Placed, steps_of};
ghost use Rattle.stack_code.specs.View.{seen_code};
ghost use Rattle.proc_machine.specs.private.Heights.{takes, pushes, height_at, jump_on, after, high};

use stack_code::{Code, Instr};

/// What is known of the operands before a place of a function.
#[derive(Clone, Copy)]
pub(crate) struct Level {
    /// How many there are at most where the code goes on to the place.
    pub now: usize,
    /// How many there were at most at the jumps to later places.
    pub jumped: usize,
    /// The last place to which these lead.
    pub reach: usize,
}

impl Level {
    /// How many operands there are at most at this place.
    fn height(self, place: usize) -> usize
        ensures { result ≡ height_at place self }
    {
        if place <= self.reach {
            self.now.max(self.jumped)
        } else {
            self.now
        }
    }

    /// A jump with so many operands to a target, and so many where the code goes on.
    fn jump_on(self, place: usize, target: usize, height: usize, now: usize) -> Level
        ensures { result ≡ jump_on place target height now self }
    {
        if place < self.reach {
            Level {
                now,
                jumped: self.jumped.max(height),
                reach: self.reach.max(target),
            }
        } else {
            Level {
                now,
                jumped: height,
                reach: target,
            }
        }
    }

    /// What is known behind an instruction at this place.
    fn after(self, code: &Code, place: usize, instr: Instr) -> Level
        requires now { self.now ≤ 2 * place }
        requires jumped { self.jumped ≤ 2 * place }
        requires short { place < 2 ^ 32 }
        ensures same { result ≡ after (seen_code code.entry.now) place instr self }
        ensures now { result.now ≤ 2 * (place + 1) }
        ensures jumped { result.jumped ≤ 2 * (place + 1) }
    {
        let height = self.height(place);
        match instr {
            Instr::Line(_) | Instr::Return => Level { now: 0, ..self },
            Instr::Jump(target) => self.jump_on(place, target as usize, height, 0),
            Instr::JumpZero(target) => {
                let left = height.saturating_sub(1);
                self.jump_on(place, target as usize, left, left)
            }
            _ => {
                let now = height.saturating_sub(takes(code, instr)) + pushes(instr);
                Level { now, ..self }
            }
        }
    }
}

/// How many operands an instruction takes off at least.
fn takes(code: &Code, instr: Instr) -> usize
    ensures { result ≡ takes (seen_code code.entry.now) instr }
{
    match instr {
        Instr::Swap | Instr::Store | Instr::Binary(..) => 2,
        Instr::Call(function) if function < code.functions() => {
            code.frame(function).param_words as usize
        }
        Instr::Send(words) => words as usize + 2,
        Instr::Drop
        | Instr::Dup
        | Instr::GlobalAt { .. }
        | Instr::LocalAt { .. }
        | Instr::ParamAt(_)
        | Instr::Load
        | Instr::Unary(..)
        | Instr::JumpZero(_)
        | Instr::Return
        | Instr::Receive
        | Instr::Word => 1,
        _ => 0,
    }
}

/// How many operands an instruction pushes.
fn pushes(instr: Instr) -> usize
    ensures same { result ≡ pushes instr }
    ensures few { result ≤ 2 }
{
    match instr {
        Instr::Dup
        | Instr::Swap
        | Instr::GlobalArray { .. }
        | Instr::LocalArray { .. }
        | Instr::ParamArray(_) => 2,
        Instr::Line(_)
        | Instr::Drop
        | Instr::Jump(_)
        | Instr::JumpZero(_)
        | Instr::Zero { .. }
        | Instr::Return => 0,
        _ => 1,
    }
}

/// At least two more than the operands of a function at any of its places.
fn height_of(code: &Code, function: u32) -> usize
    requires known { function < length (seen_code code.now).functions }
    requires short { length (steps_of (seen_code code.now) function) < 2 ^ 30 }
    ensures most { (place : ℕ) → place < length (steps_of (seen_code code.entry.now) function)
        → high (seen_code code.entry.now) function place + 2 ≤ result }
    ensures within { result < 2 ^ 32 }
{
    let mut level = Level {
        now: 0,
        jumped: 0,
        reach: 0,
    };
    let mut most = 0;
    for place in 0..code.steps(function) {
        most = most.max(level.height(place) + 2);
        level = level.after(code, place, code.instr(function, place as u32));
    }
    most
}

/// At least two more than the operands of any function at any of its places.
pub(crate) fn greatest_height(code: &Code) -> usize
    requires { (g : ℕ) → length (steps_of (seen_code code.now) g) < 2 ^ 30 }
    ensures most { (g place : ℕ) → place < length (steps_of (seen_code code.entry.now) g)
        → high (seen_code code.entry.now) g place + 2 ≤ result }
    ensures within { result < 2 ^ 32 }
{
    let mut most = 0;
    for function in 0..code.functions() {
        most = most.max(height_of(code, function));
    }
    most
}
