//! The calls that haven't returned, with the operands of each.

ghost use Rattle.std.specs.Prelude.{◌≡◌, ℕ, ◌+◌, ◌-◌, ◌*◌, ◌<◌, ◌≤◌, ◌^◌, [], ◌∷◌, ◌++◌, length, take, drop, reverse, slice_index, slice_get, Some, IfOk, IfSome, MatchOption};
ghost use Rattle.proc_machine.specs.private.Stacked.{entered, left_to};

use crate::callers::{Caller, Callers, Frame};
use crate::operands::Operands;
use nm_base::WantOfMemory;
use std::alloc::Global;
use std::marker::Model;

/// The operands of the function that runs and of its callers, with memory for so many of each.
#[derive(Drop)]
pub(crate) struct CallStack {
    operands: Operands,
    callers: Callers,
    height: usize,
}

impl Model for CallStack {
    ghost use Rattle.std.specs.Prelude.{◌≤◌, ◌*◌, length};
    ghost use Rattle.proc_machine.specs.private.Stacked.{Calls, Fits};

    ghost Value = { Calls };

    ghost view = { λ c. record {
      own = c.operands.own;
      outer = c.operands.outer;
      callers = c.callers;
      height = c.height;
    } };

    ghost invariant = { λ c. (256 * c.height ≤ c.operands.limit) × (length c.callers ≤ 255)
        × Fits c.height c.callers c.operands.outer };
}

impl CallStack {
    /// No callers and no operands, and memory for so many operands of each function.
    pub(crate) fn with_room(alloc: Global, height: usize) -> Result<CallStack, WantOfMemory>
        ensures { IfOk result (λ c. c ≡ record { own = []; outer = []; callers = []; height = height }) }
    {
        let limit = height.checked_mul(256).ok_or(WantOfMemory)?;
        let operands = Operands::with_room(alloc, limit)?;
        let callers = Callers::with_room(alloc)?;
        Ok(CallStack {
            operands,
            callers,
            height,
        })
    }

    /// The operand that is so many below the topmost.
    pub(crate) fn top(&self, i: usize) -> u64
        requires { i < length self.now.own }
        ensures { result ≡ slice_index self.now.own i }
    {
        self.operands.top(i)
    }

    /// The topmost operands, in the order in which they were pushed.
    pub(crate) fn last(&self, n: usize) -> &[u64]
        requires { n ≤ length self.now.own }
        ensures { result.now ≡ reverse (take n self.now.own) }
    {
        self.operands.last(n)
    }

    pub(crate) fn push(&mut self, x: u64)
        requires { length self.old.own < self.old.height }
        ensures { self.new ≡ record self.old { own = x ∷ self.old.own } }
    {
        self.operands.push(x);
    }

    /// Takes off the topmost.
    pub(crate) fn discard(&mut self, n: usize)
        requires { n ≤ length self.old.own }
        ensures { self.new ≡ record self.old { own = drop n self.old.own } }
    {
        self.operands.discard(n);
    }

    /// How many callers there are.
    pub(crate) fn callers(&self) -> usize
        ensures same { result ≡ length self.now.callers }
        ensures within { result ≤ 255 }
    {
        self.callers.len()
    }

    /// The caller of this number, 0 the innermost.
    pub(crate) fn caller(&self, i: usize) -> Caller
        requires { i < length self.now.callers }
        ensures { slice_get self.now.callers i ≡ Some result }
    {
        self.callers.get(i)
    }

    /// The function with this frame calls: the operands that are left are its own.
    pub(crate) fn enter(&mut self, frame: Frame)
        requires room { length self.old.own < self.old.height }
        requires depth { length self.old.callers < 255 }
        requires onward { frame.place + 1 < 2 ^ 32 }
        ensures { self.new ≡ entered frame self.old }
    {
        let below = self.operands.enter();
        self.callers.push(Caller { frame, below });
    }

    /// The innermost caller goes on, if there is one.
    pub(crate) fn leave(&mut self) -> Option<Caller>
        ensures taken { MatchOption result ((self.old.callers ≡ []) × (self.new ≡ self.old))
            (λ k. (self.old.callers ≡ k ∷ self.new.callers) × (self.new ≡ left_to k self.new.callers self.old)) }
        ensures onward { IfSome result (λ k. (k.frame.place + 1 < 2 ^ 32) × (length self.new.own < self.new.height)) }
    {
        match self.callers.pop() {
            None => None,
            Some(caller) => {
                self.operands.leave(caller.below);
                Some(caller)
            }
        }
    }

    /// The same, with as much memory.
    pub(crate) fn copy(&self, alloc: Global) -> Result<CallStack, WantOfMemory>
        ensures { IfOk result (λ c. c ≡ self.now) }
    {
        let operands = self.operands.copy(alloc)?;
        let callers = self.callers.copy(alloc)?;
        Ok(CallStack {
            operands,
            callers,
            height: self.height,
        })
    }
}
