//! The operands of all calls in one vector.

ghost use Rattle.std.specs.Prelude.{◌≡◌, ℕ, ◌+◌, ◌-◌, ◌<◌, ◌≤◌, [], ◌∷◌, ◌++◌, length, take, drop, reverse, slice_index, IfOk};
ghost use Rattle.proc_machine.specs.Divided.{upper, lower};

use nm_base::WantOfMemory;
use std::alloc::Global;
use std::marker::Model;

/// The operands of the function that runs, above those of its callers, with memory for a fixed
/// number of them. An operand is a word or the place of one, so it may pass 32 bits.
#[derive(Drop)]
pub(crate) struct Operands {
    items: Vec<u64>,
    /// How many belong to the callers.
    base: usize,
    limit: usize,
}

impl Model for Operands {
    ghost use Rattle.std.specs.Prelude.{◌≤◌, reverse};
    ghost use Rattle.std.specs.Vec.{vec_len, vec_capacity};
    ghost use Rattle.proc_machine.specs.private.Stacked.{OperandStack};
    ghost use Rattle.proc_machine.specs.Divided.{upper, lower};

    ghost Value = { OperandStack };

    ghost view = { λ o. record {
      own = upper o.base (reverse o.items.items);
      outer = lower o.base (reverse o.items.items);
      limit = o.limit;
    } };

    ghost invariant = { λ o. (o.base ≤ vec_len o.items) × (o.limit ≤ vec_capacity o.items) };
}

impl Operands {
    /// No operands, and memory for so many.
    pub(crate) fn with_room(alloc: Global, limit: usize) -> Result<Operands, WantOfMemory>
        ensures { IfOk result (λ o. o ≡ record { own = []; outer = []; limit = limit }) }
    {
        let items = Vec::with_capacity(alloc, limit)?;
        Ok(Operands {
            items,
            base: 0,
            limit,
        })
    }

    /// The operand that is so many below the topmost.
    pub(crate) fn top(&self, i: usize) -> u64
        requires { i < length self.now.own }
        ensures { result ≡ slice_index self.now.own i }
    {
        self.items[self.items.len() - 1 - i]
    }

    /// The topmost operands, in the order in which they were pushed.
    pub(crate) fn last(&self, n: usize) -> &[u64]
        requires { n ≤ length self.now.own }
        ensures { result.now ≡ reverse (take n self.now.own) }
    {
        &self.items.as_slice()[self.items.len() - n..]
    }

    pub(crate) fn push(&mut self, x: u64)
        requires { length self.old.own + length self.old.outer < self.old.limit }
        ensures { self.new ≡ record self.old { own = x ∷ self.old.own } }
    {
        self.items.push_reserved(x);
    }

    /// Takes off the topmost.
    pub(crate) fn discard(&mut self, n: usize)
        requires { n ≤ length self.old.own }
        ensures { self.new ≡ record self.old { own = drop n self.old.own } }
    {
        let left = self.items.len() - n;
        self.items.truncate(left);
    }

    /// A function is called: all operands so far are those of its callers. Answers how many belonged
    /// to callers before.
    pub(crate) fn enter(&mut self) -> usize
        ensures before { result ≡ length self.old.outer }
        ensures after { self.new ≡ record self.old { own = []; outer = self.old.own ++ self.old.outer } }
    {
        let below = self.base;
        self.base = self.items.len();
        below
    }

    /// A function returns: its operands go, and its caller runs on, above so many operands.
    pub(crate) fn leave(&mut self, below: usize)
        ensures { self.new ≡ record self.old { own = upper below self.old.outer; outer = lower below self.old.outer } }
    {
        self.items.truncate(self.base);
        self.base = below.min(self.items.len());
    }

    /// The same operands, with as much memory.
    pub(crate) fn copy(&self, alloc: Global) -> Result<Operands, WantOfMemory>
        ensures { IfOk result (λ o. o ≡ self.now) }
    {
        let mut items = Vec::with_capacity(alloc, self.items.capacity())?;
        items.extend_from_slice(self.items.as_slice())?;
        Ok(Operands {
            items,
            base: self.base,
            limit: self.limit,
        })
    }
}
