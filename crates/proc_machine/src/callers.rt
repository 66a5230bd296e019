//! The calls that haven't returned.

ghost use Rattle.std.specs.Prelude.{◌≡◌, ℕ, ◌+◌, ◌^◌, ◌<◌, ◌≤◌, [], ◌∷◌, length, slice_get, Some, IfOk, IfSome, MatchOption};

use nm_base::WantOfMemory;
use std::alloc::Global;
use std::marker::Model;

/// How many calls there may be round the function that runs.
pub(crate) const CALLERS_LIMIT: usize = 255;

/// A function and where it is.
#[derive(Clone, Copy, Debug, PartialEq, Eq)]
pub(crate) struct Frame {
    pub function: u32,
    /// Where the function's instructions begin among those of all functions.
    pub start: u32,
    /// The next instruction; of a caller its Call.
    pub place: u32,
    /// The line of its last Line event, before the first that of the function's name.
    pub line: u32,
    /// The place of its first word.
    pub base: u32,
}

/// A call that hasn't returned: the caller's frame, and how many operands are below its own.
#[derive(Clone, Copy, Debug, PartialEq, Eq)]
pub(crate) struct Caller {
    pub frame: Frame,
    pub below: usize,
}

/// The callers, each called by the next, with memory for all that there may be.
#[derive(Drop)]
pub(crate) struct Callers {
    items: Vec<Caller>,
}

impl Model for Callers {
    ghost use Rattle.std.specs.Prelude.{◌≤◌, List, reverse, IsTrue};
    ghost use Rattle.std.specs.List.{list_all};
    ghost use Rattle.proc_machine.specs.private.Callers.{goes_on};
    ghost use Rattle.std.specs.Vec.{vec_len, vec_capacity};
    ghost use Rattle.proc_machine.specs.declared.callers.Caller.{Caller as OneCaller};

    ghost Value = { List OneCaller };

    ghost view = { λ c. reverse c.items.items };

    ghost invariant = { λ c. (vec_len c.items ≤ 255) × (255 ≤ vec_capacity c.items)
        × IsTrue (list_all goes_on c.items.items) };
}

impl Callers {
    pub(crate) fn with_room(alloc: Global) -> Result<Callers, WantOfMemory>
        ensures { IfOk result (λ c. c ≡ []) }
    {
        let items = Vec::with_capacity(alloc, CALLERS_LIMIT)?;
        Ok(Callers { items })
    }

    pub(crate) fn len(&self) -> usize
        ensures same { result ≡ length self.now }
        ensures within { result ≤ 255 }
    {
        self.items.len()
    }

    /// The caller of this number, 0 the innermost.
    pub(crate) fn get(&self, i: usize) -> Caller
        requires { i < length self.now }
        ensures { slice_get self.now i ≡ Some result }
    {
        self.items[self.items.len() - 1 - i]
    }

    pub(crate) fn push(&mut self, caller: Caller)
        requires room { length self.old < 255 }
        requires onward { caller.frame.place + 1 < 2 ^ 32 }
        ensures { self.new ≡ caller ∷ self.old }
    {
        self.items.push_reserved(caller);
    }

    /// Takes the innermost off, if there is one.
    pub(crate) fn pop(&mut self) -> Option<Caller>
        ensures taken { MatchOption result ((self.old ≡ []) × (self.new ≡ [])) (λ c. self.old ≡ c ∷ self.new) }
        ensures onward { IfSome result (λ c. c.frame.place + 1 < 2 ^ 32) }
    {
        self.items.pop()
    }

    /// The same callers, with as much memory.
    pub(crate) fn copy(&self, alloc: Global) -> Result<Callers, WantOfMemory>
        ensures { IfOk result (λ c. c ≡ self.now) }
    {
        let mut items = Vec::with_capacity(alloc, CALLERS_LIMIT)?;
        items.extend_from_slice(self.items.as_slice())?;
        Ok(Callers { items })
    }
}
