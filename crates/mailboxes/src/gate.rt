//! Gates.

use nm_base::{LetterId, ProcNo};

/// Says which letter a receive may accept, and whether a process may go on.
pub trait Gate {
    ghost use Rattle.std.specs.Prelude.{◌≡◌, ℕ, Bool};
    ghost use Rattle.nm_base.specs.declared.letter.LetterId.{LetterId};

    ghost lets: { Self → ℕ → ℕ → LetterId → Bool };

    ghost lets_go: { Self → ℕ → ℕ → Bool };

    /// Whether the process may accept the letter at its receive of this number, from 0.
    fn allows(&self, p: ProcNo, receive: u32, id: LetterId) -> bool
        ensures { result ≡ lets self.now p.no receive id };

    /// Whether the process may make one more event after this many.
    fn may_go(&self, p: ProcNo, count: u32) -> bool
        ensures { result ≡ lets_go self.now p.no count };
}

/// A gate that allows all.
#[derive(Clone, Copy, Debug)]
pub struct FreeGate;

impl Gate for FreeGate {
    ghost use Rattle.std.specs.Prelude.{true};

    ghost lets = { λ g p receive id. true };

    ghost lets_go = { λ g p count. true };

    fn allows(&self, _p: ProcNo, _receive: u32, _id: LetterId) -> bool {
        true
    }

    fn may_go(&self, _p: ProcNo, _count: u32) -> bool {
        true
    }
}
