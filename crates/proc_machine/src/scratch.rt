//! Memory in which a print is tried before it is made.

ghost use Rattle.std.specs.Prelude.{◌≡◌, ℕ, ◌*◌, ◌<◌, ◌≤◌, ◌^◌, length};
ghost use Rattle.std.specs.List.{AllWithin};
ghost use Rattle.c_tree.specs.Print.{printed};

use crate::printing::push_printed;
use nm_base::WantOfMemory;
use std::alloc::Global;
use std::marker::Model;

/// Memory for what one format prints. What is left in it says nothing.
#[derive(Drop)]
pub(crate) struct Scratch {
    bytes: Vec<u8>,
}

impl Model for Scratch {
    ghost use Rattle.std.specs.Prelude.{◌≤◌};
    ghost use Rattle.std.specs.Vec.{vec_capacity};

    ghost Value = { Unit {0} };

    ghost view = { λ s. tt };

    ghost invariant = { λ s. 4096 ≤ vec_capacity s.bytes };
}

impl Scratch {
    pub(crate) fn new(alloc: Global) -> Result<Scratch, WantOfMemory> {
        let bytes = Vec::with_capacity(alloc, 4096)?;
        Ok(Scratch { bytes })
    }

    /// How many bytes a format prints of these values.
    pub(crate) fn printed_length(&mut self, text: &[u8], values: &[u64]) -> usize
        requires few { length text.now ≤ 509 }
        requires words { AllWithin (λ x. x < 2 ^ 32) values.now 0 (length values.now) }
        ensures { result ≡ length (printed text.now values.now) }
    {
        self.bytes.clear();
        push_printed(&mut self.bytes, text, values);
        self.bytes.len()
    }
}
