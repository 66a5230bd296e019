//! What is visible at a place in the tree.

ghost use Rattle.std.specs.Prelude.{◌≡◌};
ghost use Rattle.c_checker.specs.Scope as spec;

use crate::entries::{Entries, Thing};
use crate::headings::Heading;
use c_tree::Slot;

/// The names that are visible and the functions that are declared.
#[derive(Clone, Copy)]
pub struct Scope<'a> {
    pub entries: &'a Entries,
    pub functions: &'a [Heading],
}

impl Scope<'_> {
    /// What a name stands for here.
    pub fn find(&self, name: &[u8]) -> Thing
        ensures { result ≡ spec.find self.now.entries.now name.now }
    {
        self.entries.find(name)
    }

    /// The parameters of a function.
    pub fn params(&self, function: u32) -> &[Slot]
        ensures { result.now ≡ spec.params_of self.now.functions.now function }
    {
        match self.functions.get(function as usize) {
            Some(heading) => heading.params.as_slice(),
            None => &[],
        }
    }
}
