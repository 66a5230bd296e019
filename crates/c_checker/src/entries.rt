//! The names that are visible.

ghost use Rattle.std.specs.Prelude.{◌≡◌, ℕ, [], ◌∷◌, ◌++◌, ◌-◌, List, Some, cond, length, take, drop, OnOk, OnErr, IsSome};
ghost use Rattle.std.specs.Str.{bytes_eq};
ghost use Rattle.std.specs.BTreeMap.{IsUnchanged};

use c_tree::{BuiltIn, Target};
use nm_base::{Bytes, Ctype, WantOfMemory};
use std::alloc::{AllocError, Global};
use std::collections::BTreeMap;
use std::marker::Model;

/// What a name stands for.
#[derive(Clone, Copy)]
pub enum Thing {
    Scalar { what: Target, of: Ctype },
    Array { what: Target, of: Ctype },
    Function { number: u32, result: Option<Ctype> },
    BuiltIn(BuiltIn),
    /// Nothing of this name is visible.
    Unknown,
}

/// A name that was declared.
#[derive(Drop)]
pub struct Entry {
    pub name: Bytes,
    pub thing: Thing,
}

/// A name that was declared, and what it hides.
#[derive(Drop)]
struct Held {
    entry: Entry,
    /// The place of the last entry of this name before it.
    hides: Option<usize>,
}

/// The names that are visible at a place in the tree, the innermost last.
#[derive(Drop)]
pub struct Entries {
    held: Vec<Held>,
    /// The place of the last entry of each name, none where it is visible no more.
    places: BTreeMap<Vec<u8>, Option<usize>>,
}

impl Model for Entries {
    ghost use Rattle.std.specs.Prelude.{List};
    ghost use Rattle.c_checker.specs.declared.entries.Entry.{Entry};

    ghost Value = { List Entry };

    ghost use Rattle.c_checker.specs.private.Places.{entries_of, Keeps};

    ghost view = { λ e. entries_of e.held.items };

    ghost invariant = { λ e. Keeps e.held.items e.places };
}

ghost use Rattle.c_checker.specs.Scope as spec;
ghost use Rattle.c_checker.specs.private.Places.{place, place_in};

/// Puts an entry after the others.
fn hold(held: &mut Vec<Held>, item: Held) -> Result<(), AllocError>
    ensures ok { OnOk result (held.new.items ≡ held.old.items ++ item ∷ []) }
    ensures err { OnErr result (held.new.items ≡ held.old.items) }
{
    held.push(item)?;
    Ok(())
}

/// Puts a place under a name.
fn put_place(
    places: &mut BTreeMap<Vec<u8>, Option<usize>>,
    name: Vec<u8>,
    place: usize,
) -> Result<(), AllocError>
    ensures ok { OnOk result
        ((other : List ℕ) → place_in places.new other
        ≡ cond (bytes_eq name.items other) (Some place) (place_in places.old other)) }
    ensures err { OnErr result (IsUnchanged places.old places.new) }
{
    places.insert(name, Some(place))?;
    Ok(())
}

/// Changes the place under a name.
fn set_place(places: &mut BTreeMap<Vec<u8>, Option<usize>>, name: &[u8], place: Option<usize>)
    requires { IsSome (place_in places.old name.now) }
    ensures { (other : List ℕ) → place_in places.new other
        ≡ cond (bytes_eq name.now other) place (place_in places.old other) }
{
    if let Some(found) = places.get_mut(name) {
        *found = place;
    }
}

impl Entries {
    pub fn new(alloc: Global) -> Entries
        ensures { result ≡ [] }
    {
        Entries {
            held: Vec::new(alloc),
            places: BTreeMap::new(alloc),
        }
    }

    /// The place of the last entry with a name.
    fn place_of(&self, name: &[u8]) -> Option<usize>
        ensures { result ≡ place name.now self.now }
    {
        match self.places.get(name) {
            Some(place) => *place,
            None => None,
        }
    }

    /// Adds a name after the others.
    pub fn push(&mut self, alloc: Global, entry: Entry) -> Result<(), WantOfMemory>
        ensures ok { OnOk result (self.new ≡ self.old ++ entry ∷ []) }
        ensures err { OnErr result (self.new ≡ self.old) }
    {
        let name = Vec::from_slice(alloc, entry.name.as_slice())?;
        let hides = self.place_of(name.as_slice());
        let place = self.held.len();
        hold(&mut self.held, Held { entry, hides })?;
        match put_place(&mut self.places, name, place) {
            Ok(()) => Ok(()),
            Err(e) => {
                let _ = self.held.pop();
                Err(e.into())
            }
        }
    }

    pub fn len(&self) -> usize
        ensures { result ≡ length self.now }
    {
        self.held.len()
    }

    /// Forgets the last name, and what it hid is visible again.
    fn pop(&mut self)
        ensures { self.new ≡ take (length self.old - 1) self.old }
    {
        if let Some(last) = self.held.pop() {
            set_place(&mut self.places, last.entry.name.as_slice(), last.hides);
        }
    }

    /// Forgets the names after the first `len`.
    pub fn truncate(&mut self, len: usize)
        ensures { self.new ≡ take len self.old }
    {
        while self.len() > len {
            self.pop();
        }
    }

    /// What a name stands for.
    pub fn find(&self, name: &[u8]) -> Thing
        ensures { result ≡ spec.find self.now name.now }
    {
        match self.place_of(name) {
            Some(place) => match self.held.get(place) {
                Some(held) => held.entry.thing,
                None => built_in(name),
            },
            None => built_in(name),
        }
    }

    /// Whether a name is one of those after the first `from`, or a built-in function's.
    pub fn is_taken(&self, name: &[u8], from: usize) -> bool
        ensures { result ≡ spec.is_taken name.now (drop from self.now) }
    {
        if is_built_in(name) {
            return true;
        }
        match self.place_of(name) {
            Some(place) => from <= place,
            None => false,
        }
    }
}

/// What a variable's name stands for.
pub fn variable(what: Target, of: Ctype, is_array: bool) -> Thing
    ensures { result ≡ spec.variable what of is_array }
{
    if is_array {
        Thing::Array { what, of }
    } else {
        Thing::Scalar { what, of }
    }
}

/// The built-in function with a name.
pub fn built_in(name: &[u8]) -> Thing
    ensures { result ≡ spec.built_in name.now }
{
    if name == b"self".as_slice() {
        Thing::BuiltIn(BuiltIn::SelfNo)
    } else if name == b"nprocs".as_slice() {
        Thing::BuiltIn(BuiltIn::Nprocs)
    } else if name == b"send".as_slice() {
        Thing::BuiltIn(BuiltIn::Send)
    } else if name == b"receive".as_slice() {
        Thing::BuiltIn(BuiltIn::Receive)
    } else if name == b"word".as_slice() {
        Thing::BuiltIn(BuiltIn::Word)
    } else if name == b"words".as_slice() {
        Thing::BuiltIn(BuiltIn::Words)
    } else if name == b"from".as_slice() {
        Thing::BuiltIn(BuiltIn::From)
    } else if name == b"via".as_slice() {
        Thing::BuiltIn(BuiltIn::Via)
    } else if name == b"printf".as_slice() {
        Thing::BuiltIn(BuiltIn::Printf)
    } else {
        Thing::Unknown
    }
}

/// Whether a name is that of a built-in function.
pub fn is_built_in(name: &[u8]) -> bool
    ensures { result ≡ spec.is_built_in (spec.built_in name.now) }
{
    matches!(built_in(name), Thing::BuiltIn(_))
}
