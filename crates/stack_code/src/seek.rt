//! What a look at code finds.

ghost use Rattle.std.specs.Prelude.{◌≡◌, slice_get};
ghost use Rattle.std.specs.Option.{option_copied};
ghost use Rattle.stack_code.specs.Seek.{first_named, is_named, in_block, as_global, as_local};

use crate::code::Variable;
use nm_base::Ctype;

/// An instruction, by its function's number and its place in that function's code.
#[derive(Clone, Copy, Debug, PartialEq, Eq)]
pub struct CodePlace {
    pub function: u32,
    pub place: u32,
}

/// Where a variable's words lie.
#[derive(Clone, Copy, Debug, PartialEq, Eq)]
pub enum Home {
    /// Among the globals' words.
    Global,
    /// In the frame.
    Local,
    /// In the frame are the place and the length of the caller's array.
    ArrayParam,
}

/// A variable: `slot` is the place of its first word from the first of the globals or of the frame
/// on, and `length` that of an array. An array parameter has no length of its own.
#[derive(Clone, Copy, Debug, PartialEq, Eq)]
pub struct Found {
    pub home: Home,
    pub slot: u32,
    pub of: Ctype,
    pub length: Option<u32>,
}

/// The first variable with the name.
pub(crate) fn named<'v>(variables: &'v [Variable], name: &[u8]) -> Option<&'v Variable>
    ensures { option_copied result ≡ first_named name.now variables.now }
{
    for variable in variables {
        if variable.name.as_slice() == name {
            return Some(variable);
        }
    }
    None
}

/// The variable of that number, if there is one.
fn variable_at(variables: &[Variable], number: u32) -> Option<&Variable>
    ensures { option_copied result ≡ slice_get variables.now number }
{
    variables.get(number as usize)
}

fn has_name(variable: Option<&Variable>, name: &[u8]) -> bool
    ensures { result ≡ is_named name.now (option_copied variable.entry) }
{
    match variable {
        None => false,
        Some(variable) => variable.name.as_slice() == name,
    }
}

/// The first local of a block with the name, by the numbers of the block's slots.
pub(crate) fn local_named<'v>(
    slots: &'v [Variable],
    block: &[u32],
    name: &[u8],
) -> Option<&'v Variable>
    ensures { option_copied result ≡ in_block name.now slots.now block.now }
{
    for slot in block {
        let local = variable_at(slots, *slot);
        if has_name(local, name) {
            return local;
        }
    }
    None
}

pub(crate) fn global_found(variable: &Variable) -> Found
    ensures { result ≡ as_global variable.now }
{
    Found {
        home: Home::Global,
        slot: variable.place,
        of: variable.of,
        length: variable.length,
    }
}

pub(crate) fn local_found(variable: &Variable) -> Found
    ensures { result ≡ as_local variable.now }
{
    let (home, length) = if variable.array_param {
        (Home::ArrayParam, None)
    } else {
        (Home::Local, variable.length)
    };
    Found {
        home,
        slot: variable.place,
        of: variable.of,
        length,
    }
}
