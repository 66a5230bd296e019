//! How code names variables.

ghost use Rattle.std.specs.Prelude.{◌≡◌, slice_get};
ghost use Rattle.std.specs.Option.{option_copied};
ghost use Rattle.c_tree.specs.Storage.{words_of_global, words_of_slot};
ghost use Rattle.c_compile.specs.ExprCode as spec;
ghost use Rattle.c_compile.specs.private.Emitted.{passed};

use c_tree::{Global, Slot};
use stack_code::{Instr, Variable};

/// The words of a global.
pub fn global_words(global: &Global) -> u32
    ensures { result ≡ words_of_global global.now }
{
    global.length.unwrap_or(1)
}

/// The words of a slot. An array parameter keeps the place and the length of the caller's array.
pub fn slot_words(slot: &Slot) -> u32
    ensures { result ≡ words_of_slot slot.now }
{
    if slot.array_param {
        2
    } else {
        slot.length.unwrap_or(1)
    }
}

/// The variable with a number.
pub fn variable_at(variables: &[Variable], number: u32) -> Option<&Variable>
    ensures { option_copied result ≡ slice_get variables.now number }
{
    variables.get(number as usize)
}

/// Takes a subscript, and pushes the place of that element of a global.
pub fn at_global(base: u32, global: Option<&Global>) -> Instr
    ensures { (sh : spec.Shape) → result ≡ spec.at_global sh base (option_copied global.entry) }
{
    let len = match global {
        None => 0,
        Some(global) => global.length.unwrap_or(0),
    };
    Instr::GlobalAt { base, len }
}

/// Takes a subscript, and pushes the place of that element of a slot.
pub fn at_slot(base: u32, slot: Option<&Slot>) -> Instr
    ensures { (sh : spec.Shape) → result ≡ spec.at_slot sh base (option_copied slot.entry) }
{
    match slot {
        None => Instr::LocalAt { base, len: 0 },
        Some(slot) if slot.array_param => Instr::ParamAt(base),
        Some(slot) => Instr::LocalAt {
            base,
            len: slot.length.unwrap_or(0),
        },
    }
}

/// Pushes a global's place and length, where it is an array.
pub fn global_array(base: u32, global: Option<&Global>) -> Option<Instr>
    ensures { (sh : spec.Shape) → spec.global_argument sh base (option_copied global.entry)
        ≡ passed (Instr.GlobalPlace base) result }
{
    match global {
        None => None,
        Some(global) => match global.length {
            None => None,
            Some(len) => Some(Instr::GlobalArray { base, len }),
        },
    }
}

/// Pushes a slot's place and length, where it is an array.
pub fn slot_array(base: u32, slot: Option<&Slot>) -> Option<Instr>
    ensures { (sh : spec.Shape) → spec.slot_argument sh base (option_copied slot.entry)
        ≡ passed (Instr.LocalPlace base) result }
{
    match slot {
        None => None,
        Some(slot) if slot.array_param => Some(Instr::ParamArray(base)),
        Some(slot) => match slot.length {
            None => None,
            Some(len) => Some(Instr::LocalArray { base, len }),
        },
    }
}
