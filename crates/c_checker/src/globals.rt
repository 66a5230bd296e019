//! Global variables.

ghost use Rattle.std.specs.Prelude.{◌≡◌, [], length, IfOk, IfErr};
ghost use Rattle.c_checker.specs.Found.{CheckGives, Refuses};
ghost use Rattle.c_checker.specs.Scope.{ScopeNames};
ghost use Rattle.c_checker.specs.Units as spec;
ghost use Rattle.c_tree.specs.Storage as storage;

use crate::body::{pattern, size, test_declr};
use crate::entries::{Entry, variable as thing_of};
use crate::fault::CheckFault;
use crate::state::File;
use c_tree::{Declr, Expr, Global as Variable, Target};
use nm_base::{Ctype, MAX_DATA_WORDS};
use std::alloc::Global;

/// The most globals.
const MAX_GLOBALS: usize = 1024;
/// The most words of the globals.
const MAX_WORDS: u64 = MAX_DATA_WORDS as u64;

/// The pattern of an initialiser, 0 without one.
fn initial(e: &Option<Expr>) -> Result<u32, CheckFault>
    ensures { (names : ScopeNames) → CheckGives (spec.initial names e.now) result tt }
{
    match e {
        Some(e) => pattern(e),
        None => Ok(0),
    }
}

/// The number for a new global.
#[tactic(auto, using(crate::proofs::Found::refuses_left))]
fn free_number(file: &File, d: &Declr) -> Result<u32, CheckFault>
    ensures yes { IfOk result (λ n. (spec.global_faults d.now file.now ≡ []) × (n ≡ length file.now.globals)) }
    ensures no { IfErr result (λ f. Refuses (spec.global_faults d.now file.now) f) }
{
    test_declr(d)?;
    let number = file.globals.as_slice().len();
    if number >= MAX_GLOBALS {
        return Err(CheckFault::TooMany { line: d.line });
    }
    Ok(number as u32)
}

/// Makes the name of the global with this number visible.
fn enter_global(
    alloc: Global,
    file: &mut File,
    of: Ctype,
    d: &Declr,
    number: u32,
) -> Result<(), CheckFault>
    ensures { CheckGives (spec.enter_global (spec.global_entry of d.now number) d.now.line file.old) result file.new }
{
    if file.entries.is_taken(d.name.as_slice(), 0) {
        return Err(CheckFault::Twice { line: d.line });
    }
    let entry = Entry {
        name: d.name.copy(alloc)?,
        thing: thing_of(Target::Global(number), of, d.size.is_some()),
    };
    file.entries.push(alloc, entry)?;
    Ok(())
}

/// The words of a variable.
fn words_of(variable: &Variable) -> u32
    ensures { result ≡ storage.words_of_global variable.now }
{
    variable.length.unwrap_or(1)
}

/// Counts the words of a global.
fn count_words(file: &mut File, variable: &Variable, line: u32) -> Result<(), CheckFault>
    ensures { CheckGives (spec.count_words variable.now line file.old) result file.new }
{
    let words = u64::from(file.words) + u64::from(words_of(variable));
    if words > MAX_WORDS {
        return Err(CheckFault::BadSize { line });
    }
    file.words = words as u32;
    Ok(())
}

/// Adds a global after the others.
fn add_global(alloc: Global, file: &mut File, variable: Variable) -> Result<(), CheckFault>
    ensures { CheckGives (spec.add_global variable file.old) result file.new }
{
    file.globals.push(alloc, variable)?;
    Ok(())
}

/// A global of a type.
#[tactic(auto, using(crate::proofs::Found::refuses_left))]
fn global(alloc: Global, file: &mut File, of: Ctype, d: &Declr) -> Result<(), CheckFault>
    ensures { CheckGives (spec.global of d.now file.old) result file.new }
{
    let number = free_number(file, d)?;
    enter_global(alloc, file, of, d, number)?;
    let length = size(&d.size, d.line)?;
    let start = initial(&d.start)?;
    let variable = Variable {
        name: d.name.copy(alloc)?,
        of,
        length,
        start,
    };
    count_words(file, &variable, d.line)?;
    add_global(alloc, file, variable)
}

/// Globals of one type.
#[tactic(auto, using(crate::proofs::Found::refuses_left))]
pub fn globals(
    alloc: Global,
    file: &mut File,
    of: Ctype,
    mut list: &[Declr],
) -> Result<(), CheckFault>
    ensures { CheckGives (spec.globals of list.entry.now file.old) result file.new }
{
    while let [d, rest @ ..] = list {
        global(alloc, file, of, d)?;
        list = rest;
    }
    Ok(())
}
