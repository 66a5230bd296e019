//! Heads of functions.

ghost use Rattle.std.specs.Prelude.{◌≡◌, List, [], Some, length, unwrap_or, IfOk, IfErr};
ghost use Rattle.std.specs.List.{list_any};
ghost use Rattle.std.specs.Str.{bytes_eq};
ghost use Rattle.c_checker.specs.Found.{CheckGives, Refuses, Tests};
ghost use Rattle.c_checker.specs.Scope.{ScopeNames};
ghost use Rattle.c_tree.specs.declared.program.Slot.{Slot};
ghost use Rattle.c_checker.specs.Units as spec;

use crate::body::{is_name, size};
use crate::entries::{Entry, Thing, is_built_in};
use crate::fault::CheckFault;
use crate::headings::Heading;
use crate::state::File;
use crate::types::same_type;
use c_tree::{Head, Param, Slot};
use nm_base::{Bytes, Ctype, List, WantOfMemory};
use std::alloc::Global;

/// The most parameters of a function.
const MAX_PARAMS: usize = 31;
/// The most functions.
const MAX_FUNCTIONS: usize = 512;

/// Whether a parameter has this name.
fn has_param(name: &[u8], mut params: &[Slot]) -> bool
    ensures { result ≡ list_any (λ x. bytes_eq x.name name.now) params.entry.now }
{
    while let [param, rest @ ..] = params {
        if param.name.as_slice() == name {
            return true;
        }
        params = rest;
    }
    false
}

/// Whether a name is that of an earlier parameter or of a built-in function.
fn is_taken_param(name: &[u8], before: &[Slot]) -> bool
    ensures { result ≡ spec.is_taken_param name.now before.now }
{
    is_built_in(name) || has_param(name, before)
}

/// Whether a parameter can have its name, in a definition or not.
#[tactic(auto, using(crate::proofs::Found::refuses_left))]
fn test_param_name(
    defines: bool,
    before: &[Slot],
    name: &Option<Bytes>,
    line: u32,
) -> Result<(), CheckFault>
    ensures { Tests (spec.param_name_faults defines before.now name.now line) result }
{
    match name {
        None if defines => Err(CheckFault::TooMany { line }),
        None => Ok(()),
        Some(name) if !is_name(name.as_slice()) => Err(CheckFault::TooMany { line }),
        Some(name) if is_taken_param(name.as_slice(), before) => Err(CheckFault::Twice { line }),
        Some(_) => Ok(()),
    }
}

#[tactic(auto, using(crate::proofs::Found::refuses_left))]
fn test_param(defines: bool, before: &[Slot], param: &Param) -> Result<(), CheckFault>
    ensures { Tests (spec.param_faults defines before.now param.now) result }
{
    test_param_name(defines, before, &param.name, param.line)?;
    if before.len() >= MAX_PARAMS {
        return Err(CheckFault::TooMany { line: param.line });
    }
    Ok(())
}

fn copy_name(alloc: Global, name: &Option<Bytes>) -> Result<Bytes, WantOfMemory>
    ensures { IfOk result (λ b. b ≡ unwrap_or name.now []) }
{
    match name {
        Some(name) => Ok(name.copy(alloc)?),
        None => Ok(Bytes::from_vec(Vec::new(alloc))),
    }
}

/// The slot of a parameter.
fn slot_of_param(alloc: Global, param: &Param) -> Result<Slot, WantOfMemory>
    ensures { IfOk result (λ x. x ≡ spec.slot_of_param param.now) }
{
    Ok(Slot {
        name: copy_name(alloc, &param.name)?,
        of: param.of,
        length: None,
        array_param: param.array,
        block: 0,
    })
}

/// The parameters of a head.
fn params(alloc: Global, defines: bool, mut list: &[Param]) -> Result<List<Slot>, CheckFault>
    ensures { (names : List Slot → ScopeNames) → CheckGives (spec.params names defines [] list.entry.now) result tt }
{
    let mut before = List::from_vec(Vec::new(alloc));
    while let [param, rest @ ..] = list {
        test_param(defines, before.as_slice(), param)?;
        size(&param.size, param.line)?;
        let slot = slot_of_param(alloc, param)?;
        before.push(alloc, slot)?;
        list = rest;
    }
    Ok(before)
}

/// Whether two parameters have the same type.
fn same_kind(a: &Slot, b: &Slot) -> bool
    ensures { result ≡ spec.same_kind a.now b.now }
{
    same_type(a.of, b.of) && a.array_param == b.array_param
}

fn same_kinds(a: &[Slot], b: &[Slot]) -> bool
    ensures { result ≡ spec.same_kinds a.now b.now }
{
    match a {
        [] => b.is_empty(),
        [x, xs @ ..] => match b {
            [] => false,
            [y, ys @ ..] => same_kind(x, y) && same_kinds(xs, ys),
        },
    }
}

fn same_result(a: Option<Ctype>, b: Option<Ctype>) -> bool
    ensures { result ≡ spec.same_result a b }
{
    match (a, b) {
        (None, None) => true,
        (Some(a), Some(b)) => same_type(b, a),
        _ => false,
    }
}

/// Whether a later head agrees with the first one, and no second body comes.
#[tactic(auto, using(crate::proofs::Found::refuses_left))]
fn test_later(
    first: &Heading,
    head: &Head,
    params: &[Slot],
    defines: bool,
) -> Result<(), CheckFault>
    ensures { Tests (spec.later_faults (Some first.now) head.now params.now defines) result }
{
    if !(same_result(first.result, head.result) && same_kinds(first.params.as_slice(), params)) {
        return Err(CheckFault::Mismatch { line: head.line });
    }
    if defines && first.body.is_some() {
        return Err(CheckFault::Twice { line: head.line });
    }
    Ok(())
}

/// A later head of the function with this number.
fn later_head(
    file: &File,
    number: u32,
    head: &Head,
    params: &[Slot],
    defines: bool,
) -> Result<u32, CheckFault>
    ensures { CheckGives (spec.later_head number head.now params.now defines file.now) result file.now }
{
    if let Some(first) = file.headings.as_slice().get(number as usize) {
        test_later(first, head, params, defines)?;
    }
    Ok(number)
}

/// Whether a function can be declared.
#[tactic(auto, using(crate::proofs::Found::refuses_left))]
fn test_first(file: &File, head: &Head) -> Result<u32, CheckFault>
    ensures yes { IfOk result (λ n. (spec.first_faults head.now file.now ≡ []) × (n ≡ length file.now.headings)) }
    ensures no { IfErr result (λ f. Refuses (spec.first_faults head.now file.now) f) }
{
    let line = head.line;
    if !is_name(head.name.as_slice()) {
        return Err(CheckFault::TooMany { line });
    }
    if file.entries.is_taken(head.name.as_slice(), 0) {
        return Err(CheckFault::Twice { line });
    }
    let number = file.headings.as_slice().len();
    if number >= MAX_FUNCTIONS {
        return Err(CheckFault::TooMany { line });
    }
    Ok(number as u32)
}

fn copy_slot(alloc: Global, slot: &Slot) -> Result<Slot, WantOfMemory>
    ensures { IfOk result (λ x. x ≡ slot.now) }
{
    Ok(Slot {
        name: slot.name.copy(alloc)?,
        of: slot.of,
        length: slot.length,
        array_param: slot.array_param,
        block: slot.block,
    })
}

fn copy_slots(alloc: Global, mut slots: &[Slot]) -> Result<List<Slot>, WantOfMemory>
    ensures { IfOk result (λ xs. xs ≡ slots.entry.now) }
{
    let mut copy = List::from_vec(Vec::new(alloc));
    while let [slot, rest @ ..] = slots {
        let slot = copy_slot(alloc, slot)?;
        copy.push(alloc, slot)?;
        slots = rest;
    }
    Ok(copy)
}

/// Declares a function by its first head, and gives its number.
#[tactic(auto, using(crate::proofs::Found::refuses_left))]
fn first_head(
    alloc: Global,
    file: &mut File,
    head: &Head,
    params: &[Slot],
) -> Result<u32, CheckFault>
    ensures { CheckGives (spec.first_head head.now params.now file.old) result file.new }
{
    let number = test_first(file, head)?;
    let heading = Heading {
        name: head.name.copy(alloc)?,
        result: head.result,
        params: copy_slots(alloc, params)?,
        line: head.line,
        body: None,
    };
    file.headings.push(heading)?;
    let entry = Entry {
        name: head.name.copy(alloc)?,
        thing: Thing::Function {
            number,
            result: head.result,
        },
    };
    file.entries.push(alloc, entry)?;
    Ok(number)
}

/// A head of what the name stood for.
fn head_of(
    alloc: Global,
    file: &mut File,
    thing: Thing,
    head: &Head,
    params: &[Slot],
    defines: bool,
) -> Result<u32, CheckFault>
    ensures { CheckGives (spec.head_of thing head.now params.now defines file.old) result file.new }
{
    match thing {
        Thing::Function { number, .. } => later_head(file, number, head, params, defines),
        Thing::Scalar { .. } | Thing::Array { .. } | Thing::BuiltIn(_) | Thing::Unknown => {
            first_head(alloc, file, head, params)
        }
    }
}

/// A head, of a definition or not: the number of its function, and its parameters.
#[tactic(auto, using(crate::proofs::Found::refuses_left))]
pub fn head(
    alloc: Global,
    file: &mut File,
    head: &Head,
    defines: bool,
) -> Result<(u32, List<Slot>), CheckFault>
    ensures { CheckGives (spec.head head.now defines file.old) result file.new }
{
    let params = params(alloc, defines, head.params.as_slice())?;
    let thing = file.entries.find(head.name.as_slice());
    let number = head_of(alloc, file, thing, head, params.as_slice(), defines)?;
    Ok((number, params))
}
