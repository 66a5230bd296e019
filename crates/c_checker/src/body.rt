//! Constants, sizes and local declarations.

ghost use Rattle.std.specs.Prelude.{◌≡◌, nat_lt, [], None, Some, IfOk, IfErr};
ghost use Rattle.std.specs.List.{list_all};
ghost use Rattle.c_tree.specs.Checks as checks;
ghost use Rattle.c_checker.specs.declared.fault.CheckFault.TheVariants.{NotConstant};
ghost use Rattle.c_checker.specs.Constants.{constant_of};
ghost use Rattle.c_checker.specs.Expressions.{first_line};
ghost use Rattle.c_checker.specs.Found.{CheckGives, Refuses, Tests};
ghost use Rattle.c_checker.specs.Scope.{ScopeNames};
ghost use Rattle.c_checker.specs.Statements as spec;

use crate::constants::evaluate;
use crate::entries::{Entry, variable};
use crate::expr::value;
use crate::fault::CheckFault;
use crate::headings::Heading;
use crate::scope::Scope;
use crate::state::Body;
use crate::typed::line_of;
use c_tree::{Declr, Expr, PExpr, Slot, Start, Target, Vars};
use nm_base::{Ctype, List, MAX_DATA_WORDS};
use std::alloc::Global;

/// The most bytes of a name.
const MAX_NAME_LEN: usize = 63;
/// The most parameters and locals of a function.
const MAX_SLOTS: u64 = 256;
/// The most elements of an array.
const MAX_LENGTH: u32 = MAX_DATA_WORDS;

fn is_ascii(mut bytes: &[u8]) -> bool
    ensures { result ≡ list_all (λ b. nat_lt b 128) bytes.entry.now }
{
    while let [byte, rest @ ..] = bytes {
        if *byte >= 128 {
            return false;
        }
        bytes = rest;
    }
    true
}

/// Whether a name has 1 to 63 bytes of ASCII.
pub fn is_name(bytes: &[u8]) -> bool
    ensures { result ≡ checks.is_name bytes.now }
{
    0 < bytes.len() && bytes.len() <= MAX_NAME_LEN && is_ascii(bytes)
}

fn bits_of(e: &Expr) -> Option<u32>
    ensures { result ≡ spec.bits_of (constant_of e.now) }
{
    match evaluate(e) {
        Some(constant) => constant.bits,
        None => None,
    }
}

/// The pattern of a constant expression. Another is refused by the line of its first token.
pub fn pattern(e: &Expr) -> Result<u32, CheckFault>
    ensures yes { IfOk result (λ n. spec.bits_of (constant_of e.now) ≡ Some n) }
    ensures no { IfErr result (λ f. (spec.bits_of (constant_of e.now) ≡ None) × (f ≡ NotConstant (first_line e.now))) }
{
    match bits_of(e) {
        Some(bits) => Ok(bits),
        None => Err(CheckFault::NotConstant { line: line_of(e) }),
    }
}

/// A size, by the line of its array's name.
pub fn size(e: &Option<Expr>, line: u32) -> Result<Option<u32>, CheckFault>
    ensures { (names : ScopeNames) → CheckGives (spec.size names e.now line) result tt }
{
    match e {
        Some(e) => {
            let n = pattern(e)?;
            if 1 <= n && n <= MAX_LENGTH {
                Ok(Some(n))
            } else {
                Err(CheckFault::BadSize { line })
            }
        }
        None => Ok(None),
    }
}

/// Whether a declarator can be spelled.
#[tactic(auto, using(crate::proofs::Found::refuses_left))]
pub fn test_declr(d: &Declr) -> Result<(), CheckFault>
    ensures { Tests (spec.declr_faults d.now) result }
{
    if !is_name(d.name.as_slice()) {
        return Err(CheckFault::TooMany { line: d.line });
    }
    if d.size.is_some() && d.start.is_some() {
        return Err(CheckFault::NotScalar { line: d.line });
    }
    Ok(())
}

/// The slot for a new local, in a block whose names begin at the entry `from`.
#[tactic(auto, using(crate::proofs::Found::refuses_left))]
fn free_slot(from: usize, d: &Declr, body: &Body) -> Result<u32, CheckFault>
    ensures yes { IfOk result (λ n. (spec.local_faults from d.now body.now ≡ []) × (n ≡ spec.slots body.now)) }
    ensures no { IfErr result (λ f. Refuses (spec.local_faults from d.now body.now) f) }
{
    test_declr(d)?;
    if body.entries.is_taken(d.name.as_slice(), from) {
        return Err(CheckFault::Twice { line: d.line });
    }
    let slots = u64::from(body.params) + body.locals.as_slice().len() as u64;
    if slots >= MAX_SLOTS {
        return Err(CheckFault::TooMany { line: d.line });
    }
    Ok(slots as u32)
}

/// The value of an expression.
pub fn expression(
    alloc: Global,
    functions: &[Heading],
    body: &mut Body,
    e: &Expr,
    used: bool,
) -> Result<PExpr, CheckFault>
    ensures { CheckGives (spec.value functions.now used e.now body.old) result body.new }
{
    let scope = Scope {
        entries: &body.entries,
        functions,
    };
    value(alloc, &scope, &mut body.texts, e, used)
}

/// The value of an expression where there is one.
pub fn optional(
    alloc: Global,
    functions: &[Heading],
    body: &mut Body,
    e: &Option<Expr>,
    used: bool,
) -> Result<Option<PExpr>, CheckFault>
    ensures { CheckGives (spec.optional functions.now used e.now body.old) result body.new }
{
    match e {
        Some(e) => Ok(Some(expression(alloc, functions, body, e, used)?)),
        None => Ok(None),
    }
}

/// Adds a local with the next slot.
fn new_local(
    alloc: Global,
    body: &mut Body,
    of: Ctype,
    block: u32,
    d: &Declr,
    length: Option<u32>,
    slot: u32,
) -> Result<u32, CheckFault>
    requires { slot ≡ spec.slots body.old }
    ensures { CheckGives (spec.new_local of block d.now length body.old) result body.new }
{
    let local = Slot {
        name: d.name.copy(alloc)?,
        of,
        length,
        array_param: false,
        block,
    };
    body.locals.push(alloc, local)?;
    let entry = Entry {
        name: d.name.copy(alloc)?,
        thing: variable(Target::Slot(slot), of, length.is_some()),
    };
    body.entries.push(alloc, entry)?;
    Ok(slot)
}

/// Adds a local, and gives its slot.
#[tactic(auto, using(crate::proofs::Found::refuses_left))]
fn add_local(
    alloc: Global,
    functions: &[Heading],
    body: &mut Body,
    of: Ctype,
    from: usize,
    block: u32,
    d: &Declr,
) -> Result<u32, CheckFault>
    ensures { CheckGives (spec.add_local functions.now of from block d.now body.old) result body.new }
{
    let slot = free_slot(from, d, body)?;
    let length = size(&d.size, d.line)?;
    new_local(alloc, body, of, block, d, length, slot)
}

/// A local declarator, in a block whose names begin at the entry `from`.
#[tactic(auto, using(crate::proofs::Found::refuses_left))]
fn declare(
    alloc: Global,
    functions: &[Heading],
    body: &mut Body,
    of: Ctype,
    from: usize,
    block: u32,
    d: &Declr,
) -> Result<Start, CheckFault>
    ensures { CheckGives (spec.declare functions.now of from block d.now body.old) result body.new }
{
    let slot = add_local(alloc, functions, body, of, from, block, d)?;
    let value = optional(alloc, functions, body, &d.start, true)?;
    Ok(Start {
        slot,
        value,
        line: d.line,
    })
}

/// Declarators of one type, after those of the list.
#[tactic(auto, using(crate::proofs::Found::refuses_left))]
fn declares(
    alloc: Global,
    functions: &[Heading],
    body: &mut Body,
    of: Ctype,
    from: usize,
    block: u32,
    mut list: List<Start>,
    mut declrs: &[Declr],
) -> Result<List<Start>, CheckFault>
    ensures { CheckGives (spec.declares functions.now of from block list declrs.entry.now body.old) result body.new }
{
    while let [d, rest @ ..] = declrs {
        let start = declare(alloc, functions, body, of, from, block, d)?;
        list.push(alloc, start)?;
        declrs = rest;
    }
    Ok(list)
}

/// The declarations of a block.
#[tactic(auto, using(crate::proofs::Found::refuses_left))]
fn locals(
    alloc: Global,
    functions: &[Heading],
    body: &mut Body,
    from: usize,
    block: u32,
    mut vars: &[Vars],
) -> Result<List<Start>, CheckFault>
    ensures { CheckGives (spec.locals functions.now from block [] vars.entry.now body.old) result body.new }
{
    let mut list = List::from_vec(Vec::new(alloc));
    while let [v, rest @ ..] = vars {
        list = declares(
            alloc,
            functions,
            body,
            v.of,
            from,
            block,
            list,
            v.list.as_slice(),
        )?;
        vars = rest;
    }
    Ok(list)
}

/// Begins a block whose names begin at the entry `from`, with its declarations. More blocks than there are numbers take
/// more memory than there is.
pub fn begin_block(
    alloc: Global,
    functions: &[Heading],
    body: &mut Body,
    from: usize,
    vars: &[Vars],
) -> Result<List<Start>, CheckFault>
    ensures { CheckGives (spec.begin_block functions.now from vars.now body.old) result body.new }
{
    let block = body.blocks;
    body.blocks = block.checked_add(1).ok_or(CheckFault::Memory)?;
    locals(alloc, functions, body, from, block, vars)
}
