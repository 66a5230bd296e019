//! Functions, units and whole trees.

ghost use Rattle.std.specs.Prelude.{◌≡◌, [], ◌++◌, Some, codes, length, unwrap_or, IfOk, IfErr, OnOk};
ghost use Rattle.c_checker.specs.Found.{CheckGives, Refuses, Tests};
ghost use Rattle.c_checker.specs.Scope.{find};
ghost use Rattle.c_checker.specs.Units as spec;
ghost use Rattle.c_checker.specs.Units.{checks, Checked};

use crate::entries::{Entries, Entry, Thing, variable};
use crate::fault::CheckFault;
use crate::globals::globals;
use crate::headings::{Heading, Headings};
use crate::heads::head;
use crate::program::program_of;
use crate::state::{Body, File};
use crate::stmts::{Within, function_body};
use c_tree::{Function, Head, Item, Program, Slot, Stmt, Target, Tree};
use nm_base::{Ctype, List, WantOfMemory};
use std::alloc::Global;
use std::mem;

fn empty_file(alloc: Global) -> File
    ensures { result ≡ spec.empty_file }
{
    File {
        texts: List::from_vec(Vec::new(alloc)),
        globals: List::from_vec(Vec::new(alloc)),
        words: 0,
        headings: Headings::new(alloc),
        entries: Entries::new(alloc),
    }
}

/// Makes the parameters visible, and counts them.
fn enter_params(
    alloc: Global,
    entries: &mut Entries,
    mut params: &[Slot],
) -> Result<u32, WantOfMemory>
    ensures { IfOk result
        (λ n. (entries.new ≡ entries.old ++ spec.param_entries 0 params.entry.now) × (n ≡ length params.entry.now)) }
{
    let mut number: u32 = 0;
    while let [param, rest @ ..] = params {
        let entry = Entry {
            name: param.name.copy(alloc)?,
            thing: variable(Target::Slot(number), param.of, param.array_param),
        };
        entries.push(alloc, entry)?;
        number = number.checked_add(1).ok_or(WantOfMemory)?;
        params = rest;
    }
    Ok(number)
}

/// Begins a function's body: takes the texts and the names, with those of its parameters.
fn body_begin(alloc: Global, file: &mut File, params: &[Slot]) -> Result<Body, WantOfMemory>
    ensures begun { IfOk result (λ b. b ≡ spec.body_begin file.old params.now) }
    ensures left { OnOk result (file.new ≡ record file.old { texts = []; entries = [] }) }
{
    let mut entries = mem::replace(&mut file.entries, Entries::new(alloc));
    let count = enter_params(alloc, &mut entries, params)?;
    let texts = mem::replace(&mut file.texts, List::from_vec(Vec::new(alloc)));
    Ok(Body {
        texts,
        params: count,
        locals: List::from_vec(Vec::new(alloc)),
        entries,
        blocks: 0,
    })
}

/// A function's body, by its definition.
fn check_body(
    alloc: Global,
    file: &mut File,
    head: &Head,
    params: List<Slot>,
    body: &Stmt,
) -> Result<Function, CheckFault>
    ensures yes { IfOk result
        (λ f. ((spec.body_of file.old head.now params body.now).faults ≡ [])
        × (f ≡ (spec.body_of file.old head.now params body.now).value)
        × (file.new ≡ record file.old { texts = (spec.body_of file.old head.now params body.now).state.texts })) }
    ensures no { IfErr result (λ f. Refuses (spec.body_of file.old head.now params body.now).faults f) }
{
    let name = head.name.copy(alloc)?;
    let from = file.entries.len();
    let mut inside = body_begin(alloc, file, params.as_slice())?;
    let within = Within {
        alloc,
        functions: file.headings.as_slice(),
        returns: head.result,
    };
    let made = function_body(&within, &mut inside, body, from)?;
    inside.entries.truncate(from);
    file.texts = inside.texts;
    file.entries = inside.entries;
    Ok(Function {
        name,
        result: head.result,
        params,
        locals: inside.locals,
        body: made,
        line: head.line,
    })
}

/// A function's definition, by its number.
fn function(
    alloc: Global,
    file: &mut File,
    number: u32,
    head: &Head,
    params: List<Slot>,
    body: &Stmt,
) -> Result<(), CheckFault>
    ensures { CheckGives (spec.function_of number head.now params body.now file.old) result file.new }
{
    let made = check_body(alloc, file, head, params, body)?;
    file.headings.give_body(number, made);
    Ok(())
}

#[tactic(auto, using(crate::proofs::Found::refuses_left))]
fn define(alloc: Global, file: &mut File, h: &Head, body: &Stmt) -> Result<(), CheckFault>
    ensures { CheckGives (spec.define h.now body.now file.old) result file.new }
{
    let (number, params) = head(alloc, file, h, true)?;
    function(alloc, file, number, h, params, body)
}

#[tactic(auto, using(crate::proofs::Found::refuses_left))]
fn declare(alloc: Global, file: &mut File, h: &Head) -> Result<(), CheckFault>
    ensures { CheckGives (spec.declare h.now file.old) result file.new }
{
    head(alloc, file, h, false)?;
    Ok(())
}

fn item(alloc: Global, file: &mut File, item: &Item) -> Result<(), CheckFault>
    ensures { CheckGives (spec.item item.now file.old) result file.new }
{
    match item {
        Item::Vars(vars) => globals(alloc, file, vars.of, vars.list.as_slice()),
        Item::Proto(h) => declare(alloc, file, h),
        Item::Function { head, body } => define(alloc, file, head, body),
    }
}

#[tactic(auto, using(crate::proofs::Found::refuses_left))]
fn items(alloc: Global, file: &mut File, mut list: &[Item]) -> Result<(), CheckFault>
    ensures { CheckGives (spec.items list.entry.now file.old) result file.new }
{
    while let [first, rest @ ..] = list {
        item(alloc, file, first)?;
        list = rest;
    }
    Ok(())
}

/// Whether a function is `int main(void)`.
fn test_main(function: &Function) -> Result<(), CheckFault>
    ensures { Tests (spec.main_faults (Some function.now)) result }
{
    if matches!(function.result, Some(Ctype::Int)) && function.params.as_slice().is_empty() {
        Ok(())
    } else {
        Err(CheckFault::NoMain {
            line: function.line,
        })
    }
}

/// The number of `main`.
fn main_number(file: &File) -> Result<u32, CheckFault>
    ensures yes { IfOk result
        (λ n. (spec.main_faults (spec.body_at file.now.headings (spec.number_of (find file.now.entries (codes "main"))))
        ≡ [])
        × (n ≡ unwrap_or (spec.number_of (find file.now.entries (codes "main"))) 0)) }
    ensures no { IfErr result
        (λ f. Refuses
        (spec.main_faults
        (spec.body_at file.now.headings (spec.number_of (find file.now.entries (codes "main"))))) f) }
{
    match file.entries.find(b"main".as_slice()) {
        Thing::Function { number, .. } => {
            let functions = file.headings.as_slice();
            match functions.get(number as usize) {
                Some(
                    Heading {
                        body: Some(function),
                        ..
                    },
                ) => {
                    test_main(function)?;
                    Ok(number)
                }
                Some(Heading { body: None, .. }) | None => Err(CheckFault::NoMain { line: 1 }),
            }
        }
        Thing::Scalar { .. } | Thing::Array { .. } | Thing::BuiltIn(_) | Thing::Unknown => {
            Err(CheckFault::NoMain { line: 1 })
        }
    }
}

/// Turns a tree into the program that it stands for, if it breaks no rule. Then each name is replaced by the number of
/// what it denotes, each expression has its type, and parentheses are gone.
/// Otherwise one of the rules that it breaks is named with its line, or memory was refused.
pub fn check(alloc: Global, tree: &Tree) -> Result<Program, CheckFault>
    ensures yes { IfOk result (λ p. Checked tree.now p) }
    ensures no { IfErr result (λ f. Refuses (checks tree.now).faults f) }
{
    let mut file = empty_file(alloc);
    items(alloc, &mut file, tree.items.as_slice())?;
    let main = main_number(&file)?;
    let functions = file.headings.into_functions(alloc)?;
    Ok(program_of(tree, file.globals, functions, main, file.texts))
}
