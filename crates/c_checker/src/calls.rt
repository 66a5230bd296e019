//! Calls of functions, of built-in functions and of `printf`.

ghost use Rattle.std.specs.Prelude.{◌≡◌, ℕ, List, [], ◌∷◌, length, true, map, IfOk};
ghost use Rattle.c_checker.specs.Found.{CheckGives};
ghost use Rattle.c_checker.specs.Scope.{params_of};
ghost use Rattle.c_checker.specs.Expressions as spec;
ghost use Rattle.c_checker.specs.Expressions.{part_of};
ghost use Rattle.c_checker.specs.private.InScope.{names_in};

use crate::entries::Thing;
use crate::expr::value;
use crate::fault::CheckFault;
use crate::format::{add_text, test_format};
use crate::named::array;
use crate::scope::Scope;
use crate::typed::typed;
use c_tree::{BuiltIn, Callee, Expr, PExpr, PKind, Slot};
use nm_base::{Bytes, Ctype, List};
use std::alloc::{AllocError, Global};

/// The most arguments of a call, the text of `printf` among them.
const MAX_ARGUMENTS: usize = 31;

fn takes(what: BuiltIn, args: usize) -> bool
    ensures { result ≡ spec.takes what args }
{
    match what {
        BuiltIn::Send => 3 <= args && args <= 10,
        BuiltIn::Receive | BuiltIn::Word => args == 1,
        _ => args == 0,
    }
}

/// The arguments of a call for its parameters, after those of the list.
#[cycle(expr)]
#[tactic(auto, using(crate::proofs::Found::refuses_left))]
fn arguments(
    alloc: Global,
    scope: &Scope<'_>,
    texts: &mut List<Bytes>,
    mut params: &[Slot],
    mut list: List<PExpr>,
    mut args: &[Expr],
) -> Result<List<PExpr>, CheckFault>
    requires { length params.now ≡ length args.now }
    ensures { CheckGives (spec.arguments params.entry.now list
        (map (part_of (names_in scope.now)) args.entry.now) texts.old) result texts.new }
{
    while let ([arg, more @ ..], [param, rest @ ..]) = (args, params) {
        let part = argument(alloc, scope, texts, arg, param)?;
        list.push(alloc, part)?;
        args = more;
        params = rest;
    }
    Ok(list)
}

/// The argument for a parameter.
#[cycle(expr)]
fn argument(
    alloc: Global,
    scope: &Scope<'_>,
    texts: &mut List<Bytes>,
    arg: &Expr,
    param: &Slot,
) -> Result<PExpr, CheckFault>
    ensures { CheckGives (spec.argument (part_of (names_in scope.now) arg.now) param.now texts.old) result texts.new }
{
    if param.array_param {
        array(scope, arg, param.of)
    } else {
        value(alloc, scope, texts, arg, true)
    }
}

/// The arguments of a built-in function, after those of the list.
#[cycle(expr)]
#[tactic(auto, using(crate::proofs::Found::refuses_left))]
fn values(
    alloc: Global,
    scope: &Scope<'_>,
    texts: &mut List<Bytes>,
    mut list: List<PExpr>,
    mut args: &[Expr],
) -> Result<List<PExpr>, CheckFault>
    ensures { CheckGives (spec.values list
        (map (part_of (names_in scope.now)) args.entry.now) texts.old) result texts.new }
{
    while let [arg, more @ ..] = args {
        let part = value(alloc, scope, texts, arg, true)?;
        list.push(alloc, part)?;
        args = more;
    }
    Ok(list)
}

fn returned(used: bool, call: PExpr) -> Result<PExpr, CheckFault>
    ensures { (texts : List (List ℕ)) → CheckGives (spec.returned used call.of call.line call texts) result texts }
{
    if used && call.of.is_none() {
        Err(CheckFault::VoidValue { line: call.line })
    } else {
        Ok(call)
    }
}

#[cycle(expr)]
#[tactic(auto, using(crate::proofs::Found::refuses_left))]
fn call_function(
    alloc: Global,
    scope: &Scope<'_>,
    texts: &mut List<Bytes>,
    number: u32,
    of: Option<Ctype>,
    args: &[Expr],
    line: u32,
    used: bool,
) -> Result<PExpr, CheckFault>
    ensures { CheckGives (spec.call_function number of (params_of scope.now.functions.now number)
        (map (part_of (names_in scope.now)) args.now)
        line used texts.old) result texts.new }
{
    let params = scope.params(number);
    if args.len() != params.len() {
        return Err(CheckFault::Arity { line });
    }
    let list = List::from_vec(Vec::new(alloc));
    let args = arguments(alloc, scope, texts, params, list, args)?;
    let what = Callee::Function(number);
    returned(
        used,
        PExpr {
            kind: PKind::Call { what, args },
            of,
            line,
        },
    )
}

#[cycle(expr)]
#[tactic(auto, using(crate::proofs::Found::refuses_left))]
fn call_simple(
    alloc: Global,
    scope: &Scope<'_>,
    texts: &mut List<Bytes>,
    what: BuiltIn,
    args: &[Expr],
    line: u32,
) -> Result<PExpr, CheckFault>
    ensures { CheckGives (spec.call_simple what
        (map (part_of (names_in scope.now)) args.now) line texts.old) result texts.new }
{
    if !takes(what, args.len()) {
        return Err(CheckFault::Arity { line });
    }
    let list = List::from_vec(Vec::new(alloc));
    let args = values(alloc, scope, texts, list, args)?;
    let what = Callee::BuiltIn(what);
    Ok(typed(PKind::Call { what, args }, Ctype::Int, line))
}

fn text_argument(alloc: Global, text: u32, line: u32) -> Result<List<PExpr>, AllocError>
    ensures { IfOk result (λ list. list ≡ spec.text_argument text line ∷ []) }
{
    let mut list = Vec::new(alloc);
    list.push(PExpr {
        kind: PKind::Text { text },
        of: None,
        line,
    })?;
    Ok(List::from_vec(list))
}

/// A call of `printf` with a text.
#[cycle(expr)]
#[tactic(auto, using(crate::proofs::Found::refuses_left))]
fn print_text(
    alloc: Global,
    scope: &Scope<'_>,
    texts: &mut List<Bytes>,
    text: &Bytes,
    at: u32,
    more: &[Expr],
    line: u32,
) -> Result<PExpr, CheckFault>
    ensures { CheckGives (spec.print_text text.now at
        (map (part_of (names_in scope.now)) more.now) line texts.old) result texts.new }
{
    test_format(text.as_slice(), more.len(), at, line)?;
    let number = add_text(alloc, texts, text)?;
    let list = text_argument(alloc, number, at)?;
    let args = values(alloc, scope, texts, list, more)?;
    let what = Callee::BuiltIn(BuiltIn::Printf);
    Ok(typed(PKind::Call { what, args }, Ctype::Int, line))
}

/// A call of `printf`, by its first argument and the others.
#[cycle(expr)]
#[tactic(auto, using(crate::proofs::Unnamed::no_text, crate::proofs::Forms::part_text))]
fn print(
    alloc: Global,
    scope: &Scope<'_>,
    texts: &mut List<Bytes>,
    first: &Expr,
    more: &[Expr],
    line: u32,
) -> Result<PExpr, CheckFault>
    ensures { CheckGives (spec.print (part_of (names_in scope.now) first.now)
        (map (part_of (names_in scope.now)) more.now) line texts.old) result texts.new }
{
    match first {
        Expr::Text { bytes, line: at } => {
            print_text(alloc, scope, texts, bytes, *at, more, line)
        }
        _ => Err(CheckFault::Format { line }),
    }
}

#[cycle(expr)]
fn call_printf(
    alloc: Global,
    scope: &Scope<'_>,
    texts: &mut List<Bytes>,
    args: &[Expr],
    line: u32,
) -> Result<PExpr, CheckFault>
    ensures { CheckGives (spec.call_printf
        (map (part_of (names_in scope.now)) args.now) line texts.old) result texts.new }
{
    match args {
        [first, more @ ..] => print(alloc, scope, texts, first, more, line),
        [] => Err(CheckFault::Format { line }),
    }
}

/// A call of what the name stands for.
#[cycle(expr)]
fn call_thing(
    alloc: Global,
    scope: &Scope<'_>,
    texts: &mut List<Bytes>,
    thing: Thing,
    args: &[Expr],
    line: u32,
    used: bool,
) -> Result<PExpr, CheckFault>
    ensures { CheckGives (spec.call_thing (names_in scope.now) thing (map (part_of (names_in scope.now))
        args.now) line used texts.old) result texts.new }
{
    match thing {
        Thing::Function { number, result } => {
            call_function(alloc, scope, texts, number, result, args, line, used)
        }
        Thing::BuiltIn(BuiltIn::Printf) => call_printf(alloc, scope, texts, args, line),
        Thing::BuiltIn(what) => call_simple(alloc, scope, texts, what, args, line),
        Thing::Unknown => Err(CheckFault::Undeclared { line }),
        _ => Err(CheckFault::NotFunction { line }),
    }
}

/// A call.
#[cycle(expr)]
#[tactic(auto, using(crate::proofs::Found::refuses_left))]
pub fn call(
    alloc: Global,
    scope: &Scope<'_>,
    texts: &mut List<Bytes>,
    thing: Thing,
    args: &[Expr],
    line: u32,
    used: bool,
) -> Result<PExpr, CheckFault>
    ensures { CheckGives (spec.call (names_in scope.now) thing (map (part_of (names_in scope.now))
        args.now) line used texts.old) result texts.new }
{
    if args.len() > MAX_ARGUMENTS {
        return Err(CheckFault::TooMany { line });
    }
    call_thing(alloc, scope, texts, thing, args, line, used)
}
