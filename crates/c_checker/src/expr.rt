//! Expressions: their values, and the places that they name.

ghost use Rattle.std.specs.Prelude.{◌≡◌, List, ◌∷◌, true};
ghost use Rattle.c_checker.specs.Found.{CheckGives};
ghost use Rattle.c_checker.specs.Expressions as spec;
ghost use Rattle.c_checker.specs.Expressions.{part_of};
ghost use Rattle.c_checker.specs.private.InScope.{names_in};

use crate::calls::call;
use crate::entries::Thing;
use crate::fault::CheckFault;
use crate::named::{named_place, named_value, subscripted};
use crate::operators::{and, assign, binary, bump, choose, comma, or, unary};
use crate::scope::Scope;
use crate::typed::typed;
use c_tree::{Expr, PExpr, PKind};
use nm_base::{Bytes, List};
use sqlite_items::Boxed;
use std::alloc::Global;

/// The value of an expression, in a box.
#[cycle(expr)]
pub fn boxed(
    alloc: Global,
    scope: &Scope<'_>,
    texts: &mut List<Bytes>,
    e: &Expr,
    used: bool,
) -> Result<Boxed<PExpr>, CheckFault>
    ensures { CheckGives ((part_of (names_in scope.now) e.now).value used texts.old) result texts.new }
{
    let part = value(alloc, scope, texts, e, used)?;
    Ok(Boxed::new(alloc, part)?)
}

/// An element of an array.
#[cycle(expr)]
#[tactic(auto, using(crate::proofs::Found::refuses_left))]
pub fn element(
    alloc: Global,
    scope: &Scope<'_>,
    texts: &mut List<Bytes>,
    thing: Thing,
    index: &Expr,
    line: u32,
) -> Result<PExpr, CheckFault>
    ensures { CheckGives (spec.element thing line (part_of (names_in scope.now) index.now) texts.old) result texts.new }
{
    let (what, of) = subscripted(thing, line)?;
    let index = boxed(alloc, scope, texts, index, true)?;
    Ok(typed(PKind::At { what, index }, of, line))
}

/// A place to store in. `target` is the line of the whole target.
#[cycle(expr)]
#[tactic(auto, using(crate::proofs::Forms::part_name, crate::proofs::Forms::part_at, crate::proofs::Forms::part_paren, crate::proofs::Unnamed::refuses_place, crate::proofs::ValueForms::as_place))]
pub fn place(
    alloc: Global,
    scope: &Scope<'_>,
    texts: &mut List<Bytes>,
    e: &Expr,
    target: u32,
) -> Result<PExpr, CheckFault>
    ensures { CheckGives ((part_of (names_in scope.now) e.now).place target texts.old) result texts.new }
{
    match e {
        Expr::Name { name, line } => named_place(scope.find(name.as_slice()), *line, target),
        Expr::At { name, index, line } => {
            let thing = scope.find(name.as_slice());
            element(alloc, scope, texts, thing, index.get(), *line)
        }
        Expr::Paren { part, .. } => place(alloc, scope, texts, part.get(), target),
        _ => Err(CheckFault::NotAssignable { line: target }),
    }
}

/// The value of an expression, which may be missing where it is not used.
#[cycle(expr)]
#[tactic(auto, using(crate::proofs::Forms::part_const, crate::proofs::Forms::part_text, crate::proofs::Forms::part_name, crate::proofs::Forms::part_at, crate::proofs::Forms::part_paren))]
pub fn value(
    alloc: Global,
    scope: &Scope<'_>,
    texts: &mut List<Bytes>,
    e: &Expr,
    used: bool,
) -> Result<PExpr, CheckFault>
    ensures { CheckGives ((part_of (names_in scope.now) e.now).value used texts.old) result texts.new }
{
    match e {
        Expr::Const { bits, of, line } => Ok(typed(PKind::Const { bits: *bits }, *of, *line)),
        Expr::Text { line, .. } => Err(CheckFault::Format { line: *line }),
        Expr::Name { name, line } => named_value(scope.find(name.as_slice()), *line),
        Expr::At { name, index, line } => {
            let thing = scope.find(name.as_slice());
            element(alloc, scope, texts, thing, index.get(), *line)
        }
        Expr::Paren { part, .. } => value(alloc, scope, texts, part.get(), used),
        Expr::Unary { op, part, line } => unary(alloc, scope, texts, *op, part.get(), *line),
        Expr::Bump {
            up,
            before,
            part,
            line,
        } => bump(alloc, scope, texts, *up, *before, part.get(), *line),
        Expr::Binary {
            op,
            left,
            right,
            line,
        } => binary(alloc, scope, texts, *op, left.get(), right.get(), *line),
        Expr::And { left, right, line } => and(alloc, scope, texts, left.get(), right.get(), *line),
        Expr::Or { left, right, line } => or(alloc, scope, texts, left.get(), right.get(), *line),
        Expr::Choose {
            test,
            yes,
            no,
            line,
        } => choose(alloc, scope, texts, test.get(), yes.get(), no.get(), *line),
        Expr::Comma { left, right, line } => {
            comma(alloc, scope, texts, left.get(), right.get(), *line, used)
        }
        Expr::Assign {
            op,
            place,
            value,
            line,
        } => assign(alloc, scope, texts, *op, place.get(), value.get(), *line),
        Expr::Call { name, args, line } => {
            let thing = scope.find(name.as_slice());
            call(alloc, scope, texts, thing, args.as_slice(), *line, used)
        }
    }
}
