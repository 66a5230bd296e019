//! Operations, and the operands that they read.

ghost use Rattle.std.specs.Prelude.{◌≡◌, List, ◌∷◌, true};
ghost use Rattle.c_checker.specs.Found.{CheckGives};
ghost use Rattle.c_checker.specs.Expressions as spec;
ghost use Rattle.c_checker.specs.Expressions.{part_of, part_step};
ghost use Rattle.c_checker.specs.private.InScope.{names_in};
ghost use Rattle.c_tree.specs.declared.tree.Expr.TheOpen.{Expr-F};

use crate::expr::{boxed, place, value};
use crate::fault::CheckFault;
use crate::scope::Scope;
use crate::typed::{line_of, type_of, typed};
use crate::types::{binary_type, common_type, unary_type};
use c_tree::{Expr, PExpr, PKind};
use nm_base::{BinaryOp, Bytes, Ctype, List, UnaryOp};
use sqlite_items::Boxed;
use std::alloc::Global;

/// The values of two expressions.
#[cycle(expr)]
#[tactic(auto, using(crate::proofs::Found::refuses_left))]
fn both(
    alloc: Global,
    scope: &Scope<'_>,
    texts: &mut List<Bytes>,
    left: &Expr,
    left_used: bool,
    right: &Expr,
    right_used: bool,
) -> Result<(Boxed<PExpr>, Boxed<PExpr>), CheckFault>
    ensures { CheckGives (spec.both ((part_of (names_in scope.now) left.now).value left_used)
        ((part_of (names_in scope.now) right.now).value right_used) texts.old) result texts.new }
{
    let left = boxed(alloc, scope, texts, left, left_used)?;
    let right = boxed(alloc, scope, texts, right, right_used)?;
    Ok((left, right))
}

/// The values of three expressions.
#[cycle(expr)]
#[tactic(auto, using(crate::proofs::Found::refuses_left))]
fn three(
    alloc: Global,
    scope: &Scope<'_>,
    texts: &mut List<Bytes>,
    first: &Expr,
    second: &Expr,
    third: &Expr,
) -> Result<(Boxed<PExpr>, Boxed<PExpr>, Boxed<PExpr>), CheckFault>
    ensures { CheckGives (spec.three ((part_of (names_in scope.now) first.now).value true)
        ((part_of (names_in scope.now) second.now).value true)
        ((part_of (names_in scope.now) third.now).value true) texts.old) result texts.new }
{
    let first = boxed(alloc, scope, texts, first, true)?;
    let second = boxed(alloc, scope, texts, second, true)?;
    let third = boxed(alloc, scope, texts, third, true)?;
    Ok((first, second, third))
}

/// What an assignment, a `++` or a `--` stores in.
#[cycle(expr)]
fn target(
    alloc: Global,
    scope: &Scope<'_>,
    texts: &mut List<Bytes>,
    e: &Expr,
) -> Result<Boxed<PExpr>, CheckFault>
    ensures { CheckGives (spec.target (part_of (names_in scope.now) e.now) texts.old) result texts.new }
{
    let place = place(alloc, scope, texts, e, line_of(e))?;
    Ok(Boxed::new(alloc, place)?)
}

/// The target of an assignment and its value.
#[cycle(expr)]
#[tactic(auto, using(crate::proofs::Found::refuses_left))]
fn stored(
    alloc: Global,
    scope: &Scope<'_>,
    texts: &mut List<Bytes>,
    place: &Expr,
    stored: &Expr,
) -> Result<(Boxed<PExpr>, Boxed<PExpr>), CheckFault>
    ensures { CheckGives (spec.stored (part_of (names_in scope.now) place.now)
        (part_of (names_in scope.now) stored.now) texts.old) result texts.new }
{
    let place = target(alloc, scope, texts, place)?;
    let stored = boxed(alloc, scope, texts, stored, true)?;
    Ok((place, stored))
}

/// The value of a unary operation.
#[cycle(expr)]
#[tactic(auto, using(crate::proofs::Found::refuses_left))]
pub fn unary(
    alloc: Global,
    scope: &Scope<'_>,
    texts: &mut List<Bytes>,
    op: UnaryOp,
    part: &Expr,
    line: u32,
) -> Result<PExpr, CheckFault>
    ensures { CheckGives ((part_step (names_in scope.now) (Expr-F.Unary op
        (part_of (names_in scope.now) part.now) line)).value true texts.old) result texts.new }
{
    let part = boxed(alloc, scope, texts, part, true)?;
    let of = unary_type(op, type_of(part.get()));
    Ok(typed(PKind::Unary { op, part }, of, line))
}

/// The value of `++` or `--`.
#[cycle(expr)]
#[tactic(auto, using(crate::proofs::Found::refuses_left))]
pub fn bump(
    alloc: Global,
    scope: &Scope<'_>,
    texts: &mut List<Bytes>,
    up: bool,
    before: bool,
    part: &Expr,
    line: u32,
) -> Result<PExpr, CheckFault>
    ensures { CheckGives ((part_step (names_in scope.now) (Expr-F.Bump up before
        (part_of (names_in scope.now) part.now) line)).value true texts.old) result texts.new }
{
    let part = target(alloc, scope, texts, part)?;
    let of = part.get().of;
    Ok(PExpr {
        kind: PKind::Bump { up, before, part },
        of,
        line,
    })
}

/// The value of a binary operation.
#[cycle(expr)]
#[tactic(auto, using(crate::proofs::Found::refuses_left))]
pub fn binary(
    alloc: Global,
    scope: &Scope<'_>,
    texts: &mut List<Bytes>,
    op: BinaryOp,
    left: &Expr,
    right: &Expr,
    line: u32,
) -> Result<PExpr, CheckFault>
    ensures { CheckGives ((part_step (names_in scope.now) (Expr-F.Binary op
        (part_of (names_in scope.now) left.now) (part_of (names_in scope.now) right.now)
        line)).value true texts.old) result texts.new }
{
    let (left, right) = both(alloc, scope, texts, left, true, right, true)?;
    let of = binary_type(op, type_of(left.get()), type_of(right.get()));
    Ok(typed(PKind::Binary { op, left, right }, of, line))
}

/// The value of `&&`.
#[cycle(expr)]
#[tactic(auto, using(crate::proofs::Found::refuses_left))]
pub fn and(
    alloc: Global,
    scope: &Scope<'_>,
    texts: &mut List<Bytes>,
    left: &Expr,
    right: &Expr,
    line: u32,
) -> Result<PExpr, CheckFault>
    ensures { CheckGives ((part_step (names_in scope.now) (Expr-F.And (part_of (names_in scope.now)
        left.now) (part_of (names_in scope.now) right.now) line)).value true texts.old) result texts.new }
{
    let (left, right) = both(alloc, scope, texts, left, true, right, true)?;
    Ok(typed(PKind::And { left, right }, Ctype::Int, line))
}

/// The value of `||`.
#[cycle(expr)]
#[tactic(auto, using(crate::proofs::Found::refuses_left))]
pub fn or(
    alloc: Global,
    scope: &Scope<'_>,
    texts: &mut List<Bytes>,
    left: &Expr,
    right: &Expr,
    line: u32,
) -> Result<PExpr, CheckFault>
    ensures { CheckGives ((part_step (names_in scope.now) (Expr-F.Or (part_of (names_in scope.now)
        left.now) (part_of (names_in scope.now) right.now) line)).value true texts.old) result texts.new }
{
    let (left, right) = both(alloc, scope, texts, left, true, right, true)?;
    Ok(typed(PKind::Or { left, right }, Ctype::Int, line))
}

/// The value of `?:`.
#[cycle(expr)]
#[tactic(auto, using(crate::proofs::Found::refuses_left))]
pub fn choose(
    alloc: Global,
    scope: &Scope<'_>,
    texts: &mut List<Bytes>,
    test: &Expr,
    yes: &Expr,
    no: &Expr,
    line: u32,
) -> Result<PExpr, CheckFault>
    ensures { CheckGives ((part_step (names_in scope.now) (Expr-F.Choose
        (part_of (names_in scope.now) test.now) (part_of (names_in scope.now) yes.now)
        (part_of (names_in scope.now) no.now) line)).value true texts.old) result texts.new }
{
    let (test, yes, no) = three(alloc, scope, texts, test, yes, no)?;
    let of = common_type(type_of(yes.get()), type_of(no.get()));
    Ok(typed(PKind::Choose { test, yes, no }, of, line))
}

/// The value of a comma.
#[cycle(expr)]
#[tactic(auto, using(crate::proofs::Found::refuses_left))]
pub fn comma(
    alloc: Global,
    scope: &Scope<'_>,
    texts: &mut List<Bytes>,
    left: &Expr,
    right: &Expr,
    line: u32,
    used: bool,
) -> Result<PExpr, CheckFault>
    ensures { CheckGives ((part_step (names_in scope.now) (Expr-F.Comma
        (part_of (names_in scope.now) left.now) (part_of (names_in scope.now) right.now)
        line)).value used texts.old) result texts.new }
{
    let (left, right) = both(alloc, scope, texts, left, false, right, used)?;
    let of = right.get().of;
    Ok(PExpr {
        kind: PKind::Comma { left, right },
        of,
        line,
    })
}

/// The value of an assignment.
#[cycle(expr)]
#[tactic(auto, using(crate::proofs::Found::refuses_left))]
pub fn assign(
    alloc: Global,
    scope: &Scope<'_>,
    texts: &mut List<Bytes>,
    op: Option<BinaryOp>,
    place: &Expr,
    value: &Expr,
    line: u32,
) -> Result<PExpr, CheckFault>
    ensures { CheckGives ((part_step (names_in scope.now) (Expr-F.Assign op
        (part_of (names_in scope.now) place.now) (part_of (names_in scope.now) value.now)
        line)).value true texts.old) result texts.new }
{
    let (place, value) = stored(alloc, scope, texts, place, value)?;
    let of = place.get().of;
    Ok(PExpr {
        kind: PKind::Assign { op, place, value },
        of,
        line,
    })
}
