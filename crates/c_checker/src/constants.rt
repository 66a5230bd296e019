//! Constant expressions: sizes, initialisers and cases.

ghost use Rattle.std.specs.Prelude.{◌≡◌};
ghost use Rattle.c_checker.specs.Constants as spec;
ghost use Rattle.c_checker.specs.Constants.{constant_of};

use crate::types::{binary_type, common_type, operation_type, unary_type};
use c_tree::Expr;
use nm_base::{BinaryOp, Ctype, UnaryOp, apply_binary, apply_unary};

/// A constant expression's type, and its value where its evaluation has no fault.
#[derive(Clone, Copy, Debug, PartialEq, Eq)]
pub struct Constant {
    pub of: Ctype,
    pub bits: Option<u32>,
}

/// The constant that an expression stands for, or `None` where it is not made of constants.
#[tactic(auto, using(crate::proofs::Forms::constant_forms))]
pub fn evaluate(e: &Expr) -> Option<Constant>
    ensures { result ≡ constant_of e.now }
{
    match e {
        Expr::Const { bits, of, .. } => Some(Constant {
            of: *of,
            bits: Some(*bits),
        }),
        Expr::Paren { part, .. } => evaluate(part.get()),
        Expr::Unary { op, part, .. } => Some(unary(*op, evaluate(part.get())?)),
        Expr::Binary {
            op,
            left,
            right,
            ..
        } => Some(binary(*op, evaluate(left.get())?, evaluate(right.get())?)),
        Expr::And { left, right, .. } => Some(and(evaluate(left.get())?, evaluate(right.get())?)),
        Expr::Or { left, right, .. } => Some(or(evaluate(left.get())?, evaluate(right.get())?)),
        Expr::Choose { test, yes, no, .. } => Some(choose(
            evaluate(test.get())?,
            evaluate(yes.get())?,
            evaluate(no.get())?,
        )),
        Expr::Text { .. }
        | Expr::Name { .. }
        | Expr::At { .. }
        | Expr::Call { .. }
        | Expr::Bump { .. }
        | Expr::Comma { .. }
        | Expr::Assign { .. } => None,
    }
}

fn unary(op: UnaryOp, part: Constant) -> Constant
    ensures { result ≡ spec.unary_constant op part }
{
    Constant {
        of: unary_type(op, part.of),
        bits: match part.bits {
            Some(x) => apply_unary(op, part.of, x).ok(),
            None => None,
        },
    }
}

fn binary(op: BinaryOp, left: Constant, right: Constant) -> Constant
    ensures { result ≡ spec.binary_constant op left right }
{
    Constant {
        of: binary_type(op, left.of, right.of),
        bits: match (left.bits, right.bits) {
            (Some(x), Some(y)) => apply_binary(
                op,
                operation_type(op, left.of, right.of),
                x,
                y,
            ).ok(),
            _ => None,
        },
    }
}

fn truth(bits: Option<u32>) -> Option<u32>
    ensures { result ≡ spec.truth_of bits }
{
    bits.map(|x| if x == 0 { 0 } else { 1 })
}

fn and(left: Constant, right: Constant) -> Constant
    ensures { result ≡ spec.and_constant left right }
{
    Constant {
        of: Ctype::Int,
        bits: match left.bits {
            None => None,
            Some(0) => Some(0),
            Some(_) => truth(right.bits),
        },
    }
}

fn or(left: Constant, right: Constant) -> Constant
    ensures { result ≡ spec.or_constant left right }
{
    Constant {
        of: Ctype::Int,
        bits: match left.bits {
            None => None,
            Some(0) => truth(right.bits),
            Some(_) => Some(1),
        },
    }
}

fn choose(test: Constant, yes: Constant, no: Constant) -> Constant
    ensures { result ≡ spec.chosen_constant test yes no }
{
    Constant {
        of: common_type(yes.of, no.of),
        bits: match test.bits {
            None => None,
            Some(0) => no.bits,
            Some(_) => yes.bits,
        },
    }
}
