//! Expressions inside statements, and the height of what has two parts.

ghost use Rattle.std.specs.Prelude.{◌≡◌, ◌<◌, ◌≤◌, suc, length, max, IfOk};
ghost use Rattle.c_parser.specs.private.Reader.{ParseGives};
ghost use Rattle.c_parser.specs.private.ReadStmt as spec;

use crate::expr::{Operand, expression};
use crate::fault::TokenFault;
use crate::operators::COMMA;
use crate::tokens::{after, expect};
use c_lexer::{Mark, Token};
use c_tree::Expr;
use sqlite_items::Boxed;
use std::alloc::Global;

/// An expression in parentheses.
#[tactic(auto, unfolding(crate::specs::private::ReadStmt::condition))]
pub fn condition(
    alloc: Global,
    tokens: &[Token],
    limit: u8,
) -> Result<(Operand, &[Token]), TokenFault>
    ensures value { ParseGives (λ x. (x.0, x.1.now)) result (spec.condition limit tokens.now) }
    ensures height { IfOk result (λ x. x.0.height ≤ limit) }
    ensures shorter { IfOk result (λ x. length x.1.now < length tokens.now) }
{
    let rest = expect(tokens, Mark::LeftParen)?;
    let (test, rest) = expression(alloc, rest, COMMA, limit)?;
    let rest = expect(rest, Mark::RightParen)?;
    Ok((test, rest))
}

/// An expression that may be missing, and its height or 0.
#[derive(Drop)]
pub struct OptionalPart {
    pub part: Option<Boxed<Expr>>,
    pub height: u8,
}

/// An expression of a level up to a mark, or the mark alone.
#[tactic(auto, unfolding(crate::specs::private::ReadStmt::optional, crate::specs::private::ReadStmt::present))]
pub fn optional(
    alloc: Global,
    tokens: &[Token],
    level: u8,
    end: Mark,
    limit: u8,
) -> Result<(OptionalPart, &[Token]), TokenFault>
    requires { level ≤ 14 }
    ensures value { ParseGives (λ x. ((x.0.part, x.0.height), x.1.now)) result
        (spec.optional level end limit tokens.now) }
    ensures height { IfOk result (λ x. x.0.height ≤ limit) }
    ensures shorter { IfOk result (λ x. length x.1.now < length tokens.now) }
{
    if let Some(rest) = after(tokens, end) {
        let none = OptionalPart {
            part: None,
            height: 0,
        };
        return Ok((none, rest));
    }
    let (part, rest) = expression(alloc, tokens, level, limit)?;
    let rest = expect(rest, end)?;
    let some = OptionalPart {
        part: Some(part.expr),
        height: part.height,
    };
    Ok((some, rest))
}

/// The height of what has parts of these heights.
pub fn above(a: u8, b: u8) -> u8
    requires { max a b < 255 }
    ensures { result ≡ suc (max a b) }
{
    a.max(b) + 1
}
