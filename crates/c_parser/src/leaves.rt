//! Statements without statements in them.

ghost use Rattle.std.specs.Prelude.{◌≡◌, ◌+◌, ◌<◌, ◌≤◌, length, IfOk};
ghost use Rattle.c_parser.specs.private.Reader.{ParseGives};
ghost use Rattle.c_parser.specs.private.ReadStmt as spec;

use crate::expr::expression;
use crate::fault::TokenFault;
use crate::inner::optional;
use crate::nodes::{return_node, run_node};
use crate::operators::COMMA;
use crate::tokens::expect;
use c_lexer::{Mark, Token};
use c_tree::Stmt;
use sqlite_items::Boxed;
use std::alloc::Global;

/// A statement of a keyword alone, up to its semicolon.
#[tactic(auto, unfolding(crate::specs::private::ReadStmt::leaf))]
pub fn leaf(tokens: &[Token], stmt: Boxed<Stmt>) -> Result<(Boxed<Stmt>, u8, &[Token]), TokenFault>
    ensures value { ParseGives (λ x. ((x.0, x.1), x.2.now)) result (spec.leaf stmt tokens.now) }
    ensures height { IfOk result (λ x. x.1 ≡ 1) }
    ensures shorter { IfOk result (λ x. length x.2.now < length tokens.now) }
{
    let rest = expect(tokens, Mark::Semicolon)?;
    Ok((stmt, 1, rest))
}

/// What follows `return`.
#[tactic(auto, unfolding(crate::specs::private::ReadStmt::returned))]
pub fn returned(
    alloc: Global,
    tokens: &[Token],
    line: u32,
    below: u8,
) -> Result<(Boxed<Stmt>, u8, &[Token]), TokenFault>
    requires { below < 255 }
    ensures value { ParseGives (λ x. ((x.0, x.1), x.2.now)) result (spec.returned below line tokens.now) }
    ensures height { IfOk result (λ x. x.1 ≤ below + 1) }
    ensures shorter { IfOk result (λ x. length x.2.now < length tokens.now) }
{
    let (value, rest) = optional(alloc, tokens, COMMA, Mark::Semicolon, below)?;
    let stmt = return_node(alloc, value.part, line)?;
    Ok((stmt, value.height + 1, rest))
}

/// An expression as a statement.
#[tactic(auto, unfolding(crate::specs::private::ReadStmt::run))]
pub fn run(
    alloc: Global,
    tokens: &[Token],
    line: u32,
    below: u8,
) -> Result<(Boxed<Stmt>, u8, &[Token]), TokenFault>
    requires { below < 255 }
    ensures value { ParseGives (λ x. ((x.0, x.1), x.2.now)) result (spec.run below line tokens.now) }
    ensures height { IfOk result (λ x. x.1 ≤ below + 1) }
    ensures shorter { IfOk result (λ x. length x.2.now < length tokens.now) }
{
    let (part, rest) = expression(alloc, tokens, COMMA, below)?;
    let rest = expect(rest, Mark::Semicolon)?;
    let height = part.height + 1;
    let stmt = run_node(alloc, part.expr, line)?;
    Ok((stmt, height, rest))
}
