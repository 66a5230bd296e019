//! Types and declarators.

ghost use Rattle.std.specs.Prelude.{◌≡◌, ◌+◌, ◌<◌, ◌≤◌, length, max, IfOk, IfSome};
ghost use Rattle.c_parser.specs.private.Reader.{ParseGives, Finds};
ghost use Rattle.c_parser.specs.Stmt as tree;
ghost use Rattle.c_parser.specs.private.ReadStmt as spec;

use crate::expr::expression;
use crate::fault::TokenFault;
use crate::operators::{ASSIGNMENT, CONDITIONAL};
use crate::tokens::{after, expect, expect_name, higher, line_at, separator_or_end, wrong};
use c_lexer::{Key, Mark, Tok, Token};
use c_tree::{Declr, Expr, Vars};
use nm_base::{Ctype, List};
use sqlite_items::Boxed;
use std::alloc::Global;

/// The tokens after an `int` that may come next.
fn past_int(tokens: &[Token]) -> &[Token]
    ensures value { result.now ≡ tree.past_int tokens.now }
    ensures shorter { length result.now ≤ length tokens.now }
{
    match tokens {
        [token, rest @ ..] if token.kind == Tok::Keyword(Key::Int) => rest,
        _ => tokens,
    }
}

/// The type that comes next, if one does, and the tokens after it.
pub fn type_at(tokens: &[Token]) -> Option<(Ctype, &[Token])>
    ensures value { Finds (λ x. (x.0, x.1.now)) result (spec.type_at tokens.now) }
    ensures shorter { IfSome result (λ x. length x.1.now < length tokens.now) }
{
    let [token, rest @ ..] = tokens else {
        return None;
    };
    match token.kind {
        Tok::Keyword(Key::Int) => Some((Ctype::Int, rest)),
        Tok::Keyword(Key::Signed) => Some((Ctype::Int, past_int(rest))),
        Tok::Keyword(Key::Unsigned) => Some((Ctype::Unsigned, past_int(rest))),
        _ => None,
    }
}

/// `size` and `]`, after a declarator's name and `[`.
#[tactic(auto, unfolding(crate::specs::private::ReadStmt::size_of))]
fn size_of(
    alloc: Global,
    tokens: &[Token],
    limit: u8,
) -> Result<(Boxed<Expr>, u8, &[Token]), TokenFault>
    ensures value { ParseGives (λ x. (((Some x.0, None), x.1), x.2.now)) result (spec.size_of limit tokens.now) }
    ensures height { IfOk result (λ x. x.1 ≤ limit) }
    ensures shorter { IfOk result (λ x. length x.2.now < length tokens.now) }
{
    let (size, rest) = expression(alloc, tokens, CONDITIONAL, limit)?;
    let rest = expect(rest, Mark::RightBracket)?;
    Ok((size.expr, size.height, rest))
}

/// `[size]` or `= start`, after a declarator's name.
#[tactic(auto, unfolding(crate::specs::private::ReadStmt::declr_end, crate::specs::private::ReadStmt::start_of))]
fn declr_end(
    alloc: Global,
    tokens: &[Token],
    limit: u8,
) -> Result<(Option<Boxed<Expr>>, Option<Boxed<Expr>>, u8, &[Token]), TokenFault>
    ensures value { ParseGives (λ x. (((x.0, x.1), x.2), x.3.now)) result (spec.declr_end limit tokens.now) }
    ensures height { IfOk result (λ x. x.2 ≤ limit) }
    ensures shorter { IfOk result (λ x. length x.3.now ≤ length tokens.now) }
{
    if let Some(rest) = after(tokens, Mark::LeftBracket) {
        let (size, height, rest) = size_of(alloc, rest, limit)?;
        return Ok((Some(size), None, height, rest));
    }
    if let Some(rest) = after(tokens, Mark::Assign) {
        let (start, rest) = expression(alloc, rest, ASSIGNMENT, limit)?;
        return Ok((None, Some(start.expr), start.height, rest));
    }
    Ok((None, None, 0, tokens))
}

/// The expression out of its box.
pub fn unboxed(part: Option<Boxed<Expr>>) -> Option<Expr>
    ensures { result ≡ part }
{
    match part {
        Some(part) => Some(part.into_inner()),
        None => None,
    }
}

/// A declarator, and the height of its part.
#[tactic(auto, unfolding(crate::specs::private::ReadStmt::declarator))]
fn declarator(
    alloc: Global,
    tokens: &[Token],
    limit: u8,
) -> Result<(Declr, u8, &[Token]), TokenFault>
    ensures value { ParseGives (λ x. ((x.0, x.1), x.2.now)) result (spec.declarator limit tokens.now) }
    ensures height { IfOk result (λ x. x.1 ≤ limit) }
    ensures shorter { IfOk result (λ x. length x.2.now < length tokens.now) }
{
    let line = line_at(tokens);
    let (name, rest) = expect_name(alloc, tokens)?;
    let (size, start, height, rest) = declr_end(alloc, rest, limit)?;
    let declr = Declr {
        name,
        size: unboxed(size),
        start: unboxed(start),
        line,
    };
    Ok((declr, height, rest))
}

/// The declarators up to the semicolon, and the height of the highest part.
fn declarators(
    alloc: Global,
    tokens: &[Token],
    limit: u8,
) -> Result<(Vec<Declr>, u8, &[Token]), TokenFault>
    ensures value { ParseGives (λ x. ((x.0.items, x.1), x.2.now)) result
        (spec.separated spec.is_declr_end (spec.declarator limit) (length tokens.now + 1) tokens.now) }
    ensures height { IfOk result (λ x. x.1 ≤ limit) }
    ensures shorter { IfOk result (λ x. length x.2.now < length tokens.now) }
{
    let mut list = Vec::new(alloc);
    let mut highest = 0;
    let mut rest = tokens;
    loop {
        let (declr, height, next) = declarator(alloc, rest, limit)?;
        list.push(declr)?;
        highest = higher(highest, height);
        let Some((more, next)) = separator_or_end(next) else {
            return Err(wrong(next));
        };
        if !more {
            return Ok((list, highest, next));
        }
        rest = next;
    }
}

/// The declarators of a type up to the semicolon, and the height of the highest part.
#[tactic(auto, unfolding(crate::specs::private::ReadStmt::declarations))]
pub fn declarations(
    alloc: Global,
    of: Ctype,
    tokens: &[Token],
    limit: u8,
) -> Result<(Vars, u8, &[Token]), TokenFault>
    ensures value { ParseGives (λ x. ((x.0, x.1), x.2.now)) result (spec.declarations limit of tokens.now) }
    ensures height { IfOk result (λ x. x.1 ≤ limit) }
    ensures shorter { IfOk result (λ x. length x.2.now < length tokens.now) }
{
    let (list, height, rest) = declarators(alloc, tokens, limit)?;
    let list = List::from_vec(list);
    Ok((Vars { of, list }, height, rest))
}

/// Declarations up to where no type comes next, and the height of the highest part.
#[tactic(auto, unfolding(crate::specs::private::ReadStmt::locals))]
pub fn locals(
    alloc: Global,
    tokens: &[Token],
    limit: u8,
) -> Result<(Vec<Vars>, u8, &[Token]), TokenFault>
    ensures value { ParseGives (λ x. ((x.0.items, x.1), x.2.now)) result (spec.locals limit tokens.now) }
    ensures height { IfOk result (λ x. x.1 ≤ limit) }
    ensures shorter { IfOk result (λ x. length x.2.now ≤ length tokens.now) }
{
    let mut list = Vec::new(alloc);
    let mut highest = 0;
    let mut rest = tokens;
    while let Some((of, next)) = type_at(rest) {
        let (vars, height, next) = declarations(alloc, of, next, limit)?;
        list.push(vars)?;
        highest = higher(highest, height);
        rest = next;
    }
    Ok((list, highest, rest))
}
