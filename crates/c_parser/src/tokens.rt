//! Steps along the tokens.

ghost use Rattle.std.specs.Prelude.{◌≡◌, ◌<◌, length, max, IfOk, IfSome};
ghost use Rattle.c_parser.specs.private.Operators.{prefix_of, suffix_of};
ghost use Rattle.c_parser.specs.private.Reader as spec;
ghost use Rattle.c_parser.specs.private.Reader.{ParseGives, Finds};
ghost use Rattle.c_parser.specs.private.ReadExpr.{join_at, assignment_at, line_at, is_separator};
ghost use Rattle.c_parser.specs.private.ReadStmt.{is_declr_end, after_key, expect_key, expect_name, name_at};

use crate::fault::TokenFault;
use crate::operators::{Join, Prefix, UNARY, assignment_of, join_of, prefix_of, suffix_of};
use c_lexer::{Key, Mark, Tok, Token};
use nm_base::{BinaryOp, Bytes, WantOfMemory};
use std::alloc::Global;

/// The greater of two heights.
pub fn higher(a: u8, b: u8) -> u8
    ensures { result ≡ max a b }
{
    a.max(b)
}

/// The grammar is broken where these tokens begin.
pub fn wrong(tokens: &[Token]) -> TokenFault
    ensures { result ≡ TokenFault.Syntax (length tokens.now) }
{
    TokenFault::Syntax { left: tokens.len() }
}

/// The height is passed where these tokens begin.
pub fn too_deep(tokens: &[Token]) -> TokenFault
    ensures { result ≡ TokenFault.Deep (length tokens.now) }
{
    TokenFault::Deep { left: tokens.len() }
}

/// The line of the next token.
pub fn line_at(tokens: &[Token]) -> u32
    ensures { result ≡ line_at tokens.now }
{
    match tokens {
        [token, ..] => token.line,
        [] => 0,
    }
}

/// The tokens after a mark that comes next.
pub fn after(tokens: &[Token], mark: Mark) -> Option<&[Token]>
    ensures value { Finds (λ x. x.now) result (spec.after mark tokens.now) }
    ensures shorter { IfSome result (λ x. length x.now < length tokens.now) }
{
    match tokens {
        [token, rest @ ..] if token.kind == Tok::Mark(mark) => Some(rest),
        _ => None,
    }
}

/// The tokens after a mark that has to come next.
pub fn expect(tokens: &[Token], mark: Mark) -> Result<&[Token], TokenFault>
    ensures value { ParseGives (λ x. x.now) result (spec.expect mark tokens.now) }
    ensures shorter { IfOk result (λ x. length x.now < length tokens.now) }
{
    match after(tokens, mark) {
        Some(rest) => Ok(rest),
        None => Err(wrong(tokens)),
    }
}

/// The next token, if it is a mark, and the tokens after it.
pub fn next_mark(tokens: &[Token]) -> Option<(Mark, &[Token])>
    ensures value { Finds (λ x. (x.0, x.1.now)) result (spec.at_mark (λ m. Some m) tokens.now) }
    ensures shorter { IfSome result (λ x. length x.1.now < length tokens.now) }
{
    match tokens {
        [token, rest @ ..] => match token.kind {
            Tok::Mark(mark) => Some((mark, rest)),
            _ => None,
        },
        [] => None,
    }
}

/// Whether a comma comes next, or else a closing parenthesis, and the tokens after it.
pub fn separator_at(tokens: &[Token]) -> Option<(bool, &[Token])>
    ensures value { Finds (λ x. (x.0, x.1.now)) result (spec.at_mark is_separator tokens.now) }
    ensures shorter { IfSome result (λ x. length x.1.now < length tokens.now) }
{
    match next_mark(tokens)? {
        (Mark::Comma, rest) => Some((true, rest)),
        (Mark::RightParen, rest) => Some((false, rest)),
        _ => None,
    }
}

/// The next token, if it joins operands at this level, and the tokens after it.
pub fn join_at(tokens: &[Token], level: u8) -> Option<(Join, &[Token])>
    ensures value { Finds (λ x. (x.0, x.1.now)) result (join_at level tokens.now) }
    ensures shorter { IfSome result (λ x. length x.1.now < length tokens.now) }
{
    let (mark, rest) = next_mark(tokens)?;
    match join_of(mark) {
        Some((of, join)) if of == level => Some((join, rest)),
        _ => None,
    }
}

/// What the next token means before an operand, if it may stand there, and the tokens after it.
pub fn prefix_at(tokens: &[Token]) -> Option<(Prefix, &[Token])>
    ensures value { Finds (λ x. (x.0, x.1.now)) result (spec.at_mark prefix_of tokens.now) }
    ensures shorter { IfSome result (λ x. length x.1.now < length tokens.now) }
{
    let (mark, rest) = next_mark(tokens)?;
    Some((prefix_of(mark)?, rest))
}

/// Whether `++` comes next, or else `--`, and the tokens after it.
pub fn suffix_at(tokens: &[Token]) -> Option<(bool, &[Token])>
    ensures value { Finds (λ x. (x.0, x.1.now)) result (spec.at_mark suffix_of tokens.now) }
    ensures shorter { IfSome result (λ x. length x.1.now < length tokens.now) }
{
    let (mark, rest) = next_mark(tokens)?;
    Some((suffix_of(mark)?, rest))
}

/// The next token, if it assigns to an operand of this level, and the tokens after it.
pub fn assignment_at(tokens: &[Token], level: u8) -> Option<(Option<BinaryOp>, &[Token])>
    ensures value { Finds (λ x. (x.0, x.1.now)) result (assignment_at level tokens.now) }
    ensures shorter { IfSome result (λ x. length x.1.now < length tokens.now) }
{
    if level > UNARY {
        return None;
    }
    let (mark, rest) = next_mark(tokens)?;
    Some((assignment_of(mark)?, rest))
}

/// Whether a comma comes next, or else a semicolon, and the tokens after it.
pub fn separator_or_end(tokens: &[Token]) -> Option<(bool, &[Token])>
    ensures value { Finds (λ x. (x.0, x.1.now)) result (spec.at_mark is_declr_end tokens.now) }
    ensures shorter { IfSome result (λ x. length x.1.now < length tokens.now) }
{
    match next_mark(tokens)? {
        (Mark::Comma, rest) => Some((true, rest)),
        (Mark::Semicolon, rest) => Some((false, rest)),
        _ => None,
    }
}

/// The tokens after a keyword that comes next.
pub fn after_key(tokens: &[Token], key: Key) -> Option<&[Token]>
    ensures value { Finds (λ x. x.now) result (after_key key tokens.now) }
    ensures shorter { IfSome result (λ x. length x.now < length tokens.now) }
{
    match tokens {
        [token, rest @ ..] if token.kind == Tok::Keyword(key) => Some(rest),
        _ => None,
    }
}

/// The tokens after a keyword that has to come next.
pub fn expect_key(tokens: &[Token], key: Key) -> Result<&[Token], TokenFault>
    ensures value { ParseGives (λ x. x.now) result (expect_key key tokens.now) }
    ensures shorter { IfOk result (λ x. length x.now < length tokens.now) }
{
    match after_key(tokens, key) {
        Some(rest) => Ok(rest),
        None => Err(wrong(tokens)),
    }
}

/// The name that comes next, if one does, and the tokens after it.
pub fn name_at(alloc: Global, tokens: &[Token]) -> Result<Option<(Bytes, &[Token])>, WantOfMemory>
    ensures value { IfOk result (λ o. Finds (λ x. (x.0, x.1.now)) o (name_at tokens.now)) }
    ensures shorter { IfOk result (λ o. IfSome o (λ x. length x.1.now < length tokens.now)) }
{
    match tokens {
        [token, rest @ ..] if token.kind == Tok::Name => {
            Ok(Some((token.bytes.copy(alloc)?, rest)))
        }
        _ => Ok(None),
    }
}

/// The name that has to come next, and the tokens after it.
pub fn expect_name(alloc: Global, tokens: &[Token]) -> Result<(Bytes, &[Token]), TokenFault>
    ensures value { ParseGives (λ x. (x.0, x.1.now)) result (expect_name tokens.now) }
    ensures shorter { IfOk result (λ x. length x.1.now < length tokens.now) }
{
    match tokens {
        [token, rest @ ..] if token.kind == Tok::Name => Ok((token.bytes.copy(alloc)?, rest)),
        _ => Err(wrong(tokens)),
    }
}
