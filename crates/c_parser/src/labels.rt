//! The labels of a switch.

ghost use Rattle.std.specs.Prelude.{◌≡◌, ◌+◌, ◌<◌, ◌≤◌, length, is_some, IfOk};
ghost use Rattle.c_lexer.specs.declared.token.Tok.TheVariants as tok;
ghost use Rattle.c_lexer.specs.declared.token.Key.TheVariants as key;
ghost use Rattle.c_parser.specs.private.Reader.{ParseGives};
ghost use Rattle.c_parser.specs.private.ReadStmt as spec;

use crate::expr::expression;
use crate::fault::TokenFault;
use crate::operators::CONDITIONAL;
use crate::tokens::{after, after_key, expect, higher, wrong};
use c_lexer::{Key, Mark, Tok, Token};
use c_tree::Label;
use std::alloc::Global;

/// Whether a label comes next.
pub fn begins_label(tokens: &[Token]) -> bool
    ensures { result ≡ spec.begins_label tokens.now }
{
    after_key(tokens, Key::Case).is_some() || after_key(tokens, Key::Default).is_some()
}

/// Whether a list of statements ends here.
pub fn ends_list(tokens: &[Token]) -> bool
    ensures { result ≡ is_some (spec.list_end tokens.now) }
{
    after(tokens, Mark::RightBrace).is_some() || begins_label(tokens)
}

/// What follows `case`.
pub fn case_of(
    alloc: Global,
    tokens: &[Token],
    line: u32,
    limit: u8,
) -> Result<(Label, u8, &[Token]), TokenFault>
    ensures value { ParseGives (λ x. ((x.0, x.1), x.2.now)) result
        (spec.label_by limit (tok.Keyword key.Case) line tokens.now) }
    ensures height { IfOk result (λ x. x.1 ≤ limit) }
    ensures shorter { IfOk result (λ x. length x.2.now < length tokens.now) }
{
    let (value, rest) = expression(alloc, tokens, CONDITIONAL, limit)?;
    let rest = expect(rest, Mark::Colon)?;
    let label = Label {
        value: Some(value.expr.into_inner()),
        line,
    };
    Ok((label, value.height, rest))
}

/// A label, and the height of its constant or 0.
#[tactic(auto, unfolding(crate::specs::private::ReadStmt::label))]
pub fn label(
    alloc: Global,
    tokens: &[Token],
    limit: u8,
) -> Result<(Label, u8, &[Token]), TokenFault>
    ensures value { ParseGives (λ x. ((x.0, x.1), x.2.now)) result (spec.label limit tokens.now) }
    ensures height { IfOk result (λ x. x.1 ≤ limit) }
    ensures shorter { IfOk result (λ x. length x.2.now < length tokens.now) }
{
    let [token, rest @ ..] = tokens else {
        return Err(wrong(tokens));
    };
    let line = token.line;
    match token.kind {
        Tok::Keyword(Key::Default) => {
            let rest = expect(rest, Mark::Colon)?;
            Ok((Label { value: None, line }, 0, rest))
        }
        Tok::Keyword(Key::Case) => case_of(alloc, rest, line, limit),
        _ => Err(wrong(tokens)),
    }
}

/// Labels up to where none comes next, and the greatest height.
pub fn labels(
    alloc: Global,
    tokens: &[Token],
    limit: u8,
) -> Result<(Vec<Label>, u8, &[Token]), TokenFault>
    ensures value { ParseGives (λ x. ((x.0.items, x.1), x.2.now)) result
        (spec.repeated spec.no_label (spec.label limit) (length tokens.now + 1) tokens.now) }
    ensures height { IfOk result (λ x. x.1 ≤ limit) }
    ensures shorter { IfOk result (λ x. length x.2.now + length x.0.items ≤ length tokens.now) }
{
    let mut list = Vec::new(alloc);
    let mut highest = 0;
    let mut rest = tokens;
    while begins_label(rest) {
        let (label, height, next) = label(alloc, rest, limit)?;
        list.push(label)?;
        highest = higher(highest, height);
        rest = next;
    }
    Ok((list, highest, rest))
}
