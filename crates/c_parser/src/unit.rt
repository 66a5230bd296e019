//! Items and units.

ghost use Rattle.std.specs.Prelude.{◌≡◌, ◌+◌, ◌<◌, ◌≤◌, [], length, max, IfOk, Some};
ghost use Rattle.c_parser.specs.private.Reader.{ParseGives};
ghost use Rattle.c_parser.specs.Unit as tree;
ghost use Rattle.c_parser.specs.private.ReadStmt as list;
ghost use Rattle.c_parser.specs.private.ReadExpr as expr;
ghost use Rattle.c_parser.specs.private.ReadUnit as spec;

use crate::decl::{declarations, type_at, unboxed};
use crate::fault::TokenFault;
use crate::inner::optional;
use crate::operators::CONDITIONAL;
use crate::stmt::block;
use crate::tokens::{
    after, after_key, expect, expect_name, higher, line_at, name_at, separator_at, wrong,
};
use c_lexer::{Key, Mark, Token};
use c_tree::{Expr, Head, Item, Param};
use nm_base::{Bytes, Ctype, List};
use sqlite_items::Boxed;
use std::alloc::Global;

/// The greatest height of an item: no item of a tree that [`crate::parse`] answers is higher.
pub const MAX_HEIGHT: u8 = 64;

/// The brackets of an array, if they come next: whether they do, the size and its height or 0.
#[tactic(auto, unfolding(crate::specs::private::ReadUnit::array_at))]
fn array_at(
    alloc: Global,
    tokens: &[Token],
) -> Result<(bool, Option<Boxed<Expr>>, u8, &[Token]), TokenFault>
    ensures value { ParseGives (λ x. (((x.0, x.1), x.2), x.3.now)) result (spec.array_at tokens.now) }
    ensures height { IfOk result (λ x. x.2 ≤ 64) }
    ensures shorter { IfOk result (λ x. length x.3.now ≤ length tokens.now) }
{
    let Some(rest) = after(tokens, Mark::LeftBracket) else {
        return Ok((false, None, 0, tokens));
    };
    let (size, rest) = optional(alloc, rest, CONDITIONAL, Mark::RightBracket, MAX_HEIGHT)?;
    Ok((true, size.part, size.height, rest))
}

/// A parameter, after its type and its name.
#[tactic(auto, unfolding(crate::specs::private::ReadUnit::param_of))]
fn param_of(
    alloc: Global,
    of: Ctype,
    name: Option<Bytes>,
    line: u32,
    tokens: &[Token],
) -> Result<(Param, u8, &[Token]), TokenFault>
    ensures value { ParseGives (λ x. ((x.0, x.1), x.2.now)) result (spec.param_of of name line tokens.now) }
    ensures height { IfOk result (λ x. x.1 ≤ 64) }
    ensures shorter { IfOk result (λ x. length x.2.now ≤ length tokens.now) }
{
    let (array, size, height, rest) = array_at(alloc, tokens)?;
    let param = Param {
        of,
        name,
        array,
        size: unboxed(size),
        line,
    };
    Ok((param, height, rest))
}

/// A parameter, and the height of its size or 0.
#[tactic(auto, unfolding(crate::specs::private::ReadUnit::parameter))]
fn parameter(alloc: Global, tokens: &[Token]) -> Result<(Param, u8, &[Token]), TokenFault>
    ensures value { ParseGives (λ x. ((x.0, x.1), x.2.now)) result (spec.parameter tokens.now) }
    ensures height { IfOk result (λ x. x.1 ≤ 64) }
    ensures shorter { IfOk result (λ x. length x.2.now < length tokens.now) }
{
    let Some((of, rest)) = type_at(tokens) else {
        return Err(wrong(tokens));
    };
    match name_at(alloc, rest)? {
        Some((name, after)) => param_of(alloc, of, Some(name), line_at(rest), after),
        None => param_of(alloc, of, None, line_at(tokens), rest),
    }
}

/// At least one parameter, up to the closing parenthesis, and the greatest height.
fn some_parameters(
    alloc: Global,
    tokens: &[Token],
) -> Result<(Vec<Param>, u8, &[Token]), TokenFault>
    ensures value { ParseGives (λ x. ((x.0.items, x.1), x.2.now)) result
        (list.separated expr.is_separator spec.parameter (length tokens.now + 1) tokens.now) }
    ensures height { IfOk result (λ x. x.1 ≤ 64) }
    ensures shorter { IfOk result (λ x. length x.2.now < length tokens.now) }
{
    let mut list = Vec::new(alloc);
    let mut highest = 0;
    let mut rest = tokens;
    loop {
        let (param, height, next) = parameter(alloc, rest)?;
        list.push(param)?;
        highest = higher(highest, height);
        let Some((more, next)) = separator_at(next) else {
            return Err(wrong(next));
        };
        if !more {
            return Ok((list, highest, next));
        }
        rest = next;
    }
}

/// The parameters up to the closing parenthesis, and the greatest height.
#[tactic(auto, unfolding(crate::specs::private::ReadUnit::parameters))]
fn parameters(alloc: Global, tokens: &[Token]) -> Result<(Vec<Param>, u8, &[Token]), TokenFault>
    ensures value { ParseGives (λ x. ((x.0.items, x.1), x.2.now)) result (spec.parameters tokens.now) }
    ensures height { IfOk result (λ x. x.1 ≤ 64) }
    ensures shorter { IfOk result (λ x. length x.2.now < length tokens.now) }
{
    if let Some(rest) = after_key(tokens, Key::Void) {
        let rest = expect(rest, Mark::RightParen)?;
        return Ok((Vec::new(alloc), 0, rest));
    }
    if let Some(rest) = after(tokens, Mark::RightParen) {
        return Ok((Vec::new(alloc), 0, rest));
    }
    some_parameters(alloc, tokens)
}

/// Whether each parameter has a name.
fn all_named(params: &[Param]) -> bool
    ensures { result ≡ tree.params_named params.now }
{
    params.iter().all(|param| param.name.is_some())
}

/// The body of a function, after its head.
#[tactic(auto, unfolding(crate::specs::private::ReadUnit::body_of))]
fn body_of(
    alloc: Global,
    head: Head,
    high: u8,
    tokens: &[Token],
) -> Result<(Item, u8, &[Token]), TokenFault>
    requires { high ≤ 64 }
    ensures value { ParseGives (λ x. ((x.0, x.1), x.2.now)) result (spec.body_of head high tokens.now) }
    ensures height { IfOk result (λ x. x.1 ≤ 64) }
    ensures shorter { IfOk result (λ x. length x.2.now < length tokens.now) }
{
    if !all_named(head.params.as_slice()) {
        return Err(wrong(tokens));
    }
    let line = line_at(tokens);
    let rest = expect(tokens, Mark::LeftBrace)?;
    let (body, higher, rest) = block(alloc, rest, line, MAX_HEIGHT - 1)?;
    let body = body.into_inner();
    Ok((Item::Function { head, body }, high.max(higher), rest))
}

/// A semicolon or a body, after a head.
#[tactic(auto, unfolding(crate::specs::private::ReadUnit::headed))]
fn headed(
    alloc: Global,
    head: Head,
    high: u8,
    tokens: &[Token],
) -> Result<(Item, u8, &[Token]), TokenFault>
    requires { high ≤ 64 }
    ensures value { ParseGives (λ x. ((x.0, x.1), x.2.now)) result (spec.headed head high tokens.now) }
    ensures height { IfOk result (λ x. x.1 ≤ 64) }
    ensures shorter { IfOk result (λ x. length x.2.now < length tokens.now) }
{
    match after(tokens, Mark::Semicolon) {
        Some(rest) => Ok((Item::Proto(head), high.max(1), rest)),
        None => body_of(alloc, head, high, tokens),
    }
}

/// A function, after the opening parenthesis of its head.
#[tactic(auto, unfolding(crate::specs::private::ReadUnit::function_of))]
fn function_of(
    alloc: Global,
    of: Option<Ctype>,
    name: Bytes,
    line: u32,
    tokens: &[Token],
) -> Result<(Item, u8, &[Token]), TokenFault>
    ensures value { ParseGives (λ x. ((x.0, x.1), x.2.now)) result (spec.function_of of name line tokens.now) }
    ensures height { IfOk result (λ x. x.1 ≤ 64) }
    ensures shorter { IfOk result (λ x. length x.2.now < length tokens.now) }
{
    let (params, high, rest) = parameters(alloc, tokens)?;
    let head = Head {
        result: of,
        name,
        params: List::from_vec(params),
        line,
    };
    headed(alloc, head, high, rest)
}

/// Variables of a type, from the first name on.
#[tactic(auto, unfolding(crate::specs::private::ReadUnit::vars_of))]
fn vars_of(alloc: Global, of: Ctype, tokens: &[Token]) -> Result<(Item, u8, &[Token]), TokenFault>
    ensures value { ParseGives (λ x. ((x.0, x.1), x.2.now)) result (spec.vars_of (Some of) tokens.now) }
    ensures height { IfOk result (λ x. x.1 ≤ 64) }
    ensures shorter { IfOk result (λ x. length x.2.now < length tokens.now) }
{
    let (vars, high, rest) = declarations(alloc, of, tokens, MAX_HEIGHT)?;
    Ok((Item::Vars(vars), high.max(1), rest))
}

/// An item, after its type or after `void`, of which there are functions alone.
#[tactic(auto, unfolding(crate::specs::private::ReadUnit::item_of, crate::specs::private::ReadUnit::vars_of))]
fn item_of(
    alloc: Global,
    of: Option<Ctype>,
    tokens: &[Token],
) -> Result<(Item, u8, &[Token]), TokenFault>
    ensures value { ParseGives (λ x. ((x.0, x.1), x.2.now)) result (spec.item_of of tokens.now) }
    ensures height { IfOk result (λ x. x.1 ≤ 64) }
    ensures shorter { IfOk result (λ x. length x.2.now < length tokens.now) }
{
    let line = line_at(tokens);
    let (name, rest) = expect_name(alloc, tokens)?;
    if let Some(rest) = after(rest, Mark::LeftParen) {
        return function_of(alloc, of, name, line, rest);
    }
    match of {
        Some(of) => vars_of(alloc, of, tokens),
        None => Err(wrong(rest)),
    }
}

/// The item that comes next, and its height.
#[tactic(auto, unfolding(crate::specs::private::ReadUnit::read_item))]
fn item(alloc: Global, tokens: &[Token]) -> Result<(Item, u8, &[Token]), TokenFault>
    ensures value { ParseGives (λ x. ((x.0, x.1), x.2.now)) result (spec.read_item tokens.now) }
    ensures height { IfOk result (λ x. x.1 ≤ 64) }
    ensures shorter { IfOk result (λ x. length x.2.now < length tokens.now) }
{
    if let Some(rest) = after_key(tokens, Key::Void) {
        return item_of(alloc, None, rest);
    }
    match type_at(tokens) {
        Some((of, rest)) => item_of(alloc, Some(of), rest),
        None => Err(wrong(tokens)),
    }
}

/// All items, and the greatest height.
pub fn items(alloc: Global, tokens: &[Token]) -> Result<(Vec<Item>, u8), TokenFault>
    ensures { ParseGives (λ x. ((x.0.items, x.1), [])) result (spec.read_items tokens.now) }
{
    let mut list = Vec::new(alloc);
    let mut highest = 0;
    let mut rest = tokens;
    while !rest.is_empty() {
        let (item, height, next) = item(alloc, rest)?;
        list.push(item)?;
        highest = higher(highest, height);
        rest = next;
    }
    Ok((list, highest))
}
