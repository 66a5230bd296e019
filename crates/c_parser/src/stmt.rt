//! Statements. A part that was read comes with its height.

ghost use Rattle.std.specs.Prelude.{◌≡◌, ◌+◌, ◌<◌, ◌≤◌, length, max, IfOk};
ghost use Rattle.c_parser.specs.private.Reader.{ParseGives};
ghost use Rattle.c_parser.specs.private.ReadStmt as spec;

use crate::decl::locals;
use crate::expr::expression;
use crate::fault::TokenFault;
use crate::inner::{above, condition, optional};
use crate::labels::{ends_list, labels};
use crate::leaves::{leaf, returned, run};
use crate::nodes::{Heads, block_node, do_node, for_node, if_node, switch_node, while_node};
use crate::operators::COMMA;
use crate::tokens::{after, after_key, expect, expect_key, higher, too_deep, wrong};
use c_lexer::{Key, Mark, Tok, Token};
use c_tree::{Arm, Stmt};
use nm_base::List;
use sqlite_items::Boxed;
use std::alloc::Global;

/// What a statement is by its first token.
#[derive(Clone, Copy, Debug, PartialEq, Eq)]
pub enum StmtForm {
    Block,
    Empty,
    If,
    While,
    Do,
    For,
    Switch,
    Break,
    Continue,
    Return,
}

/// What a statement with this first token is, none for an expression.
fn form_of(kind: Tok) -> Option<StmtForm>
    ensures { result ≡ spec.form_of kind }
{
    match kind {
        Tok::Mark(Mark::LeftBrace) => Some(StmtForm::Block),
        Tok::Mark(Mark::Semicolon) => Some(StmtForm::Empty),
        Tok::Keyword(Key::If) => Some(StmtForm::If),
        Tok::Keyword(Key::While) => Some(StmtForm::While),
        Tok::Keyword(Key::Do) => Some(StmtForm::Do),
        Tok::Keyword(Key::For) => Some(StmtForm::For),
        Tok::Keyword(Key::Switch) => Some(StmtForm::Switch),
        Tok::Keyword(Key::Break) => Some(StmtForm::Break),
        Tok::Keyword(Key::Continue) => Some(StmtForm::Continue),
        Tok::Keyword(Key::Return) => Some(StmtForm::Return),
        _ => None,
    }
}

/// The statement that comes next, at most `limit` high, and its height.
#[tactic(auto, unfolding(crate::specs::private::ReadStmt::read_stmt, crate::specs::private::ReadStmt::stmt))]
#[cycle(stmt)]
pub fn statement(
    alloc: Global,
    tokens: &[Token],
    limit: u8,
) -> Result<(Boxed<Stmt>, u8, &[Token]), TokenFault>
    ensures value { ParseGives (λ x. ((x.0, x.1), x.2.now)) result (spec.read_stmt limit tokens.now) }
    ensures height { IfOk result (λ x. x.1 ≤ limit) }
    ensures shorter { IfOk result (λ x. length x.2.now < length tokens.now) }
{
    if limit == 0 {
        return Err(too_deep(tokens));
    }
    let below = limit - 1;
    let [token, rest @ ..] = tokens else {
        return Err(wrong(tokens));
    };
    let line = token.line;
    match form_of(token.kind) {
        Some(StmtForm::Block) => block(alloc, rest, line, below),
        Some(StmtForm::Empty) => Ok((Boxed::new(alloc, Stmt::Empty { line })?, 1, rest)),
        Some(StmtForm::If) => branch(alloc, rest, line, below),
        Some(StmtForm::While) => repeated(alloc, rest, line, below),
        Some(StmtForm::Do) => done(alloc, rest, line, below),
        Some(StmtForm::For) => counted(alloc, rest, line, below),
        Some(StmtForm::Switch) => switched(alloc, rest, line, below),
        Some(StmtForm::Break) => leaf(rest, Boxed::new(alloc, Stmt::Break { line })?),
        Some(StmtForm::Continue) => leaf(rest, Boxed::new(alloc, Stmt::Continue { line })?),
        Some(StmtForm::Return) => returned(alloc, rest, line, below),
        None => run(alloc, tokens, line, below),
    }
}

/// What follows `if`. An `else` that comes next belongs to it.
#[tactic(auto, unfolding(crate::specs::private::ReadStmt::branch))]
#[cycle(stmt)]
fn branch(
    alloc: Global,
    tokens: &[Token],
    line: u32,
    below: u8,
) -> Result<(Boxed<Stmt>, u8, &[Token]), TokenFault>
    requires { below < 255 }
    ensures value { ParseGives (λ x. ((x.0, x.1), x.2.now)) result
        (spec.branch below (spec.read_stmt below) line tokens.now) }
    ensures height { IfOk result (λ x. x.1 ≤ below + 1) }
    ensures shorter { IfOk result (λ x. length x.2.now < length tokens.now) }
{
    let (test, rest) = condition(alloc, tokens, below)?;
    let (yes, high, rest) = statement(alloc, rest, below)?;
    let (no, higher, rest) = otherwise(alloc, rest, below)?;
    let height = above(test.height, high.max(higher));
    let stmt = if_node(alloc, test.expr, yes, no, line)?;
    Ok((stmt, height, rest))
}

/// `else` and its statement, if it comes next, and its height or 0.
#[tactic(auto, unfolding(crate::specs::private::ReadStmt::otherwise))]
#[cycle(stmt)]
fn otherwise(
    alloc: Global,
    tokens: &[Token],
    below: u8,
) -> Result<(Option<Boxed<Stmt>>, u8, &[Token]), TokenFault>
    requires { below < 255 }
    ensures value { ParseGives (λ x. ((x.0, x.1), x.2.now)) result (spec.otherwise (spec.read_stmt below) tokens.now) }
    ensures height { IfOk result (λ x. x.1 ≤ below) }
    ensures shorter { IfOk result (λ x. length x.2.now ≤ length tokens.now) }
{
    let Some(rest) = after_key(tokens, Key::Else) else {
        return Ok((None, 0, tokens));
    };
    let (stmt, height, rest) = statement(alloc, rest, below)?;
    Ok((Some(stmt), height, rest))
}

/// What follows `while`.
#[tactic(auto, unfolding(crate::specs::private::ReadStmt::whiled))]
#[cycle(stmt)]
fn repeated(
    alloc: Global,
    tokens: &[Token],
    line: u32,
    below: u8,
) -> Result<(Boxed<Stmt>, u8, &[Token]), TokenFault>
    requires { below < 255 }
    ensures value { ParseGives (λ x. ((x.0, x.1), x.2.now)) result
        (spec.whiled below (spec.read_stmt below) line tokens.now) }
    ensures height { IfOk result (λ x. x.1 ≤ below + 1) }
    ensures shorter { IfOk result (λ x. length x.2.now < length tokens.now) }
{
    let (test, rest) = condition(alloc, tokens, below)?;
    let (body, high, rest) = statement(alloc, rest, below)?;
    let height = above(test.height, high);
    let stmt = while_node(alloc, test.expr, body, line)?;
    Ok((stmt, height, rest))
}

/// What follows `do`.
#[tactic(auto, unfolding(crate::specs::private::ReadStmt::done))]
#[cycle(stmt)]
fn done(
    alloc: Global,
    tokens: &[Token],
    line: u32,
    below: u8,
) -> Result<(Boxed<Stmt>, u8, &[Token]), TokenFault>
    requires { below < 255 }
    ensures value { ParseGives (λ x. ((x.0, x.1), x.2.now)) result
        (spec.done below (spec.read_stmt below) line tokens.now) }
    ensures height { IfOk result (λ x. x.1 ≤ below + 1) }
    ensures shorter { IfOk result (λ x. length x.2.now < length tokens.now) }
{
    let (body, high, rest) = statement(alloc, tokens, below)?;
    let rest = expect_key(rest, Key::While)?;
    let (test, rest) = condition(alloc, rest, below)?;
    let rest = expect(rest, Mark::Semicolon)?;
    let height = above(high, test.height);
    let stmt = do_node(alloc, body, test.expr, line)?;
    Ok((stmt, height, rest))
}

/// What follows `for`.
#[tactic(auto, unfolding(crate::specs::private::ReadStmt::counted))]
#[cycle(stmt)]
fn counted(
    alloc: Global,
    tokens: &[Token],
    line: u32,
    below: u8,
) -> Result<(Boxed<Stmt>, u8, &[Token]), TokenFault>
    requires { below < 255 }
    ensures value { ParseGives (λ x. ((x.0, x.1), x.2.now)) result
        (spec.counted below (spec.read_stmt below) line tokens.now) }
    ensures height { IfOk result (λ x. x.1 ≤ below + 1) }
    ensures shorter { IfOk result (λ x. length x.2.now < length tokens.now) }
{
    let rest = expect(tokens, Mark::LeftParen)?;
    let (first, rest) = optional(alloc, rest, COMMA, Mark::Semicolon, below)?;
    let (test, rest) = optional(alloc, rest, COMMA, Mark::Semicolon, below)?;
    let (third, rest) = optional(alloc, rest, COMMA, Mark::RightParen, below)?;
    let (body, high, rest) = statement(alloc, rest, below)?;
    let height = above(first.height, test.height.max(third.height.max(high)));
    let heads = Heads {
        first: first.part,
        test: test.part,
        third: third.part,
    };
    let stmt = for_node(alloc, heads, body, line)?;
    Ok((stmt, height, rest))
}

/// What follows `switch`.
#[tactic(auto, unfolding(crate::specs::private::ReadStmt::switched))]
#[cycle(stmt)]
fn switched(
    alloc: Global,
    tokens: &[Token],
    line: u32,
    below: u8,
) -> Result<(Boxed<Stmt>, u8, &[Token]), TokenFault>
    requires { below < 255 }
    ensures value { ParseGives (λ x. ((x.0, x.1), x.2.now)) result
        (spec.switched below (spec.read_stmt below) line tokens.now) }
    ensures height { IfOk result (λ x. x.1 ≤ below + 1) }
    ensures shorter { IfOk result (λ x. length x.2.now < length tokens.now) }
{
    let (on, rest) = condition(alloc, tokens, below)?;
    let rest = expect(rest, Mark::LeftBrace)?;
    let (arms, high, rest) = arms(alloc, rest, below)?;
    let height = above(on.height, high);
    let stmt = switch_node(alloc, on.expr, arms, line)?;
    Ok((stmt, height, rest))
}

/// What follows an opening brace.
#[tactic(auto, unfolding(crate::specs::private::ReadStmt::block))]
#[cycle(stmt)]
pub fn block(
    alloc: Global,
    tokens: &[Token],
    line: u32,
    below: u8,
) -> Result<(Boxed<Stmt>, u8, &[Token]), TokenFault>
    requires { below < 255 }
    ensures value { ParseGives (λ x. ((x.0, x.1), x.2.now)) result
        (spec.block below (spec.read_stmt below) line tokens.now) }
    ensures height { IfOk result (λ x. x.1 ≤ below + 1) }
    ensures shorter { IfOk result (λ x. length x.2.now < length tokens.now) }
{
    let (vars, high, rest) = locals(alloc, tokens, below)?;
    let (list, higher, rest) = statements(alloc, rest, below)?;
    let rest = expect(rest, Mark::RightBrace)?;
    let height = above(high, higher);
    let stmt = block_node(alloc, vars, list, line)?;
    Ok((stmt, height, rest))
}

/// Statements up to a closing brace or a label, and the greatest height.
#[cycle(stmt)]
fn statements(
    alloc: Global,
    tokens: &[Token],
    below: u8,
) -> Result<(Vec<Stmt>, u8, &[Token]), TokenFault>
    requires { below < 255 }
    ensures value { ParseGives (λ x. ((x.0.items, x.1), x.2.now)) result
        (spec.statements (spec.read_stmt below) tokens.now) }
    ensures height { IfOk result (λ x. x.1 ≤ below) }
    ensures shorter { IfOk result (λ x. length x.2.now + length x.0.items ≤ length tokens.now) }
{
    let mut list = Vec::new(alloc);
    let mut highest = 0;
    let mut rest = tokens;
    loop {
        if ends_list(rest) {
            return Ok((list, highest, rest));
        }
        let (stmt, height, next) = statement(alloc, rest, below)?;
        list.push(stmt.into_inner())?;
        highest = higher(highest, height);
        rest = next;
    }
}

/// Arms up to the closing brace, and the greatest height.
#[cycle(stmt)]
fn arms(alloc: Global, tokens: &[Token], below: u8) -> Result<(Vec<Arm>, u8, &[Token]), TokenFault>
    requires { below < 255 }
    ensures value { ParseGives (λ x. ((x.0.items, x.1), x.2.now)) result
        (spec.arms below (spec.read_stmt below) tokens.now) }
    ensures height { IfOk result (λ x. x.1 ≤ below) }
    ensures shorter { IfOk result (λ x. length x.2.now < length tokens.now) }
{
    let mut list = Vec::new(alloc);
    let mut highest = 0;
    let mut rest = tokens;
    loop {
        if let Some(next) = after(rest, Mark::RightBrace) {
            return Ok((list, highest, next));
        }
        let (arm, height, next) = arm(alloc, rest, below)?;
        list.push(arm)?;
        highest = higher(highest, height);
        rest = next;
    }
}

/// Labels, at least one, and their statements, at least one, with the greatest height.
#[tactic(auto, unfolding(crate::specs::private::ReadStmt::arm, crate::specs::private::ReadStmt::labels))]
#[cycle(stmt)]
fn arm(alloc: Global, tokens: &[Token], below: u8) -> Result<(Arm, u8, &[Token]), TokenFault>
    requires { below < 255 }
    ensures value { ParseGives (λ x. ((x.0, x.1), x.2.now)) result (spec.arm below (spec.read_stmt below) tokens.now) }
    ensures height { IfOk result (λ x. x.1 ≤ below) }
    ensures shorter { IfOk result (λ x. length x.2.now < length tokens.now) }
{
    let (labels, high, rest) = labels(alloc, tokens, below)?;
    if labels.is_empty() {
        return Err(wrong(rest));
    }
    let (list, higher, rest) = statements(alloc, rest, below)?;
    if list.is_empty() {
        return Err(wrong(rest));
    }
    let arm = Arm {
        labels: List::from_vec(labels),
        list: List::from_vec(list),
    };
    Ok((arm, high.max(higher), rest))
}
