//! From tokens to a tree.

ghost use Rattle.std.specs.Prelude.{◌≡◌, ◌<◌, ◌≤◌, length, IfOk};
ghost use Rattle.c_tree.specs.declared.tree.Tree.{Tree};
ghost use Rattle.c_parser.specs.Tokens as spec;
ghost use Rattle.c_parser.specs.Tokens.{nesting};
ghost use Rattle.c_parser.specs.Unit.{UnitOf, Derives, unit_height};
ghost use Rattle.c_parser.specs.Faults.{IsLine, IsNestingLine, IsNoUnit, Answers, OnSyntax, OnDeep};

use crate::fault::{ParseFault, TokenFault};
use crate::unit::items;
use c_lexer::{Key, Mark, Tok, Token};
use c_tree::Tree;
use nm_base::List;
use std::alloc::Global;

/// Whether a token is one of those that nest.
fn is_nesting(kind: Tok) -> bool
    ensures { result ≡ spec.is_nesting kind }
{
    match kind {
        Tok::Mark(
            Mark::RightParen
            | Mark::RightBracket
            | Mark::RightBrace
            | Mark::Semicolon
            | Mark::Colon,
        ) => false,
        Tok::Mark(_) => true,
        Tok::Keyword(
            Key::If
            | Key::Else
            | Key::While
            | Key::Do
            | Key::For
            | Key::Switch
            | Key::Case
            | Key::Default,
        ) => true,
        _ => false,
    }
}

/// The line of the token from which on so many are left, or else that of the last one.
fn syntax_line(mut tokens: &[Token], left: usize) -> u32
    requires { 0 < length tokens.now }
    ensures { IsLine tokens.entry.now result }
{
    let mut line = 0;
    while let [token, rest @ ..] = tokens {
        line = token.line;
        if tokens.len() <= left {
            return line;
        }
        tokens = rest;
    }
    line
}

/// The line of the last nesting token up to where so many tokens are left, or else of the next one.
fn nesting_line(mut tokens: &[Token], left: usize) -> u32
    requires { 0 < nesting tokens.now }
    ensures { IsNestingLine tokens.entry.now result }
{
    let mut line = None;
    while let [token, rest @ ..] = tokens {
        if is_nesting(token.kind) {
            line = Some(token.line);
        }
        match line {
            Some(line) if tokens.len() <= left => return line,
            _ => tokens = rest,
        }
    }
    line.unwrap_or(0)
}

/// The tree of a unit in which no item is higher than 64.
pub fn parse(alloc: Global, tokens: &[Token]) -> Result<Tree, ParseFault>
    // What is answered derives the tokens, and no item of it is higher than 64.
    ensures found { IfOk result (λ tree. UnitOf tokens.now tree) }
    // What derives the tokens so is answered, unless memory runs out.
    ensures only { (tree : Tree) → UnitOf tokens.now tree → Answers result tree }
    // The syntax is refused only where no tree derives the tokens so, on the line of some token.
    ensures syntax { OnSyntax result (λ line. IsNoUnit tokens.now) }
    ensures syntax_line { OnSyntax result (λ line. IsLine tokens.now line) }
    // The depth is refused only there, and only where at least 64 tokens nest, on the line of one of them.
    ensures deep { OnDeep result (λ line. IsNoUnit tokens.now) }
    ensures deep_nests { OnDeep result (λ line. 64 ≤ nesting tokens.now) }
    ensures deep_line { OnDeep result (λ line. IsNestingLine tokens.now line) }
    // Tokens that derive a higher tree have at least 64 that nest.
    ensures nests { (tree : Tree) → Derives tokens.now tree → 64 < unit_height tree → 64 ≤ nesting tokens.now }
{
    match items(alloc, tokens) {
        Ok((items, _height)) => Ok(Tree {
            items: List::from_vec(items),
        }),
        Err(TokenFault::Syntax { left }) => Err(ParseFault::Syntax {
            line: syntax_line(tokens, left),
        }),
        Err(TokenFault::Deep { left }) => Err(ParseFault::Deep {
            line: nesting_line(tokens, left),
        }),
        Err(TokenFault::Memory) => Err(ParseFault::Memory),
    }
}
