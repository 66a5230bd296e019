//! Programs from texts.

ghost use Rattle.std.specs.Prelude.{◌≡◌, ◌≤◌, ℕ, List, length, IfOk, IfErr};
ghost use Rattle.nm_top.specs.Programs.{HasTree, Reads, caused, lexer_cause, parser_cause, checker_cause};
ghost use Rattle.nm_top.specs.private.Unread.{cause_of, IsUnread};

use c_checker::{CheckFault, check};
use c_lexer::{LexFault, lex};
use c_parser::{ParseFault, parse};
use c_tree::{Program, Tree};
use nm_base::MAX_PROGRAM_BYTES;
use std::alloc::Global;

/// Why no program was read: a broken rule, by its name, and the line where it is broken; or want of memory.
#[derive(Clone, Copy, Debug)]
pub enum Unread {
    Refused { kind: &'static str, line: u32 },
    Memory,
}

fn refused(kind: &'static str, line: u32) -> Unread
    ensures { cause_of result ≡ caused kind.now line }
{
    Unread::Refused { kind, line }
}

fn broken_lexeme(fault: LexFault) -> Unread
    ensures { cause_of result ≡ lexer_cause fault }
{
    match fault {
        LexFault::BadByte { line } => refused("BadByte", line),
        LexFault::OpenComment { line } => refused("OpenComment", line),
        LexFault::OpenText { line } => refused("OpenText", line),
        LexFault::BadConstant { line } => refused("BadConstant", line),
        LexFault::BadEscape { line } => refused("BadEscape", line),
        LexFault::LongName { line } => refused("LongName", line),
        LexFault::LongText { line } => refused("LongText", line),
        LexFault::Memory => Unread::Memory,
    }
}

fn broken_grammar(fault: ParseFault) -> Unread
    ensures { cause_of result ≡ parser_cause fault }
{
    match fault {
        ParseFault::Syntax { line } => refused("Syntax", line),
        ParseFault::Deep { line } => refused("Deep", line),
        ParseFault::Memory => Unread::Memory,
    }
}

fn broken_rule(fault: CheckFault) -> Unread
    ensures { cause_of result ≡ checker_cause fault }
{
    match fault {
        CheckFault::Undeclared { line } => refused("Undeclared", line),
        CheckFault::Twice { line } => refused("Twice", line),
        CheckFault::Mismatch { line } => refused("Mismatch", line),
        CheckFault::NotFunction { line } => refused("NotFunction", line),
        CheckFault::Arity { line } => refused("Arity", line),
        CheckFault::NotArray { line } => refused("NotArray", line),
        CheckFault::NotScalar { line } => refused("NotScalar", line),
        CheckFault::VoidValue { line } => refused("VoidValue", line),
        CheckFault::NotAssignable { line } => refused("NotAssignable", line),
        CheckFault::Format { line } => refused("Format", line),
        CheckFault::NotConstant { line } => refused("NotConstant", line),
        CheckFault::BadSize { line } => refused("BadSize", line),
        CheckFault::NoBody { line } => refused("NoBody", line),
        CheckFault::NoMain { line } => refused("NoMain", line),
        CheckFault::BreakOutside { line } => refused("BreakOutside", line),
        CheckFault::ContinueOutside { line } => refused("ContinueOutside", line),
        CheckFault::DoubleCase { line } => refused("DoubleCase", line),
        CheckFault::DoubleDefault { line } => refused("DoubleDefault", line),
        CheckFault::TooMany { line } => refused("TooMany", line),
        CheckFault::Memory => Unread::Memory,
    }
}

// The tree of a text.
fn tree_of(alloc: Global, text: &[u8]) -> Result<Tree, Unread>
    requires { length text.now ≤ MAX_PROGRAM_BYTES }
    ensures tree { IfOk result (HasTree text.now) }
    ensures refused { IfErr result (IsUnread text.now) }
{
    let tokens = match lex(alloc, text) {
        Ok(tokens) => tokens,
        Err(fault) => return Err(broken_lexeme(fault)),
    };
    match parse(alloc, &tokens) {
        Ok(tree) => Ok(tree),
        Err(fault) => Err(broken_grammar(fault)),
    }
}

/// The program of a text of at most 262,144 bytes. A text that is refused has none.
pub fn program_of(alloc: Global, text: &[u8]) -> Result<Program, Unread>
    requires { length text.now ≤ MAX_PROGRAM_BYTES }
    ensures program { IfOk result (Reads text.now) }
    ensures refused { IfErr result (IsUnread text.now) }
{
    let tree = match tree_of(alloc, text) {
        Ok(tree) => tree,
        Err(fault) => return Err(fault),
    };
    match check(alloc, &tree) {
        Ok(program) => Ok(program),
        Err(fault) => Err(broken_rule(fault)),
    }
}
