//! Statements made of their parts, each in a box of its own.

ghost use Rattle.std.specs.Prelude.{◌≡◌, IfOk};
ghost use Rattle.c_tree.specs.declared.tree.Stmt.TheVariants as made;

use crate::decl::unboxed;
use c_tree::{Arm, Expr, Stmt, Vars};
use nm_base::List;
use sqlite_items::Boxed;
use std::alloc::{AllocError, Global};

/// An `if`, with its `else` where it has one.
pub fn if_node(
    alloc: Global,
    test: Boxed<Expr>,
    yes: Boxed<Stmt>,
    no: Option<Boxed<Stmt>>,
    line: u32,
) -> Result<Boxed<Stmt>, AllocError>
    ensures { IfOk result (λ x. x ≡ made.If test yes no line) }
{
    let test = test.into_inner();
    Boxed::new(
        alloc,
        Stmt::If {
            test,
            yes,
            no,
            line,
        },
    )
}

/// A `while`.
pub fn while_node(
    alloc: Global,
    test: Boxed<Expr>,
    body: Boxed<Stmt>,
    line: u32,
) -> Result<Boxed<Stmt>, AllocError>
    ensures { IfOk result (λ x. x ≡ made.While test body line) }
{
    let test = test.into_inner();
    Boxed::new(alloc, Stmt::While { test, body, line })
}

/// A `do`.
pub fn do_node(
    alloc: Global,
    body: Boxed<Stmt>,
    test: Boxed<Expr>,
    line: u32,
) -> Result<Boxed<Stmt>, AllocError>
    ensures { IfOk result (λ x. x ≡ made.Do body test line) }
{
    let test = test.into_inner();
    Boxed::new(alloc, Stmt::Do { body, test, line })
}

/// The three parts of the head of a `for`.
#[derive(Drop)]
pub struct Heads {
    pub first: Option<Boxed<Expr>>,
    pub test: Option<Boxed<Expr>>,
    pub third: Option<Boxed<Expr>>,
}

/// A `for`, whose head may lack each of its parts.
pub fn for_node(
    alloc: Global,
    heads: Heads,
    body: Boxed<Stmt>,
    line: u32,
) -> Result<Boxed<Stmt>, AllocError>
    ensures { IfOk result (λ x. x ≡ made.For heads.first heads.test heads.third body line) }
{
    let first = unboxed(heads.first);
    let test = unboxed(heads.test);
    let third = unboxed(heads.third);
    Boxed::new(
        alloc,
        Stmt::For {
            first,
            test,
            third,
            body,
            line,
        },
    )
}

/// A `switch`.
pub fn switch_node(
    alloc: Global,
    on: Boxed<Expr>,
    arms: Vec<Arm>,
    line: u32,
) -> Result<Boxed<Stmt>, AllocError>
    ensures { IfOk result (λ x. x ≡ made.Switch on arms.items line) }
{
    let on = on.into_inner();
    let arms = List::from_vec(arms);
    Boxed::new(alloc, Stmt::Switch { on, arms, line })
}

/// A block.
pub fn block_node(
    alloc: Global,
    locals: Vec<Vars>,
    list: Vec<Stmt>,
    line: u32,
) -> Result<Boxed<Stmt>, AllocError>
    ensures { IfOk result (λ x. x ≡ made.Block locals.items list.items line) }
{
    let locals = List::from_vec(locals);
    let list = List::from_vec(list);
    Boxed::new(alloc, Stmt::Block { locals, list, line })
}

/// A `return`, with its value where it has one.
pub fn return_node(
    alloc: Global,
    value: Option<Boxed<Expr>>,
    line: u32,
) -> Result<Boxed<Stmt>, AllocError>
    ensures { IfOk result (λ x. x ≡ made.Return value line) }
{
    let value = unboxed(value);
    Boxed::new(alloc, Stmt::Return { value, line })
}

/// An expression as a statement.
pub fn run_node(alloc: Global, part: Boxed<Expr>, line: u32) -> Result<Boxed<Stmt>, AllocError>
    ensures { IfOk result (λ x. x ≡ made.Run part line) }
{
    let part = part.into_inner();
    Boxed::new(alloc, Stmt::Run { part, line })
}
