//! Statements.

ghost use Rattle.std.specs.Prelude.{◌≡◌, [], ◌∷◌, ◌++◌, map, option_map, IfOk};
ghost use Rattle.c_checker.specs.Found.{CheckGives};
ghost use Rattle.c_checker.specs.Statements as spec;
ghost use Rattle.c_checker.specs.private.InScope.{stmt_in, arm_in};

use crate::body::{begin_block, expression, optional};
use crate::fault::CheckFault;
use crate::headings::Heading;
use crate::labels::{Labels, make_labels};
use crate::state::{Around, Body};
use c_tree::{Arm, Expr, PArm, PExpr, PStmt, Stmt, Vars};
use nm_base::{Ctype, List};
use sqlite_items::Boxed;
use std::alloc::Global;

/// What the statements of a function stand within.
#[derive(Clone, Copy)]
pub struct Within<'a> {
    pub alloc: Global,
    /// The functions that are declared.
    pub functions: &'a [Heading],
    /// The type that the function returns.
    pub returns: Option<Ctype>,
}

fn outside() -> Around
    ensures { result ≡ spec.outside }
{
    Around {
        in_loop: false,
        breaks: false,
    }
}

fn inside_loop() -> Around
    ensures { result ≡ spec.inside_loop }
{
    Around {
        in_loop: true,
        breaks: true,
    }
}

fn inside_switch(around: Around) -> Around
    ensures { result ≡ spec.inside_switch around }
{
    Around {
        in_loop: around.in_loop,
        breaks: true,
    }
}

/// An expression whose value isn't used.
#[tactic(auto, using(crate::proofs::Found::refuses_left))]
fn run(
    alloc: Global,
    functions: &[Heading],
    body: &mut Body,
    part: &Expr,
    line: u32,
) -> Result<PStmt, CheckFault>
    ensures { CheckGives (spec.run functions.now part.now line body.old) result body.new }
{
    let part = expression(alloc, functions, body, part, false)?;
    Ok(PStmt::Run { part, line })
}

fn break_stmt(around: Around, line: u32) -> Result<PStmt, CheckFault>
    ensures { (s : _) → CheckGives (spec.break_stmt [] line around s) result s }
{
    if around.breaks {
        Ok(PStmt::Break { line })
    } else {
        Err(CheckFault::BreakOutside { line })
    }
}

fn continue_stmt(around: Around, line: u32) -> Result<PStmt, CheckFault>
    ensures { (s : _) → CheckGives (spec.continue_stmt [] line around s) result s }
{
    if around.in_loop {
        Ok(PStmt::Continue { line })
    } else {
        Err(CheckFault::ContinueOutside { line })
    }
}

#[tactic(auto, using(crate::proofs::Found::refuses_left))]
fn return_stmt(
    within: &Within<'_>,
    body: &mut Body,
    value: &Option<Expr>,
    line: u32,
) -> Result<PStmt, CheckFault>
    ensures { CheckGives
        (spec.return_stmt within.now.functions.now within.now.returns value.now line body.old) result body.new }
{
    if value.is_some() && within.returns.is_none() {
        return Err(CheckFault::VoidValue { line });
    }
    let value = optional(within.alloc, within.functions, body, value, true)?;
    Ok(PStmt::Return { value, line })
}

/// The expressions of a `for`.
#[tactic(auto, using(crate::proofs::Found::refuses_left))]
fn controls(
    alloc: Global,
    functions: &[Heading],
    body: &mut Body,
    first: &Option<Expr>,
    test: &Option<Expr>,
    third: &Option<Expr>,
) -> Result<(Option<PExpr>, Option<PExpr>, Option<PExpr>), CheckFault>
    ensures { CheckGives (spec.controls functions.now first.now test.now third.now body.old) result body.new }
{
    let first = optional(alloc, functions, body, first, false)?;
    let test = optional(alloc, functions, body, test, true)?;
    let third = optional(alloc, functions, body, third, false)?;
    Ok((first, test, third))
}

/// A block whose names begin at the entry `from`.
#[cycle(stmt)]
#[tactic(auto, using(crate::proofs::Found::refuses_left))]
fn block_from(
    within: &Within<'_>,
    body: &mut Body,
    from: usize,
    vars: &[Vars],
    list: &[Stmt],
    line: u32,
    around: Around,
) -> Result<PStmt, CheckFault>
    ensures { CheckGives (spec.block_from within.now.functions.now from vars.now
        (map (stmt_in within.now) list.now) line around body.old) result body.new }
{
    let visible = body.entries.len();
    let locals = begin_block(within.alloc, within.functions, body, from, vars)?;
    let list = sequence(within, body, list, around)?;
    body.entries.truncate(visible);
    Ok(PStmt::Block { locals, list, line })
}

/// A block in a function's body.
#[cycle(stmt)]
fn block(
    within: &Within<'_>,
    body: &mut Body,
    vars: &[Vars],
    list: &[Stmt],
    line: u32,
    around: Around,
) -> Result<PStmt, CheckFault>
    ensures { CheckGives (spec.block within.now.functions.now vars.now
        (map (stmt_in within.now) list.now) line around body.old) result body.new }
{
    let from = body.entries.len();
    block_from(within, body, from, vars, list, line, around)
}

/// Statements in order.
#[cycle(stmt)]
#[tactic(auto, using(crate::proofs::Found::refuses_left))]
fn sequence(
    within: &Within<'_>,
    body: &mut Body,
    mut list: &[Stmt],
    around: Around,
) -> Result<List<PStmt>, CheckFault>
    ensures { CheckGives (spec.sequence []
        (map (stmt_in within.now) list.entry.now) around body.old) result body.new }
{
    let mut done = List::from_vec(Vec::new(within.alloc));
    while let [first, rest @ ..] = list {
        let made = stmt(within, body, first, around)?;
        done.push(within.alloc, made)?;
        list = rest;
    }
    Ok(done)
}

/// A statement that is a part of another.
#[cycle(stmt)]
#[tactic(auto, using(crate::proofs::Found::refuses_left))]
fn part(
    within: &Within<'_>,
    body: &mut Body,
    inner: &Stmt,
    around: Around,
) -> Result<Boxed<PStmt>, CheckFault>
    ensures { CheckGives ((stmt_in within.now inner.now).check around body.old) result body.new }
{
    let made = stmt(within, body, inner, around)?;
    Ok(Boxed::new(within.alloc, made)?)
}

#[cycle(stmt)]
fn else_part(
    within: &Within<'_>,
    body: &mut Body,
    inner: &Option<Boxed<Stmt>>,
    around: Around,
) -> Result<Option<Boxed<PStmt>>, CheckFault>
    ensures { CheckGives (spec.else_part
        (option_map (stmt_in within.now) inner.now) around body.old) result body.new }
{
    match inner {
        Some(inner) => Ok(Some(part(within, body, inner.get(), around)?)),
        None => Ok(None),
    }
}

#[cycle(stmt)]
#[tactic(auto, using(crate::proofs::Found::refuses_left))]
fn if_stmt(
    within: &Within<'_>,
    body: &mut Body,
    test: &Expr,
    yes: &Stmt,
    no: &Option<Boxed<Stmt>>,
    line: u32,
    around: Around,
) -> Result<PStmt, CheckFault>
    ensures { CheckGives (spec.if_stmt within.now.functions.now test.now (stmt_in within.now yes.now)
        (option_map (stmt_in within.now) no.now) line around body.old) result body.new }
{
    let test = expression(within.alloc, within.functions, body, test, true)?;
    let yes = part(within, body, yes, around)?;
    let no = else_part(within, body, no, around)?;
    Ok(PStmt::If {
        test,
        yes,
        no,
        line,
    })
}

#[cycle(stmt)]
#[tactic(auto, using(crate::proofs::Found::refuses_left))]
fn while_stmt(
    within: &Within<'_>,
    body: &mut Body,
    test: &Expr,
    inner: &Stmt,
    line: u32,
) -> Result<PStmt, CheckFault>
    ensures { CheckGives (spec.while_stmt within.now.functions.now test.now
        (stmt_in within.now inner.now) line body.old) result body.new }
{
    let test = expression(within.alloc, within.functions, body, test, true)?;
    let inner = part(within, body, inner, inside_loop())?;
    Ok(PStmt::While {
        test,
        body: inner,
        line,
    })
}

#[cycle(stmt)]
#[tactic(auto, using(crate::proofs::Found::refuses_left))]
fn do_stmt(
    within: &Within<'_>,
    body: &mut Body,
    inner: &Stmt,
    test: &Expr,
    line: u32,
) -> Result<PStmt, CheckFault>
    ensures { CheckGives (spec.do_stmt within.now.functions.now
        (stmt_in within.now inner.now) test.now line body.old) result body.new }
{
    let inner = part(within, body, inner, inside_loop())?;
    let test = expression(within.alloc, within.functions, body, test, true)?;
    Ok(PStmt::Do {
        body: inner,
        test,
        line,
    })
}

#[cycle(stmt)]
#[tactic(auto, using(crate::proofs::Found::refuses_left))]
fn for_stmt(
    within: &Within<'_>,
    body: &mut Body,
    first: &Option<Expr>,
    test: &Option<Expr>,
    third: &Option<Expr>,
    inner: &Stmt,
    line: u32,
) -> Result<PStmt, CheckFault>
    ensures { CheckGives (spec.for_stmt within.now.functions.now first.now test.now third.now
        (stmt_in within.now inner.now) line body.old) result body.new }
{
    let (first, test, third) = controls(within.alloc, within.functions, body, first, test, third)?;
    let inner = part(within, body, inner, inside_loop())?;
    Ok(PStmt::For {
        first,
        test,
        third,
        body: inner,
        line,
    })
}

/// An arm of a switch, after the labels of the switch before it.
#[cycle(stmt)]
#[tactic(auto, using(crate::proofs::Found::refuses_left, crate::proofs::StmtForms::arm_form))]
fn arm(
    within: &Within<'_>,
    body: &mut Body,
    arm: &Arm,
    before: &mut Labels,
    line: u32,
    around: Around,
) -> Result<PArm, CheckFault>
    ensures found { CheckGives ((arm_in within.now arm.now).check before.old line around body.old) result body.new }
    ensures added { IfOk result (λ y. before.new ≡ before.old ++ y.labels) }
{
    let these = arm.labels.as_slice();
    if these.is_empty() {
        return Err(CheckFault::NotConstant { line });
    }
    let labels = make_labels(within.alloc, before, these)?;
    let list = sequence(within, body, arm.list.as_slice(), around)?;
    Ok(PArm { labels, list })
}

/// The arms of a switch.
#[cycle(stmt)]
#[tactic(auto, using(crate::proofs::Found::refuses_left))]
fn arms(
    within: &Within<'_>,
    body: &mut Body,
    mut arms: &[Arm],
    line: u32,
    around: Around,
) -> Result<List<PArm>, CheckFault>
    ensures { CheckGives (spec.arms (map (arm_in within.now) arms.entry.now) [] [] line around body.old)
        result body.new }
{
    let mut before = Labels::new(within.alloc);
    let mut done = List::from_vec(Vec::new(within.alloc));
    while let [first, rest @ ..] = arms {
        let made = arm(within, body, first, &mut before, line, around)?;
        done.push(within.alloc, made)?;
        arms = rest;
    }
    Ok(done)
}

#[cycle(stmt)]
#[tactic(auto, using(crate::proofs::Found::refuses_left))]
fn switch_stmt(
    within: &Within<'_>,
    body: &mut Body,
    on: &Expr,
    list: &[Arm],
    line: u32,
    around: Around,
) -> Result<PStmt, CheckFault>
    ensures { CheckGives (spec.switch_stmt within.now.functions.now on.now
        (map (arm_in within.now) list.now) line around body.old) result body.new }
{
    let on = expression(within.alloc, within.functions, body, on, true)?;
    let arms = arms(within, body, list, line, inside_switch(around))?;
    Ok(PStmt::Switch { on, arms, line })
}

/// A statement.
#[cycle(stmt)]
#[tactic(auto, using(crate::proofs::StmtForms::stmt_empty))]
pub fn stmt(
    within: &Within<'_>,
    body: &mut Body,
    s: &Stmt,
    around: Around,
) -> Result<PStmt, CheckFault>
    ensures { CheckGives ((stmt_in within.now s.now).check around body.old) result body.new }
{
    match s {
        Stmt::Block { locals, list, line } => {
            block(
                within,
                body,
                locals.as_slice(),
                list.as_slice(),
                *line,
                around,
            )
        }
        Stmt::Empty { line } => Ok(PStmt::Empty { line: *line }),
        Stmt::Run { part, line } => run(within.alloc, within.functions, body, part, *line),
        Stmt::If {
            test,
            yes,
            no,
            line,
        } => if_stmt(within, body, test, yes.get(), no, *line, around),
        Stmt::While {
            test,
            body: inner,
            line,
        } => while_stmt(within, body, test, inner.get(), *line),
        Stmt::Do {
            body: inner,
            test,
            line,
        } => do_stmt(within, body, inner.get(), test, *line),
        Stmt::For {
            first,
            test,
            third,
            body: inner,
            line,
        } => for_stmt(within, body, first, test, third, inner.get(), *line),
        Stmt::Break { line } => break_stmt(around, *line),
        Stmt::Continue { line } => continue_stmt(around, *line),
        Stmt::Return { value, line } => return_stmt(within, body, value, *line),
        Stmt::Switch { on, arms, line } => {
            switch_stmt(within, body, on, arms.as_slice(), *line, around)
        }
    }
}

/// The list of one statement.
#[tactic(auto, using(crate::proofs::Found::refuses_left))]
fn only(within: &Within<'_>, body: &mut Body, s: &Stmt) -> Result<List<PStmt>, CheckFault>
    ensures { CheckGives (spec.sequence [] (record {
      check = (stmt_in within.now s.now).check;
      body = λ _.
          (stmt_in within.now s.now).check spec.outside;
    } ∷
        []) spec.outside body.old) result body.new }
{
    let made = stmt(within, body, s, outside())?;
    let mut list = List::from_vec(Vec::new(within.alloc));
    list.push(within.alloc, made)?;
    Ok(list)
}

/// A block of one statement, as a function's body.
#[tactic(auto, using(crate::proofs::Found::refuses_left))]
fn alone(
    within: &Within<'_>,
    body: &mut Body,
    s: &Stmt,
    from: usize,
    line: u32,
) -> Result<PStmt, CheckFault>
    ensures { CheckGives (spec.alone within.now.functions.now
        (stmt_in within.now s.now).check line from body.old) result body.new }
{
    let visible = body.entries.len();
    let locals = begin_block(within.alloc, within.functions, body, from, &[])?;
    let list = only(within, body, s)?;
    body.entries.truncate(visible);
    Ok(PStmt::Block { locals, list, line })
}

/// A function's body, in whose block the names begin at the entry `from`.
pub fn function_body(
    within: &Within<'_>,
    body: &mut Body,
    s: &Stmt,
    from: usize,
) -> Result<PStmt, CheckFault>
    ensures { CheckGives ((stmt_in within.now s.now).body from body.old) result body.new }
{
    match s {
        Stmt::Block { locals, list, line } => {
            block_from(
                within,
                body,
                from,
                locals.as_slice(),
                list.as_slice(),
                *line,
                outside(),
            )
        }
        Stmt::Empty { line }
        | Stmt::Run { line, .. }
        | Stmt::If { line, .. }
        | Stmt::While { line, .. }
        | Stmt::Do { line, .. }
        | Stmt::For { line, .. }
        | Stmt::Break { line }
        | Stmt::Continue { line }
        | Stmt::Return { line, .. }
        | Stmt::Switch { line, .. } => alone(within, body, s, from, *line),
    }
}
