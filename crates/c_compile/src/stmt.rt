//! The code of statements. Each target is known before its jump is written.

ghost use Rattle.std.specs.Prelude.{◌≡◌, ◌∷◌, OnOk, IfOk, Some, None, map};
ghost use Rattle.c_compile.specs.Asm.{◌⨾◌};
ghost use Rattle.c_compile.specs.StmtCode as spec;
ghost use Rattle.c_compile.specs.StmtCode.{stmt_code};
ghost use Rattle.c_compile.specs.private.Emitted.{shape_of, code_of_stmt, code_of_list, code_of_arms, code_of_inside, code_of_switch};
ghost use Rattle.c_compile.specs.private.Body.{IsLaidOut, Wrote};

use crate::body::Body;
use crate::ends::{
    arms_end, do_back, effect_end, else_place, first_arm, for_again, for_top, next, stmt_end,
    while_back,
};
use crate::exits::Exits;
use crate::scope::Scope;
use crate::stmt_parts::{
    default_place, put_cases, put_effect, put_returned, put_starts, put_test, put_zeros,
};
use c_tree::{PArm, PExpr, PStmt, Start};
use nm_base::WantOfMemory;
use stack_code::Instr;
use std::alloc::{AllocError, Global};

/// The code of a statement.
#[cycle(stmt)]
#[tactic(auto, using(crate::proofs::Written::codes))]
pub fn emit_stmt(
    scope: &Scope,
    body: &mut Body,
    s: &PStmt,
    exits: Exits,
) -> Result<(), WantOfMemory>
    requires { IsLaidOut body.old }
    ensures { OnOk result (Wrote body.old body.new (code_of_stmt (shape_of scope.now) s.now exits)) }
{
    match s {
        PStmt::Block { locals, list, .. } => {
            emit_block(scope, body, locals.as_slice(), list.as_slice(), exits)
        }
        PStmt::Empty { line } => body.put(Instr::Line(*line)),
        PStmt::Run { part, line } => emit_run(scope, body, part, *line),
        PStmt::If {
            test,
            yes,
            no,
            line,
        } => match no {
            None => emit_if(scope, body, test, yes.get(), *line, exits),
            Some(no) => emit_if_else(scope, body, test, yes.get(), no.get(), *line, exits),
        },
        PStmt::While {
            test,
            body: inner,
            line,
        } => emit_while(scope, body, test, inner.get(), *line),
        PStmt::Do {
            body: inner,
            test,
            line,
        } => emit_do(scope, body, inner.get(), test, *line),
        PStmt::For {
            first,
            test,
            third,
            body: inner,
            line,
        } => emit_for(scope, body, first, test, third, inner.get(), *line),
        PStmt::Break { line } => emit_jump(body, *line, exits.breaks),
        PStmt::Continue { line } => emit_jump(body, *line, exits.continues),
        PStmt::Return { value, line } => emit_return(scope, body, value, *line),
        PStmt::Switch { on, arms, line } => {
            emit_switch(scope, body, on, arms.as_slice(), *line, exits)
        }
    }
}

/// An expression statement.
fn emit_run(scope: &Scope, body: &mut Body, part: &PExpr, line: u32) -> Result<(), WantOfMemory>
    requires { IsLaidOut body.old }
    ensures { OnOk result
        (Wrote body.old body.new
        (λ blocks. spec.put blocks (Instr.Line line)
        ⨾ spec.effect_code (shape_of scope.now) (Some part.now) blocks)) }
{
    body.put(Instr::Line(line))?;
    body.put_value(scope, part)?;
    body.put(Instr::Drop)?;
    Ok(())
}

/// A `break` or a `continue`.
fn emit_jump(body: &mut Body, line: u32, target: u32) -> Result<(), WantOfMemory>
    requires { IsLaidOut body.old }
    ensures { OnOk result
        (Wrote body.old body.new (λ blocks. spec.put blocks (Instr.Line line) ⨾ spec.put blocks (Instr.Jump target))) }
{
    body.put(Instr::Line(line))?;
    body.put(Instr::Jump(target))?;
    Ok(())
}

fn emit_return(
    scope: &Scope,
    body: &mut Body,
    value: &Option<PExpr>,
    line: u32,
) -> Result<(), WantOfMemory>
    requires { IsLaidOut body.old }
    ensures { OnOk result
        (Wrote body.old body.new
        (λ blocks. spec.put blocks (Instr.Line line)
        ⨾ (spec.returned (shape_of scope.now) value.now blocks ⨾ spec.put blocks Instr.Return))) }
{
    body.put(Instr::Line(line))?;
    put_returned(scope, body, value)?;
    body.put(Instr::Return)?;
    Ok(())
}

/// A block, whose locals become 0 before the first initialiser.
#[cycle(stmt)]
fn emit_block(
    scope: &Scope,
    body: &mut Body,
    locals: &[Start],
    list: &[PStmt],
    exits: Exits,
) -> Result<(), WantOfMemory>
    requires { IsLaidOut body.old }
    ensures { OnOk result
        (Wrote body.old body.new
        (λ blocks. code_of_inside (shape_of scope.now) locals.now list.now exits
        (map (λ x. x.slot) locals.now ∷ blocks))) }
{
    let slots = slots_in(scope.alloc, locals)?;
    let outer = body.open(slots)?;
    emit_inside(scope, body, locals, list, exits)?;
    body.close(outer);
    Ok(())
}

/// The locals' slots of a block.
pub fn slots_in(alloc: Global, locals: &[Start]) -> Result<Vec<u32>, AllocError>
    ensures { IfOk result (λ slots. slots.items ≡ map (λ x. x.slot) locals.now) }
{
    let mut slots = Vec::new(alloc);
    for local in locals {
        slots.push(local.slot)?;
    }
    Ok(slots)
}

/// What stands in a block that is open.
#[cycle(stmt)]
pub fn emit_inside(
    scope: &Scope,
    body: &mut Body,
    locals: &[Start],
    list: &[PStmt],
    exits: Exits,
) -> Result<(), WantOfMemory>
    requires { IsLaidOut body.old }
    ensures { OnOk result (Wrote body.old body.new (code_of_inside (shape_of scope.now) locals.now list.now exits)) }
{
    put_zeros(scope, body, locals)?;
    put_starts(scope, body, locals)?;
    emit_list(scope, body, list, exits)?;
    Ok(())
}

/// Statements, one after the other.
#[cycle(stmt)]
fn emit_list(
    scope: &Scope,
    body: &mut Body,
    list: &[PStmt],
    exits: Exits,
) -> Result<(), WantOfMemory>
    requires { IsLaidOut body.old }
    ensures { OnOk result (Wrote body.old body.new (code_of_list (shape_of scope.now) list.now exits)) }
{
    for s in list {
        emit_stmt(scope, body, s, exits)?;
    }
    Ok(())
}

#[cycle(stmt)]
fn emit_if(
    scope: &Scope,
    body: &mut Body,
    test: &PExpr,
    yes: &PStmt,
    line: u32,
    exits: Exits,
) -> Result<(), WantOfMemory>
    requires { IsLaidOut body.old }
    ensures { OnOk result (Wrote body.old body.new
        (λ blocks. spec.put blocks (Instr.Line line)
        ⨾ spec.if_code (shape_of scope.now) test.now (stmt_code (shape_of scope.now) yes.now) None exits blocks)) }
{
    let place = body.place()?;
    let end = else_place(scope, test, yes, place)?;
    body.put(Instr::Line(line))?;
    body.put_value(scope, test)?;
    body.put(Instr::JumpZero(end))?;
    emit_stmt(scope, body, yes, exits)?;
    body.put(Instr::Jump(end))?;
    Ok(())
}

#[cycle(stmt)]
fn emit_if_else(
    scope: &Scope,
    body: &mut Body,
    test: &PExpr,
    yes: &PStmt,
    no: &PStmt,
    line: u32,
    exits: Exits,
) -> Result<(), WantOfMemory>
    requires { IsLaidOut body.old }
    ensures { OnOk result (Wrote body.old body.new
        (λ blocks. spec.put blocks (Instr.Line line)
        ⨾ spec.if_code (shape_of scope.now) test.now (stmt_code (shape_of scope.now) yes.now)
        (Some (stmt_code (shape_of scope.now) no.now)) exits blocks)) }
{
    let place = body.place()?;
    let second = else_place(scope, test, yes, place)?;
    let end = stmt_end(scope, no, second)?;
    body.put(Instr::Line(line))?;
    body.put_value(scope, test)?;
    body.put(Instr::JumpZero(second))?;
    emit_stmt(scope, body, yes, exits)?;
    body.put(Instr::Jump(end))?;
    emit_stmt(scope, body, no, exits)?;
    Ok(())
}

#[cycle(stmt)]
fn emit_while(
    scope: &Scope,
    body: &mut Body,
    test: &PExpr,
    inner: &PStmt,
    line: u32,
) -> Result<(), WantOfMemory>
    requires { IsLaidOut body.old }
    ensures { OnOk result
        (Wrote body.old body.new
        (λ blocks. spec.while_code (shape_of scope.now) test.now
        (stmt_code (shape_of scope.now) inner.now) line blocks)) }
{
    let start = body.place()?;
    let back = while_back(scope, test, inner, start)?;
    let end = next(back)?;
    body.put(Instr::Line(line))?;
    body.put_value(scope, test)?;
    body.put(Instr::JumpZero(end))?;
    let exits = Exits {
        breaks: end,
        continues: back,
    };
    emit_stmt(scope, body, inner, exits)?;
    body.put(Instr::Jump(start))?;
    Ok(())
}

#[cycle(stmt)]
fn emit_do(
    scope: &Scope,
    body: &mut Body,
    inner: &PStmt,
    test: &PExpr,
    line: u32,
) -> Result<(), WantOfMemory>
    requires { IsLaidOut body.old }
    ensures { OnOk result
        (Wrote body.old body.new
        (λ blocks. spec.do_code (shape_of scope.now)
        (stmt_code (shape_of scope.now) inner.now) test.now line blocks)) }
{
    let start = body.place()?;
    let first = next(start)?;
    let again = stmt_end(scope, inner, first)?;
    let back = do_back(scope, test, again)?;
    let end = next(back)?;
    body.put(Instr::Line(line))?;
    let exits = Exits {
        breaks: end,
        continues: again,
    };
    emit_stmt(scope, body, inner, exits)?;
    body.put_value(scope, test)?;
    body.put(Instr::JumpZero(end))?;
    body.put(Instr::Jump(start))?;
    Ok(())
}

/// The Line of each later turn stands before the test, and the first turn jumps over it.
#[cycle(stmt)]
fn emit_for(
    scope: &Scope,
    body: &mut Body,
    first: &Option<PExpr>,
    test: &Option<PExpr>,
    third: &Option<PExpr>,
    inner: &PStmt,
    line: u32,
) -> Result<(), WantOfMemory>
    requires { IsLaidOut body.old }
    ensures { OnOk result
        (Wrote body.old body.new
        (λ blocks. spec.for_code (shape_of scope.now) first.now test.now third.now
        (stmt_code (shape_of scope.now) inner.now) line blocks)) }
{
    let start = body.place()?;
    let top = for_top(scope, first, start)?;
    let again = for_again(scope, test, inner, top)?;
    let back = effect_end(scope, third, again)?;
    let end = next(back)?;
    let turn = next(top)?;
    body.put(Instr::Line(line))?;
    put_effect(scope, body, first)?;
    body.put(Instr::Jump(turn))?;
    body.put(Instr::Line(line))?;
    put_test(scope, body, test, end)?;
    let exits = Exits {
        breaks: end,
        continues: again,
    };
    emit_stmt(scope, body, inner, exits)?;
    put_effect(scope, body, third)?;
    body.put(Instr::Jump(top))?;
    Ok(())
}

/// The value stays below the comparisons until it is taken off before the arms.
#[cycle(stmt)]
fn emit_switch(
    scope: &Scope,
    body: &mut Body,
    on: &PExpr,
    arms: &[PArm],
    line: u32,
    exits: Exits,
) -> Result<(), WantOfMemory>
    requires { IsLaidOut body.old }
    ensures { OnOk result (Wrote body.old body.new (code_of_switch (shape_of scope.now) on.now arms.now line exits)) }
{
    let start = body.place()?;
    let first = first_arm(scope, on, arms, start)?;
    let end = arms_end(scope, arms, first)?;
    let default = default_place(scope, arms, first)?;
    body.put(Instr::Line(line))?;
    body.put_value(scope, on)?;
    put_cases(scope, body, arms, first)?;
    body.put(Instr::Drop)?;
    body.put(Instr::Jump(default))?;
    let exits = Exits {
        breaks: end,
        continues: exits.continues,
    };
    emit_arms(scope, body, arms, exits)?;
    Ok(())
}

/// The arms of a switch, one after the other.
#[cycle(stmt)]
fn emit_arms(
    scope: &Scope,
    body: &mut Body,
    arms: &[PArm],
    exits: Exits,
) -> Result<(), WantOfMemory>
    requires { IsLaidOut body.old }
    ensures { OnOk result (Wrote body.old body.new (code_of_arms (shape_of scope.now) arms.now exits)) }
{
    for arm in arms {
        emit_list(scope, body, arm.list.as_slice(), exits)?;
    }
    Ok(())
}
