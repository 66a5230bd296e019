//! The code of the parts of statements that hold no statement.

ghost use Rattle.std.specs.Prelude.{◌≡◌, OnOk, IfOk, slice_get};
ghost use Rattle.std.specs.List.{list_any};
ghost use Rattle.c_tree.specs.Storage.{words_before, words_of_slot};
ghost use Rattle.c_tree.specs.Stmt.{is_default};
ghost use Rattle.c_compile.specs.ExprCode.{Shape};
ghost use Rattle.c_compile.specs.StmtCode as spec;
ghost use Rattle.c_compile.specs.private.Emitted.{shape_of, code_of_zeros, code_of_starts, code_of_labels, code_of_cases, default_place_of};
ghost use Rattle.c_compile.specs.private.Body.{IsLaidOut, Wrote};

use crate::access::slot_words;
use crate::body::Body;
use crate::ends::{list_end, place_after};
use crate::scope::Scope;
use c_tree::{PArm, PExpr, PLabel, Start};
use nm_base::{BinaryOp, Ctype, WantOfMemory};
use stack_code::Instr;

/// An expression whose value is taken off.
pub fn put_effect(scope: &Scope, body: &mut Body, e: &Option<PExpr>) -> Result<(), WantOfMemory>
    requires { IsLaidOut body.old }
    ensures { OnOk result (Wrote body.old body.new (λ blocks. spec.effect_code (shape_of scope.now) e.now blocks)) }
{
    match e {
        None => Ok(()),
        Some(e) => {
            body.put_value(scope, e)?;
            body.put(Instr::Drop)?;
            Ok(())
        }
    }
}

/// A test that leads to an exit where its value is 0.
pub fn put_test(
    scope: &Scope,
    body: &mut Body,
    e: &Option<PExpr>,
    exit: u32,
) -> Result<(), WantOfMemory>
    requires { IsLaidOut body.old }
    ensures { OnOk result (Wrote body.old body.new (λ blocks. spec.test_code (shape_of scope.now) e.now exit blocks)) }
{
    match e {
        None => Ok(()),
        Some(e) => {
            body.put_value(scope, e)?;
            body.put(Instr::JumpZero(exit))?;
            Ok(())
        }
    }
}

/// The value that a function returns, which is 0 where none is given.
pub fn put_returned(scope: &Scope, body: &mut Body, e: &Option<PExpr>) -> Result<(), WantOfMemory>
    requires { IsLaidOut body.old }
    ensures { OnOk result (Wrote body.old body.new (λ blocks. spec.returned (shape_of scope.now) e.now blocks)) }
{
    match e {
        None => body.put(Instr::Push(0)),
        Some(e) => body.put_value(scope, e),
    }
}

/// Makes the locals of a block 0.
pub fn put_zeros(scope: &Scope, body: &mut Body, locals: &[Start]) -> Result<(), WantOfMemory>
    requires { IsLaidOut body.old }
    ensures { OnOk result (Wrote body.old body.new (code_of_zeros (shape_of scope.now) locals.now)) }
{
    for local in locals {
        put_zero(scope, body, local.slot)?;
    }
    Ok(())
}

fn put_zero(scope: &Scope, body: &mut Body, slot: u32) -> Result<(), WantOfMemory>
    requires { IsLaidOut body.old }
    ensures { OnOk result (Wrote body.old body.new
        (λ blocks. spec.zero_by (shape_of scope.now) (slice_get (shape_of scope.now).slots slot)
        (words_before words_of_slot (shape_of scope.now).slots slot) blocks)) }
{
    match scope.slot(slot) {
        None => Ok(()),
        Some(local) => {
            let base = scope.slot_place(slot);
            let len = slot_words(local);
            body.put(Instr::Zero { base, len })?;
            Ok(())
        }
    }
}

/// The initialisers of the locals of a block.
pub fn put_starts(scope: &Scope, body: &mut Body, locals: &[Start]) -> Result<(), WantOfMemory>
    requires { IsLaidOut body.old }
    ensures { OnOk result (Wrote body.old body.new (code_of_starts (shape_of scope.now) locals.now)) }
{
    for local in locals {
        put_start(scope, body, local)?;
    }
    Ok(())
}

fn put_start(scope: &Scope, body: &mut Body, local: &Start) -> Result<(), WantOfMemory>
    requires { IsLaidOut body.old }
    ensures { OnOk result
        (Wrote body.old body.new
        (λ blocks. spec.start_by (shape_of scope.now) local.now.slot local.now.line local.now.value blocks)) }
{
    match &local.value {
        None => Ok(()),
        Some(e) => {
            let place = scope.slot_place(local.slot);
            body.put(Instr::Line(local.line))?;
            body.put_value(scope, e)?;
            body.put(Instr::LocalPlace(place))?;
            body.put(Instr::Swap)?;
            body.put(Instr::Store)?;
            body.put(Instr::Drop)?;
            Ok(())
        }
    }
}

/// The comparisons of a switch: each arm's labels lead to the arm.
pub fn put_cases(
    scope: &Scope,
    body: &mut Body,
    arms: &[PArm],
    first: u32,
) -> Result<(), WantOfMemory>
    requires { IsLaidOut body.old }
    ensures { OnOk result (Wrote body.old body.new (code_of_cases (shape_of scope.now) arms.now first)) }
{
    let mut start = first;
    for arm in arms {
        put_labels(body, arm.labels.as_slice(), start)?;
        start = list_end(scope, arm.list.as_slice(), start)?;
    }
    Ok(())
}

fn put_labels(body: &mut Body, labels: &[PLabel], target: u32) -> Result<(), WantOfMemory>
    requires { IsLaidOut body.old }
    ensures { (sh : Shape) → OnOk result (Wrote body.old body.new (code_of_labels sh labels.now target)) }
{
    for label in labels {
        put_case(body, label.value, target)?;
    }
    Ok(())
}

/// Compares the value with a case's constant. Where they are equal it is taken off, and the arm follows.
fn put_case(body: &mut Body, value: Option<u32>, target: u32) -> Result<(), WantOfMemory>
    requires { IsLaidOut body.old }
    ensures { (sh : Shape) → OnOk result (Wrote body.old body.new (λ blocks. spec.case_code sh value target blocks)) }
{
    match value {
        None => Ok(()),
        Some(bits) => {
            let place = body.place()?;
            let next = place_after(place, 6)?;
            body.put(Instr::Dup)?;
            body.put(Instr::Push(bits))?;
            body.put(Instr::Binary(BinaryOp::Equal, Ctype::Int))?;
            body.put(Instr::JumpZero(next))?;
            body.put(Instr::Drop)?;
            body.put(Instr::Jump(target))?;
            Ok(())
        }
    }
}

/// The place of the arm with `default`, or after all arms where none has it.
pub fn default_place(scope: &Scope, arms: &[PArm], first: u32) -> Result<u32, WantOfMemory>
    ensures { IfOk result (λ n. n ≡ default_place_of (shape_of scope.now) arms.now first) }
{
    let mut start = first;
    for arm in arms {
        if has_default(arm.labels.as_slice()) {
            return Ok(start);
        }
        start = list_end(scope, arm.list.as_slice(), start)?;
    }
    Ok(start)
}

fn has_default(labels: &[PLabel]) -> bool
    ensures { result ≡ list_any is_default labels.now }
{
    labels.iter().any(|label| label.value.is_none())
}
