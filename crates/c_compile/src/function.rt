//! The code of a function.

ghost use Rattle.std.specs.Prelude.{◌≡◌, ◌^◌, ◌<◌, IfOk, OnOk, IsTrue};
ghost use Rattle.c_tree.specs.Checks.{is_name};
ghost use Rattle.stack_code.specs.Blocks.{function_of, is_kept};
ghost use Rattle.c_tree.specs.Expr.{slots_of};
ghost use Rattle.c_tree.specs.Storage.{words_of, words_of_global, words_of_slot};
ghost use Rattle.c_compile.specs.Variables.{globals_from};
ghost use Rattle.c_compile.specs.StmtCode as spec;
ghost use Rattle.c_compile.specs.private.Emitted.{after, shape_of, body_of_stmt, inside_of_stmt};
ghost use Rattle.c_compile.specs.private.Body.{steps_of, blocks_of, IsLaidOut};

use crate::body::{Body, count_of};
use crate::ends::stmt_end;
use crate::exits::Exits;
use crate::scope::Scope;
use crate::stmt::{emit_inside, emit_stmt, slots_in};
use crate::variables::{name_text, slot_variables, words_of_slots};
use c_tree::{Function, PStmt, Program};
use nm_base::WantOfMemory;
use stack_code::{CodeFunction, Instr, Variable};
use std::alloc::Global;

/// The code of a function of a program. It begins with the Line of its name, and gives 0 where it
/// falls off its end, inside its outermost block.
pub fn emit_function(
    alloc: Global,
    program: &Program,
    globals: &[Variable],
    global_words: u32,
    function: &Function,
) -> Result<CodeFunction, WantOfMemory>
    requires name { IsTrue (is_name function.now.name) }
    requires frame { words_of words_of_slot (slots_of function.now) < 2 ^ 32 }
    requires globals { globals.now ≡ globals_from 0 program.now.globals }
    requires words { global_words ≡ words_of words_of_global program.now.globals }
    ensures code { IfOk result
        (λ f. function_of f
        ≡ spec.function_code program.now.globals program.now.functions program.now.texts function.now) }
    ensures kept { IfOk result (λ f. IsTrue (is_kept f)) }
{
    let slots = slot_variables(alloc, function)?;
    let param_words = words_of_slots(function.params.as_slice());
    let local_words = words_of_slots(function.locals.as_slice());
    let frame_words = param_words + local_words;
    let scope = Scope {
        alloc,
        program,
        function,
        globals,
        global_words,
        slots: slots.as_slice(),
        frame_words,
    };
    let body = emit_body(&scope)?;
    let name = name_text(alloc, &function.name)?;
    let param_count = count_of(function.params.as_slice())?;
    let Body {
        instrs,
        inside,
        blocks,
        block: _,
    } = body;
    Ok(CodeFunction {
        name,
        line: function.line,
        param_words,
        frame_words,
        instrs,
        inside,
        blocks,
        param_count,
        slots,
    })
}

fn emit_body(scope: &Scope) -> Result<Body, WantOfMemory>
    ensures fine { IfOk result (λ body. IsLaidOut body) }
    ensures steps { IfOk result
        (λ body. steps_of body ≡ spec.body_code (shape_of scope.now)
        (spec.stmt_code (shape_of scope.now) scope.now.function.now.body) scope.now.function.now.line 0) }
{
    let mut body = Body::new(scope.alloc);
    let function = scope.function;
    let end = stmt_end(scope, &function.body, 1)?;
    let exits = Exits {
        breaks: end,
        continues: end,
    };
    body.put(Instr::Line(function.line))?;
    emit_outermost(scope, &mut body, &function.body, exits)?;
    body.put(Instr::Push(0))?;
    body.put(Instr::Return)?;
    Ok(body)
}

/// The body of a function, whose block stays open.
fn emit_outermost(
    scope: &Scope,
    body: &mut Body,
    s: &PStmt,
    exits: Exits,
) -> Result<(), WantOfMemory>
    requires { IsLaidOut body.old }
    ensures fine { OnOk result (IsLaidOut body.new) }
    ensures steps { OnOk result
        (steps_of body.new ≡ after (steps_of body.old)
        (body_of_stmt (shape_of scope.now) s.now exits (blocks_of body.old))) }
    ensures blocks { OnOk result (blocks_of body.new ≡ inside_of_stmt (shape_of scope.now) s.now (blocks_of body.old)) }
{
    match s {
        PStmt::Block { locals, list, .. } => {
            let slots = slots_in(scope.alloc, locals.as_slice())?;
            let _outer = body.open(slots)?;
            emit_inside(scope, body, locals.as_slice(), list.as_slice(), exits)?;
            Ok(())
        }
        _ => {
            emit_stmt(scope, body, s, exits)?;
            Ok(())
        }
    }
}
