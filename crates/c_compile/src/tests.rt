//! A program is compiled, and its code is compared with a list that was written by hand from the rules.

ghost use Rattle.std.specs.Prelude.{◌≡◌, [], ◌∷◌, IfOk};
ghost use Rattle.c_compile.specs.private.Example as example;

use crate::body::add;
use crate::program::{compile, emit_functions};
use crate::variables::global_variables;
use c_tree::{Function, Global, PExpr, PKind, PStmt, Program, Slot, Start, Target};
use nm_base::{BinaryOp, Bytes, Ctype, List, WantOfMemory};
use sqlite_items::Boxed;
use stack_code::Instr;
use std::alloc::Global as Memory;
use std::test::Fail;

fn int_in(line: u32, kind: PKind) -> PExpr
    ensures { result ≡ example.int_in line kind }
{
    PExpr {
        kind,
        of: Some(Ctype::Int),
        line,
    }
}

fn number_in(line: u32, bits: u32) -> PExpr
    ensures { result ≡ example.number_in line bits }
{
    int_in(line, PKind::Const { bits })
}

fn local_in(line: u32) -> PExpr
    ensures { result ≡ example.local_in line }
{
    int_in(
        line,
        PKind::Name {
            what: Target::Slot(0),
        },
    )
}

fn global_in(line: u32) -> PExpr
    ensures { result ≡ example.global_in line }
{
    int_in(
        line,
        PKind::Name {
            what: Target::Global(0),
        },
    )
}

fn one<T: Drop>(alloc: Memory, item: T) -> Result<List<T>, WantOfMemory>
    ensures { IfOk result (λ l. l ≡ item ∷ []) }
{
    let mut items = Vec::new(alloc);
    add(&mut items, item)?;
    Ok(List::from_vec(items))
}

fn none<T>(alloc: Memory) -> List<T>
    ensures { result ≡ [] }
{
    List::from_vec(Vec::new(alloc))
}

fn boxed<T: Drop>(alloc: Memory, item: T) -> Result<Boxed<T>, WantOfMemory>
    ensures { IfOk result (λ b. b ≡ item) }
{
    let boxed = Boxed::new(alloc, item)?;
    Ok(boxed)
}

fn loop_test(alloc: Memory) -> Result<PExpr, WantOfMemory>
    ensures { IfOk result (λ e. e ≡ example.loop_test) }
{
    let left = boxed(alloc, local_in(5))?;
    let right = boxed(alloc, global_in(5))?;
    Ok(int_in(5, PKind::And { left, right }))
}

fn leave(alloc: Memory) -> Result<PStmt, WantOfMemory>
    ensures { IfOk result (λ s. s ≡ example.leave) }
{
    let left = boxed(alloc, local_in(6))?;
    let right = boxed(alloc, number_in(6, 1))?;
    let yes = boxed(alloc, PStmt::Break { line: 6 })?;
    let op = BinaryOp::Equal;
    Ok(PStmt::If {
        test: int_in(6, PKind::Binary { op, left, right }),
        yes,
        no: None,
        line: 6,
    })
}

fn turn(alloc: Memory) -> Result<PStmt, WantOfMemory>
    ensures { IfOk result (λ s. s ≡ example.turn) }
{
    let part = boxed(alloc, local_in(7))?;
    let value = boxed(
        alloc,
        int_in(
            7,
            PKind::Bump {
                up: false,
                before: false,
                part,
            },
        ),
    )?;
    let place = boxed(alloc, global_in(7))?;
    Ok(PStmt::Run {
        part: int_in(
            7,
            PKind::Assign {
                op: None,
                place,
                value,
            },
        ),
        line: 7,
    })
}

fn loop_body(alloc: Memory) -> Result<PStmt, WantOfMemory>
    ensures { IfOk result (λ s. s ≡ example.loop_body) }
{
    let mut items = Vec::new(alloc);
    add(&mut items, leave(alloc)?)?;
    add(&mut items, turn(alloc)?)?;
    Ok(PStmt::Block {
        locals: none(alloc),
        list: List::from_vec(items),
        line: 5,
    })
}

fn main_loop(alloc: Memory) -> Result<PStmt, WantOfMemory>
    ensures { IfOk result (λ s. s ≡ PStmt.While example.loop_test example.loop_body 5) }
{
    let body = boxed(alloc, loop_body(alloc)?)?;
    let test = loop_test(alloc)?;
    Ok(PStmt::While {
        test,
        body,
        line: 5,
    })
}

fn main_body(alloc: Memory) -> Result<PStmt, WantOfMemory>
    ensures { IfOk result (λ s. s ≡ example.main_body) }
{
    let start = Start {
        slot: 0,
        value: Some(number_in(4, 3)),
        line: 4,
    };
    let locals = one(alloc, start)?;
    let mut items = Vec::new(alloc);
    add(&mut items, main_loop(alloc)?)?;
    let last = PStmt::Return {
        value: Some(global_in(9)),
        line: 9,
    };
    add(&mut items, last)?;
    Ok(PStmt::Block {
        locals,
        list: List::from_vec(items),
        line: 3,
    })
}

fn name(alloc: Memory, bytes: &[u8]) -> Result<Bytes, WantOfMemory>
    ensures { IfOk result (λ b. b ≡ bytes.now) }
{
    let bytes = Vec::from_slice(alloc, bytes)?;
    Ok(Bytes::from_vec(bytes))
}

fn the_main(alloc: Memory) -> Result<Function, WantOfMemory>
    ensures { IfOk result (λ f. f ≡ example.the_main) }
{
    let local = Slot {
        name: name(alloc, b"i")?,
        of: Ctype::Int,
        length: None,
        array_param: false,
        block: 0,
    };
    let locals = one(alloc, local)?;
    let name = name(alloc, b"main")?;
    let body = main_body(alloc)?;
    Ok(Function {
        name,
        result: Some(Ctype::Int),
        params: none(alloc),
        locals,
        body,
        line: 2,
    })
}

fn the_global(alloc: Memory) -> Result<Global, WantOfMemory>
    ensures { IfOk result (λ g. g ≡ example.the_global) }
{
    Ok(Global {
        name: name(alloc, b"g")?,
        of: Ctype::Int,
        length: None,
        start: 0,
    })
}

fn the_program(alloc: Memory) -> Result<Program, WantOfMemory> {
    let global = the_global(alloc)?;
    let globals = one(alloc, global)?;
    let function = the_main(alloc)?;
    let functions = one(alloc, function)?;
    Ok(Program {
        globals,
        functions,
        main: 0,
        texts: none(alloc),
    })
}

/// What the rules give, written by hand.
const INSTRS: [Instr; 49] = [
    Instr::Line(2),
    Instr::Zero { base: 0, len: 1 },
    Instr::Line(4),
    Instr::Push(3),
    Instr::LocalPlace(0),
    Instr::Swap,
    Instr::Store,
    Instr::Drop,
    Instr::Line(5),
    Instr::LocalPlace(0),
    Instr::Load,
    Instr::JumpZero(17),
    Instr::GlobalPlace(0),
    Instr::Load,
    Instr::Push(0),
    Instr::Binary(BinaryOp::Differ, Ctype::Int),
    Instr::Jump(18),
    Instr::Push(0),
    Instr::JumpZero(43),
    Instr::Line(6),
    Instr::LocalPlace(0),
    Instr::Load,
    Instr::Push(1),
    Instr::Binary(BinaryOp::Equal, Ctype::Int),
    Instr::JumpZero(28),
    Instr::Line(6),
    Instr::Jump(43),
    Instr::Jump(28),
    Instr::Line(7),
    Instr::GlobalPlace(0),
    Instr::LocalPlace(0),
    Instr::Dup,
    Instr::Load,
    Instr::Swap,
    Instr::Dup,
    Instr::Load,
    Instr::Push(1),
    Instr::Binary(BinaryOp::Sub, Ctype::Int),
    Instr::Store,
    Instr::Drop,
    Instr::Store,
    Instr::Drop,
    Instr::Jump(8),
    Instr::Line(9),
    Instr::GlobalPlace(0),
    Instr::Load,
    Instr::Return,
    Instr::Push(0),
    Instr::Return,
];

#[test]
fn an_example(rt: HostRuntime) -> Result<(), Fail> {
    let alloc = rt.alloc();
    let p = the_program(alloc)?;
    let variables = global_variables(alloc, p.globals.as_slice())?;
    let functions = emit_functions(alloc, &p, variables.as_slice())?;
    assert_eq!(rt; functions.len(), 1);
    assert_eq!(rt; functions[0].instrs.as_slice(), INSTRS.as_slice());
    assert_eq!(rt; functions[0].blocks.len(), 2);
    let code = compile(alloc, &p)?;
    assert_eq!(rt; code.functions(), 1);
    assert_eq!(rt; code.function_name(0), "main");
    assert_eq!(rt; code.main_line(), 2);
    assert!(rt; code.seek(None, b"g").is_some());
    assert!(rt; code.seek(None, b"i").is_none());
    Ok(())
}
