//! One process of a program, stepped without a world.

ghost use Rattle.std.specs.Prelude.{IfOk};
ghost use Rattle.c_tree.specs.declared.program.Program.{Program};
ghost use Rattle.stack_code.specs.View.{seen_code};
ghost use Rattle.c_process.specs.Standing.{IsCodeOf};

use crate::program::program_of;
use crate::start::compiled;
use c_process::CProc;
use nm_base::{Kind, MAX_EVENTS, MAX_PROGRAM_BYTES, ProcNo, WantOfMemory};
use processes::{Look, Proc, Seat, Stepped};
use stack_code::Code;
use std::alloc::Global;
use std::process::Abort;
use std::test::Fail;

/// What is seen of a process: its look, the number of its events, its line and how many bytes it printed.
type Shown = (Look, u32, u32, usize);

pub(super) const FOR_EVER: &str = "int main(void) { for (;;) {} }";

/// The code of a program text.
pub(super) fn code_of(alloc: Global, text: &str) -> Result<Code, Fail>
    ensures { IfOk result (λ code. (p : Program) × IsCodeOf p (seen_code code)) }
{
    let text = text.as_bytes();
    if text.len() > MAX_PROGRAM_BYTES as usize {
        return Err("too long")?;
    }
    let Ok(program) = program_of(alloc, text) else {
        return Err("no program")?;
    };
    let code = compiled(alloc, &program)?;
    Ok(code)
}

/// The only process of a program, before its first event.
pub(super) fn begun<'c>(alloc: Global, code: &'c Code) -> Result<Seat<CProc<'c>>, WantOfMemory> {
    Ok(Seat::begin(CProc::new(alloc, code, ProcNo { no: 0 }, 1)?))
}

/// Makes the next event where the process is able, and tells its kind.
fn next<'c>(
    alloc: Global,
    seat: Seat<CProc<'c>>,
) -> Result<(Seat<CProc<'c>>, Option<Kind>), WantOfMemory> {
    if seat.process().count() >= MAX_EVENTS {
        return Ok((seat, None));
    }
    match seat {
        Seat::Able(able) => match able.step(alloc) {
            Stepped::Moved { seat, kind, .. } => Ok((seat, Some(kind))),
            Stepped::NoMemory(able) => {
                drop(able);
                Err(WantOfMemory)
            }
        },
        Seat::Waiting(waiting) => Ok((Seat::Waiting(waiting), None)),
        Seat::Over(over) => Ok((Seat::Over(over), None)),
    }
}

pub(super) fn stepped<'c>(
    alloc: Global,
    mut seat: Seat<CProc<'c>>,
    turns: u32,
) -> Result<Seat<CProc<'c>>, WantOfMemory> {
    for _ in 0..turns {
        let (moved, _) = next(alloc, seat)?;
        seat = moved;
    }
    Ok(seat)
}

fn shown_by(seat: &Seat<CProc<'_>>) -> Shown {
    let process = seat.process();
    (
        process.look(),
        process.count(),
        process.line(),
        process.output().len(),
    )
}

/// What is seen of the program's only process after so many steps.
fn after(alloc: Global, text: &str, turns: u32) -> Result<Shown, Fail> {
    let code = code_of(alloc, text)?;
    let seat = begun(alloc, &code)?;
    let seat = stepped(alloc, seat, turns)?;
    Ok(shown_by(&seat))
}

/// A process that has ended keeps the line of its last event.
#[test]
fn an_ended_process_keeps_its_line(rt: HostRuntime) -> Result<(), Fail> {
    let text = "int main(void)\n{\nint x;\nx = 31;\nreturn 1 << x;\n}\n";
    let ended = Look::Ended { value: -2147483648 };
    assert_eq!(&rt; after(rt.alloc(), text, 9)?, (ended, 4, 5, 0));
    Ok(())
}

/// A copy that was made after three events makes the same events as the original.
#[test]
fn copy_goes_on_alike(rt: HostRuntime) -> Result<(), Fail> {
    let alloc = rt.alloc();
    let code = code_of(alloc, FOR_EVER)?;
    let seat = begun(alloc, &code)?;
    let mut seat = stepped(alloc, seat, 3)?;
    let mut copy = Seat::begin(seat.process().copy(alloc)?);
    assert_eq!(&rt; shown_by(&copy), shown_by(&seat));
    for _ in 0..997 {
        let (moved, kind) = next(alloc, seat)?;
        let (copied, same) = next(alloc, copy)?;
        assert_eq!(&rt; kind, Some(Kind::Line { line: 1 }));
        assert_eq!(&rt; same, kind);
        seat = moved;
        copy = copied;
    }
    assert_eq!(&rt; shown_by(&copy), (Look::Able, 1000, 1, 0));
    Ok(())
}
