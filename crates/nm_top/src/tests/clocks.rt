//! Clocks and timestamps along runs of programs.

ghost use Rattle.std.specs.Prelude.{IfOk};
ghost use Rattle.schedules.specs.Bounds.{AreFewTurns};

use super::one_process::code_of;
use super::programs::{TO_ITSELF, TWO_LETTERS};
use crate::start::world_after;
use c_process::CProc;
use mailboxes::{FreeGate, OrderedMail};
use nm_base::{Kind, MAX_EVENTS, MAX_SCHEDULE_BYTES, ProcNo, Stamp};
use schedules::{Schedule, Turn, read_schedule};
use std::alloc::Global;
use std::process::Abort;
use std::test::Fail;
use world::{Turned, World};

/// The first three parts of a timestamp.
type Parts = [u32; 3];

/// What a run shows of its letters.
#[derive(Drop)]
struct Facts {
    /// The clocks of its processes at its end.
    clocks: Vec<Parts>,
    /// The timestamps of the letters, in the order of their sends.
    stamps: Vec<Parts>,
}

fn parts(stamp: &Stamp) -> Parts {
    [stamp.parts[0], stamp.parts[1], stamp.parts[2]]
}

/// The schedule of a text for 1 to 32 processes.
fn schedule_of(alloc: Global, text: &str, n: u8) -> Result<Schedule, Fail>
    ensures { IfOk result (AreFewTurns n) }
{
    if n == 0 || n > 32 || text.len() > MAX_SCHEDULE_BYTES as usize {
        return Err("a schedule too long, or for no process")?;
    }
    match read_schedule(alloc, text.as_bytes(), n) {
        Ok(schedule) => Ok(schedule),
        Err(_) => Err("no schedule")?,
    }
}

/// Makes a turn, if there is such a process and there is room for an event.
fn turned(
    alloc: Global,
    world: &mut World<CProc<'_>, OrderedMail>,
    turn: Turn,
) -> Result<Turned, Fail> {
    if turn.proc.no >= world.n() || world.events() >= MAX_EVENTS {
        return Err("no turn")?;
    }
    Ok(world.turn(alloc, turn, &FreeGate)?)
}

/// The clocks of the first three processes.
fn clocks_of(alloc: Global, world: &World<CProc<'_>, OrderedMail>) -> Result<Vec<Parts>, Fail> {
    let mut clocks = Vec::new(alloc);
    for p in 0..world.n().min(3) {
        clocks.push(parts(world.clock(ProcNo { no: p })))?;
    }
    Ok(clocks)
}

/// What is seen of the run of a program as so many processes under a schedule, with no channel ordered.
fn facts_of(alloc: Global, text: &str, n: u8, schedule: &str) -> Result<Facts, Fail> {
    if n == 0 || n > 32 {
        return Err("no processes")?;
    }
    let code = code_of(alloc, text)?;
    let none = schedule_of(alloc, "", n)?;
    let schedule = schedule_of(alloc, schedule, n)?;
    let mut world = world_after(alloc, &code, n, &none, 0)?;
    let mut stamps = Vec::new(alloc);
    for i in 0..schedule.turns() {
        let Turned::Went { event, letter } = turned(alloc, &mut world, schedule.turn(i))? else {
            continue;
        };
        if let (Kind::Sent { .. }, Some(letter)) = (event.kind, letter) {
            stamps.push(parts(&letter.stamp))?;
        }
    }
    let clocks = clocks_of(alloc, &world)?;
    Ok(Facts { clocks, stamps })
}

/// Two processes send a letter each to a third, which receives them: each letter is stamped after
/// its send, and a clock counts the past of its process's last event.
#[test]
fn clocks_count_the_past(rt: HostRuntime) -> Result<(), Fail> {
    let facts = facts_of(rt.alloc(), TWO_LETTERS, 3, "1*6 2*6 0*10")?;
    assert_eq!(&rt;
        facts.clocks.as_slice(),
        [[10, 4, 4], [0, 6, 0], [0, 0, 6]].as_slice()
    );
    assert_eq!(&rt; facts.stamps.as_slice(), [[0, 4, 0], [0, 0, 4]].as_slice());
    Ok(())
}

/// Letters of a process to itself are stamped after their sends, too.
#[test]
fn letters_to_itself_are_stamped(rt: HostRuntime) -> Result<(), Fail> {
    let stamps = facts_of(rt.alloc(), TO_ITSELF, 1, "0*15")?.stamps;
    assert_eq!(&rt;
        stamps.as_slice(),
        [[3, 0, 0], [5, 0, 0], [11, 0, 0]].as_slice()
    );
    Ok(())
}
