//! The turns of a recording: each is made, and the receive that it made is noted at once.

ghost use Rattle.std.specs.Prelude.{◌≡◌, ◌+◌, ◌*◌, ◌<◌, ◌≤◌, ℕ, List, [], length, map, Some, IsSome, IsTrue, IfOk, OnOk, OnErr, IsOk, is_err};
ghost use Rattle.nm_base.specs.Scripts.{Script};
ghost use Rattle.nm_base.specs.declared.limits.TheConstants.{MAX_PROCESSES};
ghost use Rattle.nm_outside.specs.Causes.{BelongsTo};
ghost use Rattle.schedules.specs.Bounds.{AreFewTurns};
ghost use Rattle.world.specs.Worlds.{IsWorldOf};
ghost use Rattle.trace_file.specs.Writing.{processes, written};
ghost use Rattle.recorder.specs.Recording.{Form};
ghost use Rattle.recorder.specs.Outcomes.{run_of_first, turns_made, IsStopped};
ghost use Rattle.recorder.specs.private.Stages.{Place, IsNoted, IsBegun, IsAfter, IsCutInNotes};

use crate::receive::take_in;
use mailboxes::{FreeGate, Mail};
use nm_outside::{Cabinet, Failed};
use processes::Proc;
use race_tracer::Tracer;
use schedules::Schedule;
use std::alloc::Global;
use trace_file::TraceWriter;
use world::World;

/// How many notes were written, and after how many turns memory was refused, if it was.
#[derive(Clone, Copy, Debug)]
pub struct Made {
    pub notes: u32,
    pub stopped: Option<u32>,
}

/// Makes the turns of a schedule in a world before its first event, tells the tracer of each receive and writes the
/// note of each whose letter is logged. Where memory is refused it stops before the turn that lacked it. Where a
/// write fails the file is a front of the trace of all turns.
pub fn record_turns<P: Proc, M: Mail, C: Cabinet>(
    alloc: Global,
    world: &mut World<P, M>,
    tracer: &mut Tracer,
    writer: &mut TraceWriter,
    schedule: &Schedule,
    files: &mut C,
) -> Result<Made, Failed>
    requires is_open { IsTrue (C.is_open files.old) }
    requires order { tracer.old.mask ≡ world.old.mask }
    requires n { processes writer.old ≡ length world.old.processes }
    requires few { length world.old.processes ≤ MAX_PROCESSES }
    requires small { written writer.old ≤ 42 }
    requires turns { AreFewTurns (length world.old.processes) schedule.now }
    requires begun { IsBegun P.stands_for world.old tracer.old writer.old (C.files files.old) (C.open_name files.old) }

    ensures made { IfOk result (λ made. (f : Form) (at : Place) (s : ℕ → Script) → world.old.mask ≡ f.mask
        → length world.old.processes ≡ f.n → IsWorldOf P.stands_for world.old s []
        → IsNoted f at tracer.old writer.old (C.files files.old) (C.open_name files.old) 0 []
        → IsAfter P.stands_for world.new s f at tracer.new writer.new (C.files files.new) (C.open_name files.new)
        made.notes (run_of_first s f.mask (turns_made made.stopped schedule.now) schedule.now)) }
    ensures cut { OnErr result ((f : Form) (at : Place) (s : ℕ → Script) → world.old.mask ≡ f.mask
        → length world.old.processes ≡ f.n → IsWorldOf P.stands_for world.old s []
        → IsNoted f at tracer.old writer.old (C.files files.old) (C.open_name files.old) 0 []
        → IsCutInNotes f at (C.files files.new) (run_of_first s f.mask (length schedule.now) schedule.now)) }
    ensures stopped { IfOk result (λ made. IsStopped made.stopped schedule.now) }
    ensures bytes { IfOk result (λ made. written writer.new ≡ written writer.old + 11 * made.notes) }
    ensures failed { BelongsTo (is_err result) (C.write_faults files.old) (C.write_faults files.new) }
    ensures sure { (f : Form) (at : Place) (s : ℕ → Script) (room : ℕ) → world.old.mask ≡ f.mask
        → length world.old.processes ≡ f.n → IsWorldOf P.stands_for world.old s []
        → IsNoted f at tracer.old writer.old (C.files files.old) (C.open_name files.old) 0 []
        → IsSome at.start → C.sure_room files.old ≡ Some room → 6 * length schedule.now + 53 ≤ room → IsOk result }
    ensures still_open { C.is_open files.new ≡ C.is_open files.old }

    // Nothing else changes.
    ensures mask { world.new.mask ≡ world.old.mask }
    ensures size { length world.new.processes ≡ length world.old.processes }
    ensures origins { map P.origin_of world.new.processes ≡ map P.origin_of world.old.processes }
    ensures same_order { tracer.new.mask ≡ tracer.old.mask }
    ensures same_n { processes writer.new ≡ processes writer.old }
    ensures same_room { C.sure_room files.new ≡ C.sure_room files.old }
    ensures same_reads { C.read_faults files.new ≡ C.read_faults files.old }
    ensures same_absents { C.absents files.new ≡ C.absents files.old }
{
    let mut notes = 0;
    for i in 0..schedule.turns() {
        let Ok(what) = world.turn(alloc, schedule.turn(i), &FreeGate) else {
            return Ok(Made {
                notes,
                stopped: Some(i),
            });
        };
        notes += take_in(tracer, writer, &what, files)?;
    }
    Ok(Made {
        notes,
        stopped: None,
    })
}
