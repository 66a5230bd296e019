//! A recording, from the first turn to the closed file.

ghost use Rattle.std.specs.Prelude.{◌≡◌, ◌+◌, ◌*◌, ◌<◌, ◌≤◌, ◌⊎◌, ℕ, List, [], length, map, slice_get, Some, IsSome, IfOk, OnOk, IsErrOf, false};
ghost use Rattle.nm_base.specs.Scripts.{Script};
ghost use Rattle.nm_base.specs.declared.limits.TheConstants.{MAX_PROCESSES};
ghost use Rattle.processes.specs.Seats.{process_in};
ghost use Rattle.nm_outside.specs.Causes.{BelongsTo};
ghost use Rattle.schedules.specs.Bounds.{AreFewTurns};
ghost use Rattle.world.specs.Worlds.{IsWorldOf, AreNumbered};
ghost use Rattle.world.specs.Outcomes.{Begins};
ghost use Rattle.trace_file.specs.Rules.{IsVersion};
ghost use Rattle.recorder.specs.Recording.{Form, IsRecorded};
ghost use Rattle.recorder.specs.Outcomes.{is_write, run_of_first, turns_made, IsStopped, IsCutOff};

use crate::ending::write_end;
use crate::fault::RecordFault;
use crate::turns::record_turns;
use mailboxes::Mail;
use nm_outside::{BeginFault, Cabinet};
use processes::{Proc, Seat};
use race_tracer::Tracer;
use schedules::Schedule;
use std::alloc::Global;
use trace_file::TraceWriter;
use world::World;

/// What a recording leaves: the world after its last turn, and the numbers of notes, of lost letters and of bytes of
/// its trace. `stopped` is the number of turns that were made, where memory was refused in the next one; the trace is
/// then that of these turns.
#[derive(Drop)]
pub struct Recorded<P: Proc, M: Mail> {
    pub world: World<P, M>,
    pub notes: u32,
    pub lost: u32,
    pub bytes: u32,
    pub stopped: Option<u32>,
}

/// Makes the turns of a schedule and writes the trace of the run to the named file as it goes: a note at each receive
/// of a logged letter, and at the end the letters that were lost and the counts. It keeps no list of events, letters
/// or receives. The seats are those of a world before its first event, the channels of the mask are ordered, and the
/// digest is that of the program file; version 1 has mask 0.
///
/// Where memory is refused in a turn, the trace is that of the turns before it, and is closed. `Memory` comes before
/// the file is begun, and leaves all files. `Write` comes where a write failed: no file was begun, or the file is a
/// front of the trace of the first turns. Closing takes no memory.
pub fn record_run<P: Proc, M: Mail, C: Cabinet>(
    alloc: Global,
    seats: Vec<Seat<P>>,
    version: u8,
    mask: u32,
    schedule: &Schedule,
    digest: &[u8; 32],
    name: &str,
    files: &mut C,
) -> Result<Recorded<P, M>, RecordFault>
    requires some { 0 < length seats.items }
    requires few { length seats.items ≤ MAX_PROCESSES }
    requires names { AreNumbered P.name_of (map process_in seats.items) }
    requires begins { (p : ℕ) (x : P) → slice_get (map process_in seats.items) p ≡ Some x
        → (s : Script) × P.stands_for x s [] 0 }
    requires version { IsVersion version mask }
    requires turns { AreFewTurns (length seats.items) schedule.now }

    // The world stands for the run of the turns that were made, and the file is the spelling of its trace.
    ensures world { IfOk result (λ r. (s : ℕ → Script) → Begins P.stands_for (map process_in seats.items) s
        → IsWorldOf P.stands_for r.world s
        (run_of_first s mask (turns_made r.stopped schedule.now) schedule.now)) }
    ensures recorded { IfOk result (λ r. (s : ℕ → Script) → Begins P.stands_for (map process_in seats.items) s
        → IsRecorded
        (record { version = version; mask = mask; n = length seats.items; digest = digest.now })
        (run_of_first s mask (turns_made r.stopped schedule.now) schedule.now) name.now
        (C.files files.old) (C.files files.new) r.notes r.lost r.bytes) }
    ensures stopped { IfOk result (λ r. IsStopped r.stopped schedule.now) }
    ensures size { IfOk result (λ r. length r.world.processes ≡ length seats.items) }
    ensures mask { IfOk result (λ r. r.world.mask ≡ mask) }
    ensures origins { IfOk result (λ r. map P.origin_of r.world.processes
        ≡ map P.origin_of (map process_in seats.items)) }
    ensures closed { OnOk result (C.is_open files.new ≡ false) }

    // After a failed write the file is a front of the trace of the first turns, unless none was begun.
    ensures cut { IsErrOf result RecordFault.Write → (C.files files.new ≡ C.files files.old)
        ⊎ ((s : ℕ → Script) → Begins P.stands_for (map process_in seats.items) s → IsCutOff s
        (record { version = version; mask = mask; n = length seats.items; digest = digest.now })
        schedule.now name.now (C.files files.old) (C.files files.new)) }
    ensures memory { IsErrOf result RecordFault.Memory → C.files files.new ≡ C.files files.old }
    ensures failed { BelongsTo (is_write result) (C.write_faults files.old) (C.write_faults files.new) }
    ensures sure { (room : ℕ) → IsSome (C.files files.old) → C.sure_room files.old ≡ Some room
        → 6 * length schedule.now + 256 ≤ room → is_write result ≡ false }

    // Nothing else changes.
    ensures same_room { C.sure_room files.new ≡ C.sure_room files.old }
    ensures same_reads { C.read_faults files.new ≡ C.read_faults files.old }
    ensures same_absents { C.absents files.new ≡ C.absents files.old }
{
    let n = seats.len() as u8;
    let Ok(mut world) = World::new(alloc, seats, mask) else {
        return Err(RecordFault::Memory);
    };
    let Ok(mut tracer) = Tracer::new(alloc, n, mask) else {
        return Err(RecordFault::Memory);
    };
    let mut writer = match TraceWriter::begin(alloc, files, name, version, mask, n, digest) {
        Ok(writer) => writer,
        Err(BeginFault::Memory) => return Err(RecordFault::Memory),
        Err(BeginFault::Failed) => return Err(RecordFault::Write),
    };
    let Ok(made) = record_turns(alloc, &mut world, &mut tracer, &mut writer, schedule, files) else {
        return Err(RecordFault::Write);
    };
    let Ok(end) = write_end(&world, &tracer, writer, files) else {
        return Err(RecordFault::Write);
    };
    Ok(Recorded {
        world,
        notes: made.notes,
        lost: end.lost,
        bytes: end.bytes,
        stopped: made.stopped,
    })
}
