//! The end of a recording: the letters that were never received, and the counts.

ghost use Rattle.std.specs.Prelude.{◌≡◌, ◌+◌, ◌*◌, ◌<◌, ◌≤◌, ℕ, List, length, Some, IsSome, ◌↔◌, IsTrue, IfOk, OnOk, OnErr, IsOk, is_err, slice_index, true, false};
ghost use Rattle.nm_base.specs.Scripts.{Script};
ghost use Rattle.nm_base.specs.Message.{message_of};
ghost use Rattle.nm_base.specs.declared.letter.Letter.{Letter};
ghost use Rattle.nm_base.specs.declared.limits.TheConstants.{MAX_TRACE_BYTES, MAX_EVENTS, MAX_PROCESSES};
ghost use Rattle.nm_outside.specs.Causes.{BelongsTo};
ghost use Rattle.event_list.specs.declared.Event.{Event};
ghost use Rattle.event_list.specs.Events.{count};
ghost use Rattle.event_list.specs.Races.{IsLogged};
ghost use Rattle.event_list.specs.Turns.{is_first};
ghost use Rattle.race_tracer.specs.Tracing.{IsTracerOf, IsLeft};
ghost use Rattle.world.specs.Worlds.{IsWorldOf};
ghost use Rattle.trace_file.specs.Writing.{processes, written};
ghost use Rattle.recorder.specs.Recording.{Form, IsRecorded, IsFrontOf};
ghost use Rattle.recorder.specs.private.Seen.{has_place};
ghost use Rattle.recorder.specs.private.Stages.{Place, IsNoted, IsWritten, IsCutInLost};

use crate::seen::{SeenChannels, has_place};
use mailboxes::Mail;
use nm_base::{Letter, ProcNo};
use nm_outside::{Cabinet, Failed};
use processes::Proc;
use race_tracer::Tracer;
use trace_file::TraceWriter;
use world::World;

/// How many lost letters were written, and how many bytes the file has.
#[derive(Clone, Copy, Debug)]
pub struct Ending {
    pub lost: u32,
    pub bytes: u32,
}

/// Whether a letter that waits at the end of the run is logged. `first` says that no earlier letter of its
/// sender, to the same process on the same channel, waits; a letter to no process is never logged.
fn is_lost(tracer: &Tracer, letter: &Letter, first: bool) -> bool
    ensures { (E : List Event) → IsTracerOf tracer.now E → IsLeft tracer.now.mask E letter.now
        → (has_place letter.now ≡ true → first ≡ is_first E (message_of letter.now))
        → IsTrue result ↔ IsLogged tracer.now.mask E (message_of letter.now) }
{
    if !has_place(letter) {
        return false;
    }
    tracer.unreceived(letter, first)
}

/// Goes through the letters that wait, and writes those that are logged. Gives their number.
fn write_lost<P: Proc, M: Mail, C: Cabinet>(
    world: &World<P, M>,
    tracer: &Tracer,
    writer: &mut TraceWriter,
    files: &mut C,
) -> Result<u32, Failed>
    requires is_open { IsTrue (C.is_open files.old) }
    requires order { tracer.now.mask ≡ world.now.mask }
    requires n { processes writer.old ≡ length world.now.processes }
    requires few { length world.now.processes ≤ MAX_PROCESSES }
    requires small { written writer.old + 6 * length world.now.letters ≤ MAX_TRACE_BYTES }
    requires stands { (s : ℕ → Script) × (E : List Event) × IsWorldOf P.stands_for world.now s E }

    ensures written { IfOk result (λ lost. (f : Form) (at : Place) (notes : ℕ) (s : ℕ → Script) (E : List Event)
        → world.now.mask ≡ f.mask → IsWorldOf P.stands_for world.now s E
        → IsNoted f at tracer.now writer.old (C.files files.old) (C.open_name files.old) notes E
        → IsWritten f at writer.new (C.files files.new) (C.open_name files.new) notes lost E) }
    ensures cut { OnErr result ((f : Form) (at : Place) (notes : ℕ) (s : ℕ → Script) (E : List Event)
        → world.now.mask ≡ f.mask → IsWorldOf P.stands_for world.now s E
        → IsNoted f at tracer.now writer.old (C.files files.old) (C.open_name files.old) notes E
        → IsCutInLost f at (C.files files.new) E) }
    ensures few { IfOk result (λ lost. lost ≤ length world.now.letters) }
    ensures size { IfOk result (λ lost. written writer.new ≡ written writer.old + 6 * lost) }
    ensures failed { BelongsTo (is_err result) (C.write_faults files.old) (C.write_faults files.new) }
    ensures sure { (f : Form) (at : Place) (notes room : ℕ) (s : ℕ → Script) (E : List Event)
        → world.now.mask ≡ f.mask → IsWorldOf P.stands_for world.now s E
        → IsNoted f at tracer.now writer.old (C.files files.old) (C.open_name files.old) notes E
        → written writer.old ≤ 42 + 11 * notes
        → IsSome at.start → C.sure_room files.old ≡ Some room → 6 * length E + 42 ≤ room → IsOk result }
    ensures still_open { C.is_open files.new ≡ C.is_open files.old }

    // Nothing else changes.
    ensures same_n { processes writer.new ≡ processes writer.old }
    ensures same_room { C.sure_room files.new ≡ C.sure_room files.old }
    ensures same_reads { C.read_faults files.new ≡ C.read_faults files.old }
    ensures same_absents { C.absents files.new ≡ C.absents files.old }
{
    let mail = world.mail();
    let mut seen = SeenChannels::new();
    let mut lost = 0;
    let mut from = 0;
    while let Some(letter) = mail.next_from(from) {
        let first = seen.see(letter);
        if is_lost(tracer, letter, first) {
            writer.lost(files, letter.id)?;
            lost += 1;
        }
        from = letter.posted + 1;
    }
    Ok(lost)
}

/// The number of events of each process, and 0 for those that there aren't.
fn counts_of<P: Proc, M: Mail>(world: &World<P, M>) -> [u32; 32]
    requires { length world.now.processes ≤ MAX_PROCESSES }
    ensures counts { (s : ℕ → Script) (E : List Event) → IsWorldOf P.stands_for world.now s E
        → (p : ℕ) → p < length world.now.processes → slice_index result p ≡ count E p }
    ensures rest { (p : ℕ) → length world.now.processes ≤ p → slice_index result p ≡ 0 }
    ensures size { length result ≡ 32 }
{
    let mut counts = [0; 32];
    for p in 0..world.n() {
        counts[p as usize] = world.count(ProcNo { no: p });
    }
    counts
}

/// Writes what comes behind the notes: the letters that were lost, and the counts; and closes the file.
pub fn write_end<P: Proc, M: Mail, C: Cabinet>(
    world: &World<P, M>,
    tracer: &Tracer,
    mut writer: TraceWriter,
    files: &mut C,
) -> Result<Ending, Failed>
    requires is_open { IsTrue (C.is_open files.old) }
    requires order { tracer.now.mask ≡ world.now.mask }
    requires n { processes writer ≡ length world.now.processes }
    requires few { length world.now.processes ≤ MAX_PROCESSES }
    requires events { world.now.events ≤ MAX_EVENTS }
    requires small { written writer + 6 * length world.now.letters ≤ MAX_TRACE_BYTES }
    requires stands { (s : ℕ → Script) × (E : List Event) × IsWorldOf P.stands_for world.now s E }

    ensures recorded { IfOk result (λ end. (f : Form) (at : Place) (notes : ℕ) (s : ℕ → Script) (E : List Event)
        → world.now.mask ≡ f.mask → length world.now.processes ≡ f.n → IsWorldOf P.stands_for world.now s E
        → IsNoted f at tracer.now writer (C.files files.old) (C.open_name files.old) notes E
        → IsRecorded f E at.name at.start (C.files files.new) notes end.lost end.bytes) }
    ensures cut { OnErr result ((f : Form) (at : Place) (notes : ℕ) (s : ℕ → Script) (E : List Event)
        → world.now.mask ≡ f.mask → length world.now.processes ≡ f.n → IsWorldOf P.stands_for world.now s E
        → IsNoted f at tracer.now writer (C.files files.old) (C.open_name files.old) notes E
        → IsFrontOf f E at.name at.start (C.files files.new)) }
    ensures failed { BelongsTo (is_err result) (C.write_faults files.old) (C.write_faults files.new) }
    ensures sure { (f : Form) (at : Place) (notes room : ℕ) (s : ℕ → Script) (E : List Event)
        → world.now.mask ≡ f.mask → length world.now.processes ≡ f.n → IsWorldOf P.stands_for world.now s E
        → IsNoted f at tracer.now writer (C.files files.old) (C.open_name files.old) notes E
        → written writer ≤ 42 + 11 * notes
        → IsSome at.start → C.sure_room files.old ≡ Some room → 6 * length E + 203 ≤ room → IsOk result }
    ensures closed { OnOk result (C.is_open files.new ≡ false) }

    // Nothing else changes.
    ensures same_room { C.sure_room files.new ≡ C.sure_room files.old }
    ensures same_reads { C.read_faults files.new ≡ C.read_faults files.old }
    ensures same_absents { C.absents files.new ≡ C.absents files.old }
{
    let lost = write_lost(world, tracer, &mut writer, files)?;
    let counts = counts_of(world);
    let bytes = writer.close(files, &counts[..world.n() as usize])?;
    Ok(Ending { lost, bytes })
}
