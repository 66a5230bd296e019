//! The receives of a run: each is told to the tracer, and its note is written.

ghost use Rattle.std.specs.Prelude.{◌≡◌, ◌+◌, ◌*◌, ◌<◌, ◌≤◌, ℕ, List, length, Some, IsTrue, IfOk, OnOk, OnErr, IsOk, is_err};
ghost use Rattle.nm_base.specs.declared.limits.TheConstants.{MAX_TRACE_BYTES};
ghost use Rattle.nm_outside.specs.Causes.{BelongsTo};
ghost use Rattle.nm_outside.specs.Files.{file_in};
ghost use Rattle.event_list.specs.declared.Event.{Event};
ghost use Rattle.event_list.specs.Turns.{after};
ghost use Rattle.race_tracer.specs.Tracing.{IsTracerOf, IsNext, received};
ghost use Rattle.world.specs.Outcomes.{outcome};
ghost use Rattle.trace_file.specs.Writing.{processes, written};
ghost use Rattle.recorder.specs.Recording.{Form};
ghost use Rattle.recorder.specs.private.Receiving.{IsReceiveBy, IsReceiveIn, IsMade};
ghost use Rattle.recorder.specs.private.Stages.{Place, IsNoted, IsCutInNotes};

use event_list::Event;
use nm_base::{Kind, Letter, ProcNo};
use nm_outside::{Cabinet, Failed};
use race_tracer::Tracer;
use trace_file::TraceWriter;
use world::Turned;

/// A receive: its process, its number among the events of that, its set, and the letter that it accepted.
#[derive(Clone, Copy, Debug)]
pub struct Receive {
    pub proc: ProcNo,
    pub number: u32,
    pub set: u32,
    pub letter: Letter,
}

/// The receive that an event with this letter is, if it is one.
fn received_by(event: &Event, letter: &Option<Letter>) -> Option<Receive>
    ensures { IsReceiveBy event.now letter.now result }
{
    let letter = (*letter)?;
    let Kind::Accepted { set, .. } = event.kind else {
        return None;
    };
    Some(Receive {
        proc: event.proc,
        number: event.number,
        set,
        letter,
    })
}

/// The receive that a turn made, if it made one.
fn receive_in(what: &Turned) -> Option<Receive>
    ensures { IsReceiveIn what.now result }
{
    match what {
        Turned::Idle(_) => None,
        Turned::Went { event, letter } => received_by(event, letter),
    }
}

/// Tells the tracer of a receive, and writes its note where its letter is logged. Gives the number of notes.
fn note_receive<C: Cabinet>(
    tracer: &mut Tracer,
    writer: &mut TraceWriter,
    receive: &Receive,
    files: &mut C,
) -> Result<u32, Failed>
    requires is_open { IsTrue (C.is_open files.old) }
    requires small { written writer.old ≤ MAX_TRACE_BYTES }
    requires told { (E : List Event) × IsTracerOf tracer.old E }
    requires receiver { receive.now.proc.no < processes writer.old }
    requires sender { receive.now.letter.id.sender.no < processes writer.old }

    ensures noted { IfOk result (λ many. (f : Form) (at : Place) (notes : ℕ) (E : List Event)
        → tracer.old.mask ≡ f.mask
        → IsNoted f at tracer.old writer.old (C.files files.old) (C.open_name files.old) notes E
        → IsNext f.mask E receive.now.proc receive.now.number receive.now.set receive.now.letter
        → IsNoted f at tracer.new writer.new (C.files files.new) (C.open_name files.new) (notes + many)
        (received E receive.now.proc receive.now.number receive.now.set receive.now.letter)) }
    ensures cut { OnErr result ((f : Form) (at : Place) (notes : ℕ) (E : List Event)
        → tracer.old.mask ≡ f.mask
        → IsNoted f at tracer.old writer.old (C.files files.old) (C.open_name files.old) notes E
        → IsNext f.mask E receive.now.proc receive.now.number receive.now.set receive.now.letter
        → IsCutInNotes f at (C.files files.new)
        (received E receive.now.proc receive.now.number receive.now.set receive.now.letter)) }
    ensures one { IfOk result (λ many. many ≤ 1) }
    ensures size { IfOk result (λ many. written writer.new ≡ written writer.old + 11 * many) }
    ensures failed { BelongsTo (is_err result) (C.write_faults files.old) (C.write_faults files.new) }
    ensures sure { (bytes : List ℕ) (room : ℕ) → C.sure_room files.old ≡ Some room
        → file_in (C.files files.old) (C.open_name files.old) ≡ Some bytes → length bytes + 11 ≤ room → IsOk result }
    ensures still_open { C.is_open files.new ≡ C.is_open files.old }

    // Nothing else changes.
    ensures order { tracer.new.mask ≡ tracer.old.mask }
    ensures n { processes writer.new ≡ processes writer.old }
    ensures same_room { C.sure_room files.new ≡ C.sure_room files.old }
    ensures same_reads { C.read_faults files.new ≡ C.read_faults files.old }
    ensures same_absents { C.absents files.new ≡ C.absents files.old }
{
    let told = tracer.accepted(receive.proc, receive.number, receive.set, &receive.letter);
    let Some(note) = told else {
        return Ok(0);
    };
    writer.note(files, note)?;
    Ok(1)
}

/// Takes in a turn that was made: a receive is told to the tracer, and noted where its letter is logged.
/// Gives the number of notes.
pub fn take_in<C: Cabinet>(
    tracer: &mut Tracer,
    writer: &mut TraceWriter,
    what: &Turned,
    files: &mut C,
) -> Result<u32, Failed>
    requires is_open { IsTrue (C.is_open files.old) }
    requires small { written writer.old ≤ MAX_TRACE_BYTES }
    requires made { (E : List Event) × IsTracerOf tracer.old E
        × IsMade tracer.old.mask (processes writer.old) E what.now }

    ensures noted { IfOk result (λ many. (f : Form) (at : Place) (notes : ℕ) (E : List Event)
        → tracer.old.mask ≡ f.mask
        → IsNoted f at tracer.old writer.old (C.files files.old) (C.open_name files.old) notes E
        → IsMade f.mask f.n E what.now
        → IsNoted f at tracer.new writer.new (C.files files.new) (C.open_name files.new) (notes + many)
        (after E (outcome what.now))) }
    ensures cut { OnErr result ((f : Form) (at : Place) (notes : ℕ) (E : List Event)
        → tracer.old.mask ≡ f.mask
        → IsNoted f at tracer.old writer.old (C.files files.old) (C.open_name files.old) notes E
        → IsMade f.mask f.n E what.now
        → IsCutInNotes f at (C.files files.new) (after E (outcome what.now))) }
    ensures one { IfOk result (λ many. many ≤ 1) }
    ensures size { IfOk result (λ many. written writer.new ≡ written writer.old + 11 * many) }
    ensures failed { BelongsTo (is_err result) (C.write_faults files.old) (C.write_faults files.new) }
    ensures sure { (bytes : List ℕ) (room : ℕ) → C.sure_room files.old ≡ Some room
        → file_in (C.files files.old) (C.open_name files.old) ≡ Some bytes → length bytes + 11 ≤ room → IsOk result }
    ensures still_open { C.is_open files.new ≡ C.is_open files.old }

    // Nothing else changes.
    ensures order { tracer.new.mask ≡ tracer.old.mask }
    ensures n { processes writer.new ≡ processes writer.old }
    ensures same_room { C.sure_room files.new ≡ C.sure_room files.old }
    ensures same_reads { C.read_faults files.new ≡ C.read_faults files.old }
    ensures same_absents { C.absents files.new ≡ C.absents files.old }
{
    let Some(receive) = receive_in(what) else {
        return Ok(0);
    };
    note_receive(tracer, writer, &receive, files)
}
