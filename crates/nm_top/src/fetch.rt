//! The files that a command demands, and what their texts stand for.

ghost use Rattle.std.specs.Prelude.{◌≡◌, ◌<◌, ◌≤◌, ◌⊎◌, List, ℕ, [], ◌∷◌, length, Err, IfSome, IfOk, IfErr};
ghost use Rattle.sha2.specs.Sha256.{sha256};
ghost use Rattle.nm_base.specs.declared.limits.TheConstants.{MAX_PROCESSES};
ghost use Rattle.nm_outside.specs.Files.{Files};
ghost use Rattle.schedules.specs.Bounds.{AreFewTurns};
ghost use Rattle.schedules.specs.Texts.{text_turns};
ghost use Rattle.schedules.specs.declared.reader.ScheduleFault.TheVariants as faults;
ghost use Rattle.trace_file.specs.Bytes.{spelling};
ghost use Rattle.trace_file.specs.Names.{name_of};
ghost use Rattle.trace_file.specs.Outcomes.{IsDamage, TellsDamage};
ghost use Rattle.trace_file.specs.Rules.{IsTrace};
ghost use Rattle.nm_top.specs.Programs.{Reads};
ghost use Rattle.nm_top.specs.Schedules.{IsFirstBad, IsSchedule};
ghost use Rattle.nm_top.specs.Demands.{HasTrace, Holds, HoldsIn, ProgramText, ScheduleText, TraceText, program_file};
ghost use Rattle.nm_top.specs.private.Unread.{IsUnread};
ghost use Rattle.nm_top.specs.private.Works.{Counts, Gives, IsOfText, IsUnfetched, IsUnmet};

use crate::program::{Unread, program_of};
use crate::stop::Stop;
use c_tree::Program;
use nm_base::{MAX_PROGRAM_BYTES, MAX_SCHEDULE_BYTES, MAX_TRACE_BYTES};
use nm_outside::{Cabinet, Fetched};
use report::Refusal;
use schedules::{Schedule, ScheduleFault, read_schedule};
use sha2::{Digest, Sha256};
use std::alloc::Global;
use trace_file::{Trace, TraceFault, decode};

/// A program, and the SHA-256 digest of its file.
#[derive(Drop)]
pub struct Source {
    pub program: Program,
    pub digest: [u8; 32],
}

// The bytes of a file of at most so many.
fn fetched<'a, C: Cabinet>(
    alloc: Global,
    files: &mut C,
    name: &'a str,
    limit: u32,
) -> Result<Vec<u8>, Stop<'a>>
    ensures found { IfSome (C.files files.old)
        (λ held. IfOk result
        (λ v. HoldsIn held (λ bytes. v.items ≡ bytes) (record { name = name.now; limit = limit }))) }
    ensures unfetched { IfSome (C.files files.old)
        (λ held. IfErr result (IsUnfetched held (record { name = name.now; limit = limit }))) }
    ensures limit { IfOk result (λ v. length v.items ≤ limit) }
    ensures counts { Counts (λ n. n ≡ name.now) (C.absents files.old) (C.absents files.new) (C.read_faults files.old)
        (C.read_faults files.new) result }
    ensures files { C.files files.new ≡ C.files files.old }
    ensures writes { C.write_faults files.new ≡ C.write_faults files.old }
    ensures room { C.sure_room files.new ≡ C.sure_room files.old }
{
    match files.fetch(alloc, name, limit) {
        Fetched::Bytes(bytes) => {
            if bytes.len() > limit as usize {
                return Err(Stop::Refused(Refusal::TooLong { name }));
            }
            Ok(bytes)
        }
        Fetched::Absent => Err(Stop::Refused(Refusal::Absent { name })),
        Fetched::Failed => Err(Stop::Refused(Refusal::ReadFault { name })),
        Fetched::Memory => Err(Stop::Memory),
    }
}

/// What stops a command whose program wasn't read.
pub fn unread<'a>(fault: Unread) -> Stop<'a>
    ensures unmet { (held : Files) (name text : List ℕ) → IsUnread text fault
        → IsUnmet (ProgramText name) held text result }
    ensures text { IsOfText result }
{
    match fault {
        Unread::Refused { kind, line } => Stop::Refused(Refusal::ProgramRefused { kind, line }),
        Unread::Memory => Stop::Memory,
    }
}

// What stops a command whose schedule has a bad word: the kind and the place of the first.
fn bad_word<'a>(kind: &'static str, place: u32) -> Stop<'a>
    ensures unmet { (held : Files) (name : List ℕ) (n : ℕ) (text : List ℕ)
        → IsFirstBad n text (record { kind = kind.now; place = place })
        → IsUnmet (ScheduleText name n) held text result }
    ensures text { IsOfText result }
{
    Stop::Refused(Refusal::ScheduleRefused { kind, place })
}

// What stops a command whose schedule wasn't read.
fn unscheduled<'a>(fault: ScheduleFault) -> Stop<'a>
    ensures unmet { (held : Files) (name : List ℕ) (n : ℕ) (text : List ℕ)
        → (fault ≡ faults.Memory) ⊎ (text_turns n text ≡ Err fault)
        → IsUnmet (ScheduleText name n) held text result }
    ensures text { IsOfText result }
{
    match fault {
        ScheduleFault::BadWord { place } => bad_word("BadWord", place),
        ScheduleFault::NoProcess { place } => bad_word("NoProcess", place),
        ScheduleFault::TooMany { place } => bad_word("TooMany", place),
        ScheduleFault::Memory => Stop::Memory,
    }
}

// What stops a command whose trace wasn't read.
fn undecoded<'a>(fault: TraceFault) -> Stop<'a>
    ensures unmet { (held : Files) (name text : List ℕ) → TellsDamage text fault
        → IsUnmet (TraceText name) held text result }
    ensures text { IsOfText result }
{
    match fault {
        TraceFault::Damage { kind, place } => {
            let kind = kind.name();
            Stop::Refused(Refusal::TraceDamaged { kind, place })
        }
        TraceFault::Memory => Stop::Memory,
    }
}

/// The SHA-256 digest of a text (FIPS 180-4).
pub fn digest_of(text: &[u8]) -> [u8; 32]
    ensures { result ≡ sha256 text.now }
{
    let mut hasher = Sha256::new();
    hasher.update(text);
    hasher.finalize()
}

/// The program in a file.
pub fn program_in<'a, C: Cabinet>(
    alloc: Global,
    files: &mut C,
    name: &'a str,
) -> Result<Source, Stop<'a>>
    ensures gives { IfSome (C.files files.old) (λ held.
        Gives (λ s. HoldsIn held (λ text. Reads text s.program × (s.digest ≡ sha256 text)) (program_file name.now))
        (ProgramText name.now ∷ []) held result) }
    ensures counts { Counts (λ n. n ≡ name.now) (C.absents files.old) (C.absents files.new) (C.read_faults files.old)
        (C.read_faults files.new) result }
    ensures files { C.files files.new ≡ C.files files.old }
    ensures writes { C.write_faults files.new ≡ C.write_faults files.old }
    ensures room { C.sure_room files.new ≡ C.sure_room files.old }
{
    let text = match fetched(alloc, files, name, MAX_PROGRAM_BYTES) {
        Ok(text) => text,
        Err(stop) => return Err(stop),
    };
    let digest = digest_of(&text);
    match program_of(alloc, &text) {
        Ok(program) => Ok(Source { program, digest }),
        Err(fault) => Err(unread(fault)),
    }
}

/// The schedule for so many processes in a file.
pub fn schedule_in<'a, C: Cabinet>(
    alloc: Global,
    files: &mut C,
    name: &'a str,
    processes: u8,
) -> Result<Schedule, Stop<'a>>
    requires some { 0 < processes }
    requires few { processes ≤ MAX_PROCESSES }
    ensures gives { IfSome (C.files files.old) (λ held.
        Gives (λ turns. Holds (ScheduleText name.now processes) (λ text. IsSchedule processes text turns) held)
        (ScheduleText name.now processes ∷ []) held result) }
    ensures turns { IfOk result (AreFewTurns processes) }
    ensures counts { Counts (λ n. n ≡ name.now) (C.absents files.old) (C.absents files.new) (C.read_faults files.old)
        (C.read_faults files.new) result }
    ensures files { C.files files.new ≡ C.files files.old }
    ensures writes { C.write_faults files.new ≡ C.write_faults files.old }
    ensures room { C.sure_room files.new ≡ C.sure_room files.old }
{
    let text = match fetched(alloc, files, name, MAX_SCHEDULE_BYTES) {
        Ok(text) => text,
        Err(stop) => return Err(stop),
    };
    match read_schedule(alloc, &text, processes) {
        Ok(schedule) => Ok(schedule),
        Err(fault) => Err(unscheduled(fault)),
    }
}

/// The trace in a file.
pub fn trace_in<'a, C: Cabinet>(
    alloc: Global,
    files: &mut C,
    name: &'a str,
) -> Result<Trace, Stop<'a>>
    ensures gives { IfSome (C.files files.old) (λ held.
        Gives (HasTrace held name.now) (TraceText name.now ∷ []) held result) }
    ensures trace { IfOk result IsTrace }
    ensures small { IfOk result (λ t. length (spelling t) ≤ MAX_TRACE_BYTES) }
    ensures counts { Counts (λ n. n ≡ name.now) (C.absents files.old) (C.absents files.new) (C.read_faults files.old)
        (C.read_faults files.new) result }
    ensures files { C.files files.new ≡ C.files files.old }
    ensures writes { C.write_faults files.new ≡ C.write_faults files.old }
    ensures room { C.sure_room files.new ≡ C.sure_room files.old }
{
    let bytes = match fetched(alloc, files, name, MAX_TRACE_BYTES) {
        Ok(bytes) => bytes,
        Err(stop) => return Err(stop),
    };
    match decode(alloc, &bytes) {
        Ok(trace) => Ok(trace),
        Err(fault) => Err(undecoded(fault)),
    }
}
