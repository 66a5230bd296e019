//! Telling what stopped a command.

ghost use Rattle.std.specs.Prelude.{◌≡◌};
ghost use Rattle.nm_top.specs.Statuses.{status_of};
ghost use Rattle.nm_top.specs.private.Works.{Tells, work_of};

use crate::status::Status;
use crate::stop::Stop;
use nm_outside::Sink;
use report::{Refusal, refusal};

fn status_of(refused: &Refusal<'_>) -> Status
    ensures { result ≡ status_of refused.now }
{
    match refused {
        Refusal::Usage => Status::Usage,
        Refusal::Absent { .. } => Status::Absent,
        Refusal::ReadFault { .. } | Refusal::InputFault => Status::ReadFault,
        Refusal::TooLong { .. } => Status::TooLong,
        Refusal::ProgramRefused { .. } => Status::ProgramRefused,
        Refusal::ScheduleRefused { .. } => Status::ScheduleRefused,
        Refusal::TraceDamaged { .. } => Status::TraceDamaged,
        Refusal::OtherProgram { .. } => Status::OtherProgram,
        Refusal::Stuck { .. } => Status::Stuck,
        Refusal::Stopped { .. } => Status::WantOfMemory,
        Refusal::NotItsTrace { .. } => Status::NotItsTrace,
        Refusal::InputFull => Status::InputFull,
    }
}

/// Prints the line of what stopped a command, and answers its status. Want of memory has no line.
pub fn tell<O: Sink>(out: &mut O, stop: &Stop<'_>) -> Status
    ensures { Tells (work_of stop.now) (O.given out.old) (O.given out.new) (O.faults out.old)
        (O.faults out.new) result }
{
    let Stop::Refused(refused) = stop else {
        return Status::WantOfMemory;
    };
    match refusal(out, refused) {
        Ok(()) => status_of(refused),
        Err(_) => Status::WriteFault,
    }
}
