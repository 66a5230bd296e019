//! What no row through the top call can say: the exit codes, what stands in a process or on a letter, where a session
//! goes back from, and what comes of a watcher that lacks memory. The rows through the top call are stored in
//! `crates/rows/data`.

mod clocks;
mod inspections;
mod kept_worlds;
mod lacking_watchers;
mod one_process;
mod programs;

use crate::Status;
use std::test::Fail;

/// The exit codes.
#[test]
fn codes(rt: HostRuntime) -> Result<(), Fail> {
    let table = [
        (Status::Done, 0),
        (Status::Usage, 1),
        (Status::Absent, 2),
        (Status::ReadFault, 3),
        (Status::WriteFault, 4),
        (Status::TooLong, 5),
        (Status::ProgramRefused, 6),
        (Status::ScheduleRefused, 7),
        (Status::TraceDamaged, 8),
        (Status::OtherProgram, 9),
        (Status::Stuck, 10),
        (Status::WantOfMemory, 11),
        (Status::NotItsTrace, 12),
        (Status::InputFull, 13),
    ];
    for (status, code) in table {
        assert_eq!(rt; status.code(), code);
    }
    Ok(())
}
