//! The command `upgrade`.

ghost use Rattle.std.specs.Prelude.{◌≡◌, ◌≤◌, length};
ghost use Rattle.nm_base.specs.declared.limits.TheConstants.{MAX_TRACE_BYTES};
ghost use Rattle.trace_file.specs.Bytes.{spelling};
ghost use Rattle.trace_file.specs.Rules.{IsTrace};
ghost use Rattle.nm_top.specs.Commands.{Upgrade};
ghost use Rattle.nm_top.specs.private.Upgraded.{HasUpgraded};
ghost use Rattle.nm_top.specs.Watches.{Call};
ghost use Rattle.nm_top.specs.private.Works.{Carries, outside};

use crate::fetch::trace_in;
use crate::rewrite::write_upgraded;
use crate::status::Status;
use crate::tell::tell;
use nm_outside::{BeginFault, Cabinet, Sink};
use report::upgraded_line;
use std::alloc::Global;
use trace_file::Trace;

// Writes the trace in version 2, and prints its line.
fn upgrade_trace<C: Cabinet, O: Sink>(
    alloc: Global,
    trace: &Trace,
    new: &str,
    files: &mut C,
    out: &mut O,
) -> Status
    requires trace { IsTrace trace.now }
    requires small { length (spelling trace.now) ≤ MAX_TRACE_BYTES }
    ensures { HasUpgraded trace.now new.now
        (outside (C.files files.old) (C.absents files.old) (C.read_faults files.old) (C.write_faults files.old)
        (C.sure_room files.old) (O.given out.old) (O.faults out.old))
        (outside (C.files files.new) (C.absents files.new) (C.read_faults files.new) (C.write_faults files.new)
        (C.sure_room files.new) (O.given out.new) (O.faults out.new)) result }
{
    let bytes = match write_upgraded(alloc, trace, new, files) {
        Ok(bytes) => bytes,
        Err(BeginFault::Memory) => return Status::WantOfMemory,
        Err(BeginFault::Failed) => return Status::WriteFault,
    };
    let notes = trace.notes().len() as u32;
    let lost = trace.lost().len() as u32;
    match upgraded_line(out, notes, lost, bytes) {
        Ok(()) => Status::Done,
        Err(_) => Status::WriteFault,
    }
}

/// Reads the trace in a file, writes it in version 2 to another or the same one, and prints its line.
pub fn upgrade<C: Cabinet, O: Sink>(
    alloc: Global,
    trace: &str,
    new: &str,
    files: &mut C,
    out: &mut O,
) -> Status
    ensures { (x : Call) → Carries x (Upgrade trace.now new.now)
        (outside (C.files files.old) (C.absents files.old) (C.read_faults files.old) (C.write_faults files.old)
        (C.sure_room files.old) (O.given out.old) (O.faults out.old))
        (outside (C.files files.new) (C.absents files.new) (C.read_faults files.new) (C.write_faults files.new)
        (C.sure_room files.new) (O.given out.new) (O.faults out.new)) result }
{
    match trace_in(alloc, files, trace) {
        Ok(trace) => upgrade_trace(alloc, &trace, new, files, out),
        Err(stop) => tell(out, &stop),
    }
}
