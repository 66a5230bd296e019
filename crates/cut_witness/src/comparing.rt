//! How a trace is compared with a list of events.

ghost use Rattle.std.specs.Prelude.{◌≡◌, ◌↔◌, ℕ, List, IfOk};
ghost use Rattle.event_list.specs.Runs.{Sound};
ghost use Rattle.event_list.specs.Traces.{AreNotesOf, AreLostOf};
ghost use Rattle.event_list.specs.declared.Event.{Event};
ghost use Rattle.cut_witness.specs.declared.comparisons.Compared.TheVariants.{Same};
ghost use Rattle.cut_witness.specs.Comparisons.{HasEntries, IsCompared};

use crate::comparisons::Compared;
use crate::listing::{lost_of, notes_of};
use crate::lookups::first_lacking;
use crate::quiet::quiet_of;
use event_list::EventList;
use nm_base::{AcceptNote, LetterId, WantOfMemory};
use std::alloc::Global;
use trace_file::Trace;

/// Whether the trace has the entries of the list under the trace's mask: else the letter of the trace's
/// first entry that the list lacks, else of the list's first that the trace lacks.
pub fn compare(alloc: Global, trace: &Trace, events: &EventList) -> Result<Compared, WantOfMemory>
    requires { Sound trace.now.mask events.now.events }
    ensures compared { IfOk result (IsCompared trace.now.mask trace.now.notes trace.now.lost events.now.events) }
    ensures same { IfOk result (λ r. (r ≡ Same)
        ↔ HasEntries trace.now.mask trace.now.notes trace.now.lost events.now.events) }
{
    let mask = trace.mask();
    let quiet = quiet_of(alloc, events, mask)?;
    let notes = notes_of(alloc, events, mask, &quiet)?;
    let lost = lost_of(alloc, events, mask, &quiet)?;
    let compared = compare_entries(alloc, trace, &notes, &lost)?;
    Ok(compared)
}

/// Compares the trace's entries with those of a list of events.
fn compare_entries(
    alloc: Global,
    trace: &Trace,
    notes: &[AcceptNote],
    lost: &[LetterId],
) -> Result<Compared, WantOfMemory>
    ensures { (M : ℕ) (E : List Event) → AreNotesOf M E notes.now → AreLostOf M E lost.now
        → IfOk result (IsCompared M trace.now.notes trace.now.lost E) }
{
    let missing = first_lacking(alloc, trace.notes(), trace.lost(), notes, lost)?;
    if let Some(first) = missing {
        return Ok(Compared::Differs { first });
    }
    let added = first_lacking(alloc, notes, lost, trace.notes(), trace.lost())?;
    match added {
        Some(first) => Ok(Compared::Differs { first }),
        None => Ok(Compared::Same),
    }
}
