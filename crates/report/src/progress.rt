//! How far the processes of a replay came.

ghost use Rattle.std.specs.Prelude.{◌≡◌, get_or};
ghost use Rattle.std.specs.List.{flat_map, range_with_len};
ghost use Rattle.report.specs.Printing.{Prints};
ghost use Rattle.report.specs.Texts as texts;

use crate::put::put_pieces;
use itoa::Buffer;
use nm_outside::{Failed, Sink};

// The number of a process among the numbers of all.
fn number_of(numbers: &[u32; 32], process: u8) -> u32
    ensures { result ≡ get_or numbers.now process 0 }
{
    match numbers.get(process as usize) {
        Some(number) => *number,
        None => 0,
    }
}

// How far a process came.
fn put_one<O: Sink>(
    out: &mut O,
    process: u8,
    events: &[u32; 32],
    counts: &[u32; 32],
) -> Result<(), Failed>
    ensures { Prints (O.given out.old) (O.given out.new) (O.faults out.old) (O.faults out.new)
        (texts.progress_text events.now counts.now process) result }
{
    let made = number_of(events, process);
    let count = number_of(counts, process);
    let mut event_digits = Buffer::new();
    let mut count_digits = Buffer::new();
    put_pieces(
        out,
        &[
            b" ",
            event_digits.format(made).as_bytes(),
            b"/",
            count_digits.format(count).as_bytes(),
        ],
    )
}

// How far each process came.
fn put_each<O: Sink>(
    out: &mut O,
    n: u8,
    events: &[u32; 32],
    counts: &[u32; 32],
) -> Result<(), Failed>
    ensures { Prints (O.given out.old) (O.given out.new) (O.faults out.old) (O.faults out.new)
        (flat_map (texts.progress_text events.now counts.now) (range_with_len 0 n)) result }
{
    for process in 0..n {
        put_one(out, process, events, counts)?;
    }
    Ok(())
}

/// The line of a replay that is stuck: for each process the events made, and its count in the trace.
pub(crate) fn put_stuck<O: Sink>(
    out: &mut O,
    n: u8,
    events: &[u32; 32],
    counts: &[u32; 32],
) -> Result<(), Failed>
    ensures { Prints (O.given out.old) (O.given out.new) (O.faults out.old) (O.faults out.new)
        (texts.stuck_line n events.now counts.now) result }
{
    put_pieces(out, &[b"stuck:"])?;
    put_each(out, n, events, counts)?;
    put_pieces(out, &[b"\n"])
}
