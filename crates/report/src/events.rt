//! The lines of events.

ghost use Rattle.std.specs.Prelude.{◌≡◌, codes};
ghost use Rattle.report.specs.Printing.{Prints};
ghost use Rattle.report.specs.Replies as replies;
ghost use Rattle.report.specs.Texts.{number_line};

use crate::one_process::cause_name;
use crate::put::{hex_digits, put_number, put_pieces};
use event_list::Event;
use itoa::Buffer;
use nm_base::{Kind, LetterId, ProcNo};
use nm_outside::{Failed, Sink};

// A letter that was sent.
fn put_sent<O: Sink>(
    out: &mut O,
    process: u8,
    number: u32,
    dest: ProcNo,
    chan: u8,
) -> Result<(), Failed>
    ensures { Prints (O.given out.old) (O.given out.new) (O.faults out.old) (O.faults out.new)
        (replies.sent_text process number dest.no chan) result }
{
    let mut sender_digits = Buffer::new();
    let mut number_digits = Buffer::new();
    let mut dest_digits = Buffer::new();
    let mut chan_digits = Buffer::new();
    put_pieces(
        out,
        &[
            b"sent ",
            sender_digits.format(process).as_bytes(),
            b".",
            number_digits.format(number).as_bytes(),
            b" to ",
            dest_digits.format(dest.no).as_bytes(),
            b" on ",
            chan_digits.format(chan).as_bytes(),
        ],
    )
}

// A letter that was accepted.
fn put_accepted<O: Sink>(out: &mut O, id: LetterId, set: u32) -> Result<(), Failed>
    ensures { Prints (O.given out.old) (O.given out.new) (O.faults out.old) (O.faults out.new)
        (replies.accepted_text id set) result }
{
    let mut sender_digits = Buffer::new();
    let mut number_digits = Buffer::new();
    put_pieces(
        out,
        &[
            b"accepted ",
            sender_digits.format(id.sender.no).as_bytes(),
            b".",
            number_digits.format(id.number).as_bytes(),
            b" set 0x",
            hex_digits(set).as_slice(),
        ],
    )
}

// What an event of the process is.
fn put_kind<O: Sink>(out: &mut O, process: u8, kind: Kind) -> Result<(), Failed>
    ensures { Prints (O.given out.old) (O.given out.new) (O.faults out.old) (O.faults out.new)
        (replies.kind_text process kind) result }
{
    let mut digits = Buffer::new();
    match kind {
        Kind::Line { line } => put_pieces(out, &[b"line ", digits.format(line).as_bytes()]),
        Kind::Sent {
            number,
            dest,
            chan,
            ..
        } => put_sent(out, process, number, dest, chan),
        Kind::Accepted { set, id } => put_accepted(out, id, set),
        Kind::Printed { bytes } => {
            put_pieces(out, &[b"printed ", digits.format(bytes).as_bytes()])
        }
        Kind::Ended { value } => put_pieces(out, &[b"ended ", digits.format(value).as_bytes()]),
        Kind::Faulted { cause } => put_pieces(out, &[b"faulted ", cause_name(cause)]),
    }
}

// The process of an event and its number.
fn put_place<O: Sink>(out: &mut O, process: u8, number: u32) -> Result<(), Failed>
    ensures { Prints (O.given out.old) (O.given out.new) (O.faults out.old) (O.faults out.new)
        (replies.number_text process number) result }
{
    let mut process_digits = Buffer::new();
    let mut number_digits = Buffer::new();
    put_pieces(
        out,
        &[
            process_digits.format(process).as_bytes(),
            b".",
            number_digits.format(number).as_bytes(),
            b" ",
        ],
    )
}

/// The line of an event: its process, its number among the events of this process, and what it is.
pub fn event_line<O: Sink>(out: &mut O, e: &Event) -> Result<(), Failed>
    ensures { Prints (O.given out.old) (O.given out.new) (O.faults out.old) (O.faults out.new)
        (replies.event_line e.now) result }
{
    put_place(out, e.proc.no, e.number)?;
    put_kind(out, e.proc.no, e.kind)?;
    put_pieces(out, &[b"\n"])
}

/// The line of a run that stopped because this breakpoint fits after the event.
pub fn broke_line<O: Sink>(out: &mut O, k: u32, e: &Event) -> Result<(), Failed>
    ensures { Prints (O.given out.old) (O.given out.new) (O.faults out.old) (O.faults out.new)
        (replies.broke_line k e.now) result }
{
    put_number(out, b"break ", k, b" at ")?;
    event_line(out, e)
}

// The number of a watcher that stops.
fn put_watcher<O: Sink>(out: &mut O, k: usize) -> Result<(), Failed>
    ensures { Prints (O.given out.old) (O.given out.new) (O.faults out.old) (O.faults out.new)
        (number_line (codes "watcher ") k (codes " at ")) result }
{
    let mut digits = Buffer::new();
    put_pieces(out, &[b"watcher ", digits.format(k).as_bytes(), b" at "])
}

/// The line of a run that stopped because this watcher stops after the event.
pub fn watcher_line<O: Sink>(out: &mut O, k: usize, e: &Event) -> Result<(), Failed>
    ensures { Prints (O.given out.old) (O.given out.new) (O.faults out.old) (O.faults out.new)
        (replies.watcher_line k e.now) result }
{
    put_watcher(out, k)?;
    event_line(out, e)
}
