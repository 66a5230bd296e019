//! The block of a process.

ghost use Rattle.std.specs.Prelude.{◌≡◌, ◌++◌, length};
ghost use Rattle.report.specs.Printing.{Prints};
ghost use Rattle.report.specs.Texts as texts;

use crate::put::{hex_digits, put_pieces};
use itoa::Buffer;
use nm_base::FaultCause;
use nm_outside::{Failed, Sink};
use processes::Look;

/// The name of a cause, as it is printed.
pub(crate) fn cause_name(cause: FaultCause) -> &'static [u8]
    ensures { result.now ≡ texts.cause_name cause }
{
    match cause {
        FaultCause::Overflow => b"Overflow",
        FaultCause::DivideByZero => b"DivideByZero",
        FaultCause::Shift => b"Shift",
        FaultCause::Index => b"Index",
        FaultCause::Address => b"Address",
        FaultCause::EmptySet => b"EmptySet",
        FaultCause::NoLetter => b"NoLetter",
        FaultCause::DepthFull => b"DepthFull",
        FaultCause::DataFull => b"DataFull",
        FaultCause::OutputFull => b"OutputFull",
    }
}

/// How a process stands.
pub(crate) fn put_status<O: Sink>(out: &mut O, look: Look) -> Result<(), Failed>
    ensures { Prints (O.given out.old) (O.given out.new) (O.faults out.old) (O.faults out.new)
        (texts.status_text look) result }
{
    let mut digits = Buffer::new();
    match look {
        Look::Able => put_pieces(out, &[b"able"]),
        Look::Waiting { set } => put_pieces(out, &[b"waiting 0x", hex_digits(set).as_slice()]),
        Look::Ended { value } => put_pieces(out, &[b"ended ", digits.format(value).as_bytes()]),
        Look::Faulted { cause } => put_pieces(out, &[b"faulted ", cause_name(cause)]),
    }
}

// How a process stands, with the line of a fault.
fn put_look<O: Sink>(out: &mut O, look: Look, line: u32) -> Result<(), Failed>
    ensures { Prints (O.given out.old) (O.given out.new) (O.faults out.old) (O.faults out.new)
        (texts.look_text look line) result }
{
    let mut digits = Buffer::new();
    match look {
        Look::Faulted { cause } => put_pieces(
            out,
            &[
                b"faulted ",
                cause_name(cause),
                b" at line ",
                digits.format(line).as_bytes(),
            ],
        ),
        other => put_status(out, other),
    }
}

// The beginning of a block's first line.
fn put_process<O: Sink>(out: &mut O, process: u8) -> Result<(), Failed>
    ensures { Prints (O.given out.old) (O.given out.new) (O.faults out.old) (O.faults out.new)
        (texts.process_text process) result }
{
    let mut digits = Buffer::new();
    put_pieces(
        out,
        &[b"== process ", digits.format(process).as_bytes(), b" "],
    )
}

// The end of a block's first line.
fn put_counts<O: Sink>(out: &mut O, events: u32, bytes: usize) -> Result<(), Failed>
    ensures { Prints (O.given out.old) (O.given out.new) (O.faults out.old) (O.faults out.new)
        (texts.counts_text events bytes) result }
{
    let mut event_digits = Buffer::new();
    let mut byte_digits = Buffer::new();
    put_pieces(
        out,
        &[
            b", ",
            event_digits.format(events).as_bytes(),
            b" events, ",
            byte_digits.format(bytes).as_bytes(),
            b" bytes\n",
        ],
    )
}

// A newline behind bytes that don't end in one.
fn line_end(output: &[u8]) -> &'static [u8]
    ensures { result.now ≡ texts.line_end output.now }
{
    match output.last() {
        None => b"",
        Some(last) => { if *last == b'\n' { b"" } else { b"\n" } }
    }
}

// The first line of a block.
fn put_head<O: Sink>(
    out: &mut O,
    process: u8,
    look: Look,
    line: u32,
    events: u32,
    bytes: usize,
) -> Result<(), Failed>
    ensures { Prints (O.given out.old) (O.given out.new) (O.faults out.old) (O.faults out.new)
        (texts.head_text process look line events bytes) result }
{
    put_process(out, process)?;
    put_look(out, look, line)?;
    put_counts(out, events, bytes)
}

/// The output, with a newline behind it if it doesn't end in one.
pub(crate) fn put_output<O: Sink>(out: &mut O, output: &[u8]) -> Result<(), Failed>
    ensures { Prints (O.given out.old) (O.given out.new) (O.faults out.old) (O.faults out.new)
        (output.now ++ texts.line_end output.now) result }
{
    put_pieces(out, &[output])?;
    put_pieces(out, &[line_end(output)])
}

/// The block of a process: how it stands, with the line of a fault, the number of its events, and
/// its output, with a newline behind it if it doesn't end in one.
pub fn block<O: Sink>(
    out: &mut O,
    process: u8,
    look: Look,
    line: u32,
    events: u32,
    output: &[u8],
) -> Result<(), Failed>
    ensures { Prints (O.given out.old) (O.given out.new) (O.faults out.old) (O.faults out.new)
        (texts.block process look line events output.now) result }
{
    put_head(out, process, look, line, events, output.len())?;
    put_output(out, output)
}
