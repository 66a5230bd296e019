//! The value of a variable, and what a process printed.

ghost use Rattle.std.specs.Prelude.{◌≡◌, ◌++◌, codes};
ghost use Rattle.report.specs.Printing.{Prints};
ghost use Rattle.report.specs.Replies as replies;

use crate::one_process::put_output;
use crate::put::put_pieces;
use itoa::Buffer;
use nm_base::{Ctype, as_int};
use nm_outside::{Failed, Sink};

// A name, with the index where one was given.
fn put_named<O: Sink>(out: &mut O, name: &[u8], index: Option<u32>) -> Result<(), Failed>
    ensures { Prints (O.given out.old) (O.given out.new) (O.faults out.old) (O.faults out.new)
        (replies.named_text name.now index) result }
{
    let mut digits = Buffer::new();
    match index {
        None => put_pieces(out, &[name]),
        Some(i) => put_pieces(out, &[name, b"[", digits.format(i).as_bytes(), b"]"]),
    }
}

// A value by its type.
fn put_value<O: Sink>(out: &mut O, bits: u32, of: Ctype) -> Result<(), Failed>
    ensures { Prints (O.given out.old) (O.given out.new) (O.faults out.old) (O.faults out.new)
        (codes " = " ++ replies.value_text bits of ++ codes "\n") result }
{
    let mut digits = Buffer::new();
    match of {
        Ctype::Int => put_pieces(
            out,
            &[b" = ", digits.format(as_int(bits)).as_bytes(), b"\n"],
        ),
        Ctype::Unsigned => put_pieces(out, &[b" = ", digits.format(bits).as_bytes(), b"\n"]),
    }
}

/// The line of a variable: its name, its index where it is an array, and its value by its type.
pub fn value_line<O: Sink>(
    out: &mut O,
    name: &[u8],
    index: Option<u32>,
    bits: u32,
    of: Ctype,
) -> Result<(), Failed>
    ensures { Prints (O.given out.old) (O.given out.new) (O.faults out.old) (O.faults out.new)
        (replies.value_line name.now index bits of) result }
{
    put_named(out, name, index)?;
    put_value(out, bits, of)
}

// How many bytes there are.
fn put_length<O: Sink>(out: &mut O, bytes: usize) -> Result<(), Failed>
    ensures { Prints (O.given out.old) (O.given out.new) (O.faults out.old) (O.faults out.new)
        (replies.length_text bytes) result }
{
    let mut digits = Buffer::new();
    put_pieces(out, &[digits.format(bytes).as_bytes(), b" bytes\n"])
}

/// What a process printed: how many bytes, the bytes, and a newline if they don't end in one.
pub fn output_text<O: Sink>(out: &mut O, output: &[u8]) -> Result<(), Failed>
    ensures { Prints (O.given out.old) (O.given out.new) (O.faults out.old) (O.faults out.new)
        (replies.output_text output.now) result }
{
    put_length(out, output.len())?;
    put_output(out, output)
}
