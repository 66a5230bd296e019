//! The lines of refusals.

ghost use Rattle.std.specs.Prelude.{◌≡◌, ◌++◌, codes};
ghost use Rattle.report.specs.Printing.{Prints};
ghost use Rattle.report.specs.Texts as texts;

use crate::cause::Refusal;
use crate::progress::put_stuck;
use crate::put::{put_digest, put_pieces};
use crate::traces::stopped_line;
use itoa::Buffer;
use nm_base::LetterId;
use nm_outside::{Failed, Sink};

// A line that ends with a name.
fn put_name<O: Sink>(out: &mut O, start: &[u8], name: &str) -> Result<(), Failed>
    ensures { Prints (O.given out.old) (O.given out.new) (O.faults out.old) (O.faults out.new)
        (texts.name_line start.now name.now) result }
{
    put_pieces(out, &[start, name.as_bytes(), b"\n"])
}

// A line that ends with a kind of refusal and a number.
fn put_kind<O: Sink>(
    out: &mut O,
    start: &[u8],
    kind: &str,
    middle: &[u8],
    number: u32,
) -> Result<(), Failed>
    ensures { Prints (O.given out.old) (O.given out.new) (O.faults out.old) (O.faults out.new)
        (texts.kind_line start.now kind.now middle.now number) result }
{
    let mut digits = Buffer::new();
    put_pieces(out, &[start, kind.as_bytes(), middle])?;
    put_pieces(out, &[digits.format(number).as_bytes(), b"\n"])
}

// The digests of two programs.
fn put_digests<O: Sink>(out: &mut O, of_trace: &[u8; 32], of_file: &[u8; 32]) -> Result<(), Failed>
    ensures { Prints (O.given out.old) (O.given out.new) (O.faults out.old) (O.faults out.new)
        (texts.other_program_line of_trace.now of_file.now) result }
{
    put_digest(out, b"other program: ", of_trace)?;
    put_digest(out, b" ", of_file)?;
    put_pieces(out, &[b"\n"])
}

// A line that ends with the name of a letter.
fn put_letter<O: Sink>(out: &mut O, start: &[u8], letter: &LetterId) -> Result<(), Failed>
    ensures { Prints (O.given out.old) (O.given out.new) (O.faults out.old) (O.faults out.new)
        (texts.letter_after start.now letter.now ++ codes "\n") result }
{
    let mut sender_digits = Buffer::new();
    let mut number_digits = Buffer::new();
    put_pieces(
        out,
        &[
            start,
            sender_digits.format(letter.sender.no).as_bytes(),
            b".",
            number_digits.format(letter.number).as_bytes(),
            b"\n",
        ],
    )
}

/// The line of a refusal.
pub fn refusal<O: Sink>(out: &mut O, r: &Refusal<'_>) -> Result<(), Failed>
    ensures { Prints (O.given out.old) (O.given out.new) (O.faults out.old) (O.faults out.new)
        (texts.refusal_line r.now) result }
{
    match r {
        Refusal::Usage => put_pieces(out, &[b"usage\n"]),
        Refusal::Absent { name } => put_name(out, b"absent: ", name),
        Refusal::ReadFault { name } => put_name(out, b"read fault: ", name),
        Refusal::InputFault => put_pieces(out, &[b"read fault: input\n"]),
        Refusal::TooLong { name } => put_name(out, b"too long: ", name),
        Refusal::ProgramRefused { kind, line } => {
            put_kind(out, b"program refused: ", kind, b" at line ", *line)
        }
        Refusal::ScheduleRefused { kind, place } => {
            put_kind(out, b"schedule refused: ", kind, b" at ", *place)
        }
        Refusal::TraceDamaged { kind, place } => {
            put_kind(out, b"trace damaged: ", kind, b" at ", *place)
        }
        Refusal::OtherProgram { of_trace, of_file } => put_digests(out, of_trace, of_file),
        Refusal::Stuck { n, events, counts } => put_stuck(out, *n, events, counts),
        Refusal::Stopped { turns } => stopped_line(out, *turns),
        Refusal::NotItsTrace { letter } => put_letter(out, b"not its trace: letter ", letter),
        Refusal::InputFull => put_pieces(out, &[b"input full\n"]),
    }
}
