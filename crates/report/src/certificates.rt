//! Certificates of logged letters.

ghost use Rattle.std.specs.Prelude.{◌≡◌};
ghost use Rattle.std.specs.List.{flat_map};
ghost use Rattle.report.specs.Printing.{Prints};
ghost use Rattle.report.specs.Texts as texts;

use crate::put::{hex_digits, put_number, put_pieces};
use cut_witness::{Witness, WitnessTurn};
use itoa::Buffer;
use nm_base::{LetterId, ProcNo};
use nm_outside::{Failed, Sink};

// The receive of a letter, or that it was lost.
fn put_received<O: Sink>(out: &mut O, received: Option<u32>) -> Result<(), Failed>
    ensures { Prints (O.given out.old) (O.given out.new) (O.faults out.old) (O.faults out.new)
        (texts.received_text received) result }
{
    let mut digits = Buffer::new();
    match received {
        None => put_pieces(out, &[b", lost\n"]),
        Some(number) => put_pieces(
            out,
            &[b", receive ", digits.format(number).as_bytes(), b"\n"],
        ),
    }
}

// Where a letter went.
fn put_went<O: Sink>(out: &mut O, id: LetterId, dest: ProcNo, chan: u8) -> Result<(), Failed>
    ensures { Prints (O.given out.old) (O.given out.new) (O.faults out.old) (O.faults out.new)
        (texts.went_text id dest.no chan) result }
{
    let mut sender_digits = Buffer::new();
    let mut number_digits = Buffer::new();
    let mut dest_digits = Buffer::new();
    let mut chan_digits = Buffer::new();
    put_pieces(
        out,
        &[
            b"== letter ",
            sender_digits.format(id.sender.no).as_bytes(),
            b".",
            number_digits.format(id.number).as_bytes(),
            b" to ",
            dest_digits.format(dest.no).as_bytes(),
            b" on ",
            chan_digits.format(chan).as_bytes(),
        ],
    )
}

// The first line of a certificate.
fn put_letter<O: Sink>(out: &mut O, w: &Witness) -> Result<(), Failed>
    ensures { Prints (O.given out.old) (O.given out.new) (O.faults out.old) (O.faults out.new)
        (texts.letter_line w.now.id w.now.dest.no w.now.chan w.now.received) result }
{
    put_went(out, w.id, w.dest, w.chan)?;
    put_received(out, w.received)
}

// The earlier receive.
fn put_earlier<O: Sink>(out: &mut O, receive: u32, event: u32, set: u32) -> Result<(), Failed>
    ensures { Prints (O.given out.old) (O.given out.new) (O.faults out.old) (O.faults out.new)
        (texts.earlier_line receive event set) result }
{
    let mut receive_digits = Buffer::new();
    let mut event_digits = Buffer::new();
    put_pieces(
        out,
        &[
            b"earlier receive ",
            receive_digits.format(receive).as_bytes(),
            b", event ",
            event_digits.format(event).as_bytes(),
            b", set 0x",
            hex_digits(set).as_slice(),
            b"\n",
        ],
    )
}

// A turn, and the letter that it accepts.
fn put_turn<O: Sink>(out: &mut O, turn: &WitnessTurn) -> Result<(), Failed>
    ensures { Prints (O.given out.old) (O.given out.new) (O.faults out.old) (O.faults out.new)
        (texts.turn_text turn.now) result }
{
    let mut digits = Buffer::new();
    let mut sender_digits = Buffer::new();
    let mut number_digits = Buffer::new();
    match turn.took {
        None => put_pieces(out, &[b" ", digits.format(turn.proc.no).as_bytes()]),
        Some(id) => put_pieces(
            out,
            &[
                b" ",
                digits.format(turn.proc.no).as_bytes(),
                b"<",
                sender_digits.format(id.sender.no).as_bytes(),
                b".",
                number_digits.format(id.number).as_bytes(),
            ],
        ),
    }
}

// The turns, one behind the other.
fn put_each_turn<O: Sink>(out: &mut O, turns: &[WitnessTurn]) -> Result<(), Failed>
    ensures { Prints (O.given out.old) (O.given out.new) (O.faults out.old) (O.faults out.new)
        (flat_map texts.turn_text turns.now) result }
{
    for turn in turns {
        put_turn(out, turn)?;
    }
    Ok(())
}

// The line of the turns.
fn put_turns<O: Sink>(out: &mut O, turns: &[WitnessTurn]) -> Result<(), Failed>
    ensures { Prints (O.given out.old) (O.given out.new) (O.faults out.old) (O.faults out.new)
        (texts.taken_turns turns.now) result }
{
    put_pieces(out, &[b"turns"])?;
    put_each_turn(out, turns)?;
    put_pieces(out, &[b"\n"])
}

/// The certificate of a logged letter: where it went and was received, the earlier receive, and the
/// turns of the run in which this receive accepts it.
pub fn certificate<O: Sink>(out: &mut O, w: &Witness) -> Result<(), Failed>
    ensures { Prints (O.given out.old) (O.given out.new) (O.faults out.old) (O.faults out.new)
        (texts.certificate w.now) result }
{
    put_letter(out, w)?;
    put_earlier(out, w.earlier_receive, w.earlier_event, w.set)?;
    put_turns(out, w.turns.as_slice())
}

/// The line behind all certificates: how many there are.
pub fn certificates_line<O: Sink>(out: &mut O, number: u32) -> Result<(), Failed>
    ensures { Prints (O.given out.old) (O.given out.new) (O.faults out.old) (O.faults out.new)
        (texts.certificates_line number) result }
{
    put_number(out, b"== certificates ", number, b"\n")
}
