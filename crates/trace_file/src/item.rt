//! One item of the file.

ghost use Rattle.std.specs.Prelude.{◌≡◌, ◌+◌, ◌<◌, ◌≤◌, ◌^◌, length};
ghost use Rattle.trace_file.specs.Reading.{letter_at, note_at, shape_at, word_at};
ghost use Rattle.trace_file.specs.private.Found.{Finds};

use crate::fault::{BrokenRule, DamageKind, damage};
use nm_base::{AcceptNote, LetterId, ProcNo};

/// An entry, or the tag of the end.
#[derive(Clone, Copy, Debug, PartialEq, Eq)]
pub enum Item {
    Note(AcceptNote),
    Lost(LetterId),
    End,
}

/// The number in the four bytes from this place on.
pub fn word(bytes: &[u8], place: usize) -> u32
    requires { place + 4 ≤ length bytes.now }
    ensures { result ≡ word_at bytes.now place }
{
    u32::from_be_bytes([
        bytes[place],
        bytes[place + 1],
        bytes[place + 2],
        bytes[place + 3],
    ])
}

fn letter(bytes: &[u8], place: usize) -> LetterId
    requires { place + 5 ≤ length bytes.now }
    ensures { result ≡ letter_at bytes.now place }
{
    LetterId {
        sender: ProcNo { no: bytes[place] },
        number: word(bytes, place + 1),
    }
}

fn note(bytes: &[u8]) -> AcceptNote
    requires { 11 ≤ length bytes.now }
    ensures { result ≡ note_at bytes.now }
{
    AcceptNote {
        receiver: ProcNo { no: bytes[1] },
        receive: word(bytes, 2),
        id: letter(bytes, 6),
    }
}

/// The item at this place of the file, by its own bytes. The rest of the file begins with it.
#[tactic(auto, unfolding(crate::specs::Reading::shape_at))]
pub fn shape(n: u8, place: usize, rest: &[u8]) -> Result<Item, BrokenRule>
    requires { place + length rest.now < 2 ^ 32 }
    ensures { Finds (λ item. item) result (shape_at n place rest.now) }
{
    if rest.is_empty() {
        return damage(DamageKind::Short, place);
    }
    match rest[0] {
        1 => {
            if rest.len() < 11 {
                return damage(DamageKind::Short, place + rest.len());
            }
            if !(rest[1] < n && rest[6] < n) {
                return damage(DamageKind::Process, place);
            }
            Ok(Item::Note(note(rest)))
        }
        2 => {
            if rest.len() < 6 {
                return damage(DamageKind::Short, place + rest.len());
            }
            if !(rest[1] < n) {
                return damage(DamageKind::Process, place);
            }
            Ok(Item::Lost(letter(rest, 1)))
        }
        3 => Ok(Item::End),
        _ => damage(DamageKind::Tag, place),
    }
}
