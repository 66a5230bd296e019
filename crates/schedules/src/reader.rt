//! Schedules from text.

ghost use Rattle.std.specs.Prelude.{◌≡◌, ◌<◌, ◌≤◌, ◌⊎◌, ◌++◌, length, position, replicate, IfOk, OnOk, IfErr};
ghost use Rattle.nm_base.specs.declared.limits.TheConstants.{MAX_TURNS};
ghost use Rattle.schedules.specs.Bounds.{AreFewTurns};
ghost use Rattle.schedules.specs.Texts.{is_blank, word_length, is_mark, is_digit, number_of, spelled, admitted_entry, text_turns};
ghost use Rattle.schedules.specs.declared.reader.ScheduleFault.TheVariants.{Memory};

use crate::schedule::{Schedule, Turn};
use nm_base::{MAX_TURNS, ProcNo, WantOfMemory};
use std::alloc::Global;
use thiserror::Error;

/// Why a text is no schedule: the first bad word, by the place of its first byte.
#[derive(Clone, Copy, Debug, PartialEq, Eq, Error)]
pub enum ScheduleFault {
    /// Its spelling is none of `p`, `p/k` and `p*r`.
    #[error("at {place}: not a word of a schedule")]
    BadWord { place: u32 },
    /// There is no such process.
    #[error("at {place}: no such process")]
    NoProcess { place: u32 },
    /// The turns up to and with it are more than 1,000,000.
    #[error("at {place}: more than {most} turns", most = MAX_TURNS)]
    TooMany { place: u32 },
    /// Memory was refused.
    #[error("out of memory")]
    Memory,
}

/// What a word spells: so many turns of a process with this pick.
#[derive(Clone, Copy, Debug)]
struct Entry {
    proc: u32,
    pick: u32,
    times: u32,
}

/// Reads a schedule for n processes. Words are separated by spaces, tabs, carriage returns and
/// newlines: `p` is one turn of process p with pick 0, `p/k` one with pick k, `p*r` are r turns
/// with pick 0. A number is 1 to 10 decimal digits with a value of at most 4294967295.
pub fn read_schedule(alloc: Global, bytes: &[u8], n: u8) -> Result<Schedule, ScheduleFault>
    requires some { 0 < n }
    requires few { n ≤ 32 }
    requires size { length bytes.now ≤ 4194304 }
    ensures text { IfOk result (λ s. text_turns n bytes.now ≡ Ok s) }
    ensures turns { IfOk result (AreFewTurns n) }
    ensures refused { IfErr result (λ e. (e ≡ Memory) ⊎ (text_turns n bytes.now ≡ Err e)) }
{
    let mut turns = Vec::new(alloc);
    let mut i = 0;
    while i < bytes.len() {
        if is_blank(bytes[i]) {
            i += 1;
            continue;
        }
        let end = i + word_length(&bytes[i..]);
        let word = spelled(&bytes[i..end]);
        let entry = match admitted(n, turns.len() as u32, i as u32, word) {
            Ok(entry) => entry,
            Err(fault) => return Err(fault),
        };
        let turn = Turn {
            proc: ProcNo {
                no: entry.proc as u8,
            },
            pick: entry.pick,
        };
        match add_turns(&mut turns, turn, entry.times) {
            Ok(()) => {}
            Err(_) => return Err(ScheduleFault::Memory),
        }
        i = end;
    }
    Ok(Schedule::from_vec(turns))
}

/// Adds so many turns, all the same.
fn add_turns(turns: &mut Vec<Turn>, turn: Turn, times: u32) -> Result<(), WantOfMemory>
    ensures { OnOk result (turns.new.items ≡ turns.old.items ++ replicate times turn) }
{
    for _i in 0..times {
        match turns.push(turn) {
            Ok(()) => {}
            Err(_) => return Err(WantOfMemory),
        }
    }
    Ok(())
}

fn is_blank(b: u8) -> bool
    ensures { result ≡ is_blank b }
{
    b == b' ' || b == b'\t' || b == b'\r' || b == b'\n'
}

/// The place of the first blank.
fn first_blank(bytes: &[u8]) -> Option<usize>
    ensures { result ≡ position is_blank bytes.now }
{
    bytes.iter().position(|b| is_blank(*b))
}

/// How many bytes come before the first blank.
fn word_length(bytes: &[u8]) -> usize
    ensures { result ≡ word_length bytes.now }
{
    match first_blank(bytes) {
        Some(length) => length,
        None => bytes.len(),
    }
}

/// The place of the first mark.
fn first_mark(word: &[u8]) -> Option<usize>
    ensures { result ≡ position is_mark word.now }
{
    word.iter().position(|b| *b == b'/' || *b == b'*')
}

fn is_digit(b: u8) -> bool
    ensures { result ≡ is_digit b }
{
    b'0' <= b && b <= b'9'
}

/// What a word spells, if its spelling is one of the three.
fn spelled(word: &[u8]) -> Option<Entry>
    ensures { result ≡ spelled word.now }
{
    let Some(i) = first_mark(word) else {
        let proc = number(word)?;
        return Some(Entry {
            proc,
            pick: 0,
            times: 1,
        });
    };
    let proc = number(&word[..i])?;
    let other = number(&word[i + 1..])?;
    if word[i] == b'/' {
        Some(Entry {
            proc,
            pick: other,
            times: 1,
        })
    } else {
        Some(Entry {
            proc,
            pick: 0,
            times: other,
        })
    }
}

/// The value of 1 to 10 decimal digits, if it is at most 4294967295.
fn number(digits: &[u8]) -> Option<u32>
    ensures { result ≡ number_of digits.now }
{
    if digits.is_empty() || digits.len() > 10 {
        return None;
    }
    let mut value: u64 = 0;
    for d in digits {
        if !is_digit(*d) {
            return None;
        }
        value = 10 * value + u64::from(*d - b'0');
        if value > 4294967295 {
            return None;
        }
    }
    Some(value as u32)
}

/// What is wrong with a word at this place, for n processes and after so many turns, if anything.
fn admitted(n: u8, made: u32, place: u32, word: Option<Entry>) -> Result<Entry, ScheduleFault>
    requires { made ≤ MAX_TURNS }
    ensures { result ≡ admitted_entry n made place word }
{
    let Some(entry) = word else {
        return Err(ScheduleFault::BadWord { place });
    };
    if entry.proc >= u32::from(n) {
        return Err(ScheduleFault::NoProcess { place });
    }
    if entry.times > MAX_TURNS - made {
        return Err(ScheduleFault::TooMany { place });
    }
    Ok(entry)
}
