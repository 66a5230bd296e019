//! The lines of a debugger.

ghost use Rattle.std.specs.Prelude.{◌≡◌, ◌∷◌, []};
ghost use Rattle.debugger.specs.Lines.{asked_by, asked_of, words_of};
ghost use Rattle.debugger.specs.private.Asking.{IsAmong, asked};

use crate::rows::{of_five, of_four, of_one, of_three, of_two};
use crate::words::first_word;
use nm_base::ProcNo;
use report::Spot;

/// What a line asks.
#[derive(Clone, Copy, Debug)]
pub(crate) enum Line<'a> {
    /// It has no words.
    Nothing,
    /// It fits no row.
    NotALine,
    /// It fits a row, but for a process that there isn't.
    NotAProcess,
    /// `break P L` and `break P recv`
    SetBreak {
        p: ProcNo,
        at: Spot,
    },
    /// `clear K`
    Clear {
        k: u32,
    },
    /// `step`
    Step,
    /// `step P`
    StepOf {
        p: ProcNo,
    },
    /// `run`
    Run,
    /// `back K`
    Back {
        k: u32,
    },
    /// `print P NAME` and `print P NAME I`
    Print {
        p: ProcNo,
        name: &'a [u8],
        index: Option<u32>,
    },
    /// `frames P`
    Frames {
        p: ProcNo,
    },
    /// `where`
    Where,
    /// `output P`
    Output {
        p: ProcNo,
    },
    /// `mail P`
    Mail {
        p: ProcNo,
    },
    /// `clock P`
    Clock {
        p: ProcNo,
    },
    /// `last`
    Last,
    /// `watch`
    Watch,
    /// `detach K`
    Detach {
        k: u32,
    },
    /// `stop P K`
    Stop {
        p: ProcNo,
        k: u32,
    },
    /// `avoid P K`
    Avoid {
        p: ProcNo,
        k: u32,
    },
    /// `order P K Q J`
    Compare {
        p: ProcNo,
        k: u32,
        q: ProcNo,
        j: u32,
    },
    /// `quit`
    Quit,
}

// A line of at least four words.
fn past_four<'a>(n: u8, verb: &[u8], a: &[u8], b: &'a [u8], c: &[u8], text: &[u8]) -> Line<'a>
    ensures asked { asked result ≡ asked_by n (verb.now ∷ a.now ∷ b.now ∷ c.now ∷ words_of text.now) }
    ensures among { IsAmong n result }
{
    match first_word(text) {
        None => of_four(n, verb, a, b, c),
        Some((d, rest)) => match first_word(rest) {
            None => of_five(n, verb, a, b, c, d),
            Some(_) => Line::NotALine,
        },
    }
}

// A line of at least three words.
fn past_three<'a>(n: u8, verb: &[u8], a: &[u8], b: &'a [u8], text: &[u8]) -> Line<'a>
    ensures asked { asked result ≡ asked_by n (verb.now ∷ a.now ∷ b.now ∷ words_of text.now) }
    ensures among { IsAmong n result }
{
    match first_word(text) {
        None => of_three(n, verb, a, b),
        Some((c, rest)) => past_four(n, verb, a, b, c, rest),
    }
}

// A line of at least two words.
fn past_two<'a>(n: u8, verb: &[u8], a: &[u8], text: &'a [u8]) -> Line<'a>
    ensures asked { asked result ≡ asked_by n (verb.now ∷ a.now ∷ words_of text.now) }
    ensures among { IsAmong n result }
{
    match first_word(text) {
        None => of_two(n, verb, a),
        Some((b, rest)) => past_three(n, verb, a, b, rest),
    }
}

// A line of at least one word.
fn past_one<'a>(n: u8, verb: &[u8], text: &'a [u8]) -> Line<'a>
    ensures asked { asked result ≡ asked_by n (verb.now ∷ words_of text.now) }
    ensures among { IsAmong n result }
{
    match first_word(text) {
        None => of_one(verb),
        Some((a, rest)) => past_two(n, verb, a, rest),
    }
}

/// What a line asks in a session of n processes.
pub(crate) fn read_line(text: &[u8], n: u8) -> Line<'_>
    ensures asked { asked result ≡ asked_of n text.now }
    ensures among { IsAmong n result }
{
    match first_word(text) {
        None => Line::Nothing,
        Some((verb, rest)) => past_one(n, verb, rest),
    }
}
