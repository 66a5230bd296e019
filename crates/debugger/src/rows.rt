//! Lines of one to five words.

ghost use Rattle.std.specs.Prelude.{◌≡◌, ◌<◌, ℕ, None, Some};
ghost use Rattle.debugger.specs.Lines as lines;
ghost use Rattle.debugger.specs.Lines.{with_number, with_process, without_process};
ghost use Rattle.debugger.specs.private.Asking.{IsAmong, IsWithin, asked, asks, by_who, order_of, spot_in, who_in};

use crate::line::Line;
use nm_base::{ProcNo, number};
use report::Spot;

/// What a word says as the number of a process.
#[derive(Clone, Copy, Debug)]
pub(crate) enum Who {
    /// It is no number.
    NoNumber,
    /// No process has it.
    Absent { number: u32 },
    Present { p: ProcNo },
}

/// What a line of two words asks of one process.
#[derive(Clone, Copy, Debug)]
pub(crate) enum Look {
    Step,
    Frames,
    Output,
    Mail,
    Clock,
}

// The process among n whose number the word is.
fn who_in(n: u8, word: &[u8]) -> Who
    ensures who { result ≡ who_in n word.now }
    ensures within { IsWithin n result }
{
    match number(word) {
        None => Who::NoNumber,
        Some(p) => {
            if p < u32::from(n) {
                Who::Present {
                    p: ProcNo { no: p as u8 },
                }
            } else {
                Who::Absent { number: p }
            }
        }
    }
}

// A line that asks this of a process.
fn look_of<'a>(what: Look, p: ProcNo) -> Line<'a>
    ensures asked { asked result ≡ asks what p.no }
    ensures among { (n : ℕ) → p.no < n → IsAmong n result }
{
    match what {
        Look::Step => Line::StepOf { p },
        Look::Frames => Line::Frames { p },
        Look::Output => Line::Output { p },
        Look::Mail => Line::Mail { p },
        Look::Clock => Line::Clock { p },
    }
}

// What a line asks that looks at this process.
fn look_by<'a>(p: Who, what: Look) -> Line<'a>
    ensures asked { asked result ≡ by_who p (asks what) }
    ensures among { (n : ℕ) → IsWithin n p → IsAmong n result }
{
    match p {
        Who::NoNumber => Line::NotALine,
        Who::Absent { .. } => Line::NotAProcess,
        Who::Present { p } => look_of(what, p),
    }
}

// What a line asks that looks at a process.
fn look_at<'a>(n: u8, word: &[u8], what: Look) -> Line<'a>
    ensures asked { asked result ≡ with_process n word.now (asks what) }
    ensures among { IsAmong n result }
{
    look_by(who_in(n, word), what)
}

// `clear K`
fn clear<'a>(word: &[u8]) -> Line<'a>
    ensures asked { asked result ≡ with_number word.now lines.Clear }
    ensures among { (n : ℕ) → IsAmong n result }
{
    match number(word) {
        None => Line::NotALine,
        Some(k) => Line::Clear { k },
    }
}

// `back K`
fn back<'a>(word: &[u8]) -> Line<'a>
    ensures asked { asked result ≡ with_number word.now lines.Back }
    ensures among { (n : ℕ) → IsAmong n result }
{
    match number(word) {
        None => Line::NotALine,
        Some(k) => Line::Back { k },
    }
}

// `detach K`
fn detach<'a>(word: &[u8]) -> Line<'a>
    ensures asked { asked result ≡ with_number word.now lines.Detach }
    ensures among { (n : ℕ) → IsAmong n result }
{
    match number(word) {
        None => Line::NotALine,
        Some(k) => Line::Detach { k },
    }
}

// Where a breakpoint fits, by a word.
fn spot_in(word: &[u8]) -> Option<Spot>
    ensures { result ≡ spot_in word.now }
{
    if word == b"recv".as_slice() {
        return Some(Spot::Receive);
    }
    match number(word) {
        None => None,
        Some(line) => Some(Spot::Line { line }),
    }
}

// `break P L` and `break P recv`
fn set_break<'a>(n: u8, word: &[u8], at: &[u8]) -> Line<'a>
    ensures asked { asked result ≡ with_process n word.now (lines.break_at at.now) }
    ensures among { IsAmong n result }
{
    match spot_in(at) {
        None => Line::NotALine,
        Some(at) => break_of(who_in(n, word), at),
    }
}

// A breakpoint of this process.
fn break_of<'a>(p: Who, at: Spot) -> Line<'a>
    ensures asked { asked result ≡ by_who p (λ q. lines.SetBreak q at) }
    ensures among { (n : ℕ) → IsWithin n p → IsAmong n result }
{
    match p {
        Who::NoNumber => Line::NotALine,
        Who::Absent { .. } => Line::NotAProcess,
        Who::Present { p } => Line::SetBreak { p, at },
    }
}

// A variable of this process.
fn print_of<'a>(p: Who, name: &'a [u8], index: Option<u32>) -> Line<'a>
    ensures asked { asked result ≡ by_who p (λ q. lines.Print q name.now index) }
    ensures among { (n : ℕ) → IsWithin n p → IsAmong n result }
{
    match p {
        Who::NoNumber => Line::NotALine,
        Who::Absent { .. } => Line::NotAProcess,
        Who::Present { p } => Line::Print { p, name, index },
    }
}

// `print P NAME`
fn print<'a>(n: u8, word: &[u8], name: &'a [u8]) -> Line<'a>
    ensures asked { asked result ≡ with_process n word.now (λ p. lines.Print p name.now None) }
    ensures among { IsAmong n result }
{
    print_of(who_in(n, word), name, None)
}

// `print P NAME I`
fn print_at<'a>(n: u8, word: &[u8], name: &'a [u8], index: &[u8]) -> Line<'a>
    ensures asked { asked result
        ≡ with_process n word.now (λ p. with_number index.now (λ i. lines.Print p name.now (Some i))) }
    ensures among { IsAmong n result }
{
    match number(index) {
        None => Line::NotALine,
        Some(i) => print_of(who_in(n, word), name, Some(i)),
    }
}

// An event of a process, to stop at or to avoid.
fn stop_of<'a>(p: Who, k: u32) -> Line<'a>
    ensures asked { asked result ≡ by_who p (λ q. lines.Stop q k) }
    ensures among { (n : ℕ) → IsWithin n p → IsAmong n result }
{
    match p {
        Who::NoNumber => Line::NotALine,
        Who::Absent { .. } => Line::NotAProcess,
        Who::Present { p } => Line::Stop { p, k },
    }
}

// `stop P K`
fn stop<'a>(n: u8, word: &[u8], event: &[u8]) -> Line<'a>
    ensures asked { asked result ≡ with_process n word.now (λ p. with_number event.now (lines.Stop p)) }
    ensures among { IsAmong n result }
{
    match number(event) {
        None => Line::NotALine,
        Some(k) => stop_of(who_in(n, word), k),
    }
}

// The greatest cut without an event of a process.
fn avoid_of<'a>(p: Who, k: u32) -> Line<'a>
    ensures asked { asked result ≡ by_who p (λ q. lines.Avoid q k) }
    ensures among { (n : ℕ) → IsWithin n p → IsAmong n result }
{
    match p {
        Who::NoNumber => Line::NotALine,
        Who::Absent { .. } => Line::NotAProcess,
        Who::Present { p } => Line::Avoid { p, k },
    }
}

// `avoid P K`
fn avoid<'a>(n: u8, word: &[u8], event: &[u8]) -> Line<'a>
    ensures asked { asked result ≡ with_process n word.now (λ p. with_number event.now (lines.Avoid p)) }
    ensures among { IsAmong n result }
{
    match number(event) {
        None => Line::NotALine,
        Some(k) => avoid_of(who_in(n, word), k),
    }
}

// Two events of which the first is of no process.
fn compare_none<'a>(q: Who) -> Line<'a>
    ensures asked { (r k j : ℕ) → asked result ≡ without_process (by_who q (λ s. lines.Compare r k s j)) }
    ensures among { (n : ℕ) → IsAmong n result }
{
    match q {
        Who::NoNumber => Line::NotALine,
        Who::Absent { .. } => Line::NotAProcess,
        Who::Present { .. } => Line::NotAProcess,
    }
}

// Two events of which the first is of this process.
fn compare_with<'a>(p: ProcNo, k: u32, q: Who, j: u32) -> Line<'a>
    ensures asked { asked result ≡ by_who q (λ s. lines.Compare p.no k s j) }
    ensures among { (n : ℕ) → p.no < n → IsWithin n q → IsAmong n result }
{
    match q {
        Who::NoNumber => Line::NotALine,
        Who::Absent { .. } => Line::NotAProcess,
        Who::Present { p: q } => Line::Compare { p, k, q, j },
    }
}

// Two events of these processes.
fn compare_of<'a>(p: Who, k: u32, q: Who, j: u32) -> Line<'a>
    ensures asked { asked result ≡ by_who p (λ r. by_who q (λ s. lines.Compare r k s j)) }
    ensures among { (n : ℕ) → IsWithin n p → IsWithin n q → IsAmong n result }
{
    match p {
        Who::NoNumber => Line::NotALine,
        Who::Absent { .. } => compare_none(q),
        Who::Present { p } => compare_with(p, k, q, j),
    }
}

// `order P K Q J`
fn compare<'a>(n: u8, a: &[u8], b: &[u8], c: &[u8], d: &[u8]) -> Line<'a>
    ensures asked { asked result ≡ order_of n a.now b.now c.now d.now }
    ensures among { IsAmong n result }
{
    match number(b) {
        None => Line::NotALine,
        Some(k) => match number(d) {
            None => Line::NotALine,
            Some(j) => compare_of(who_in(n, a), k, who_in(n, c), j),
        },
    }
}

/// A line of one word.
pub(crate) fn of_one<'a>(verb: &[u8]) -> Line<'a>
    ensures asked { asked result ≡ lines.asked_by_one verb.now }
    ensures among { (n : ℕ) → IsAmong n result }
{
    if verb == b"step".as_slice() {
        Line::Step
    } else if verb == b"run".as_slice() {
        Line::Run
    } else if verb == b"where".as_slice() {
        Line::Where
    } else if verb == b"last".as_slice() {
        Line::Last
    } else if verb == b"watch".as_slice() {
        Line::Watch
    } else if verb == b"quit".as_slice() {
        Line::Quit
    } else {
        Line::NotALine
    }
}

/// A line of two words.
pub(crate) fn of_two<'a>(n: u8, verb: &[u8], a: &[u8]) -> Line<'a>
    ensures asked { asked result ≡ lines.asked_by_two n verb.now a.now }
    ensures among { IsAmong n result }
{
    if verb == b"step".as_slice() {
        look_at(n, a, Look::Step)
    } else if verb == b"back".as_slice() {
        back(a)
    } else if verb == b"clear".as_slice() {
        clear(a)
    } else if verb == b"frames".as_slice() {
        look_at(n, a, Look::Frames)
    } else if verb == b"output".as_slice() {
        look_at(n, a, Look::Output)
    } else if verb == b"mail".as_slice() {
        look_at(n, a, Look::Mail)
    } else if verb == b"clock".as_slice() {
        look_at(n, a, Look::Clock)
    } else if verb == b"detach".as_slice() {
        detach(a)
    } else {
        Line::NotALine
    }
}

/// A line of three words.
pub(crate) fn of_three<'a>(n: u8, verb: &[u8], a: &[u8], b: &'a [u8]) -> Line<'a>
    ensures asked { asked result ≡ lines.asked_by_three n verb.now a.now b.now }
    ensures among { IsAmong n result }
{
    if verb == b"break".as_slice() {
        set_break(n, a, b)
    } else if verb == b"print".as_slice() {
        print(n, a, b)
    } else if verb == b"stop".as_slice() {
        stop(n, a, b)
    } else if verb == b"avoid".as_slice() {
        avoid(n, a, b)
    } else {
        Line::NotALine
    }
}

/// A line of four words.
pub(crate) fn of_four<'a>(n: u8, verb: &[u8], a: &[u8], b: &'a [u8], c: &[u8]) -> Line<'a>
    ensures asked { asked result ≡ lines.asked_by_four n verb.now a.now b.now c.now }
    ensures among { IsAmong n result }
{
    if verb == b"print".as_slice() {
        print_at(n, a, b, c)
    } else {
        Line::NotALine
    }
}

/// A line of five words.
pub(crate) fn of_five<'a>(n: u8, verb: &[u8], a: &[u8], b: &[u8], c: &[u8], d: &[u8]) -> Line<'a>
    ensures asked { asked result ≡ lines.asked_by_five n verb.now a.now b.now c.now d.now }
    ensures among { IsAmong n result }
{
    if verb == b"order".as_slice() {
        compare(n, a, b, c, d)
    } else {
        Line::NotALine
    }
}
