//! Sessions with the lines of an input.

ghost use Rattle.std.specs.Prelude.{◌≡◌, ℕ, ◌+◌, ◌-◌, ◌^◌, ◌<◌, ◌≤◌, ◌++◌, List, min, map, length, Option, Some, false, IfSome, option_copied, ◌∷◌, []};
ghost use Rattle.std.specs.Io.KnownBytes.{Consumes, IsAtEnd};
ghost use Rattle.c_tree.specs.declared.program.Program.{Program};
ghost use Rattle.nm_outside.specs.Causes.{BelongsTo};
ghost use Rattle.debugger.specs.Sessions.{Session as Defined};
ghost use Rattle.debugger.specs.Sittings.{IsSameSitting, IsSessionOf};
ghost use Rattle.debugger.specs.Faults.{is_write};
ghost use Rattle.nm_top.specs.Debugging.{HasTaken, Talked, is_fault_end, is_full_end, is_write_end};
ghost use Rattle.nm_top.specs.private.LineFronts.{short};
ghost use Rattle.nm_top.specs.private.Talking.{Came, Finished, Going, Grows, HasAnswered, Origin, Stepped, Takes, fault_end, is_fault_step, is_full_step, is_write_step, origin};

use crate::line_buffer::LineBuffer;
use debugger::{Next, Session, SessionFault};
use mailboxes::Mail;
use nm_outside::{Failed, Sink, Source};
use report::{Notice, notice_line};
use std::alloc::Global;
use watchers::Watcher;

/// The input has at most so many bytes.
pub const MAX_INPUT_BYTES: u32 = 1_048_576;
// At most so many bytes are taken at once.
const PIECE: usize = 4_096;

/// How a session came to its end.
#[derive(Clone, Copy, Debug, PartialEq, Eq)]
pub enum End {
    /// The input ended, or a line was `quit`.
    Over,
    /// The source failed.
    InputFault,
    /// The input has too many bytes.
    InputFull,
    /// The sink failed.
    Write,
    /// Memory was refused.
    Memory,
}

/// What comes of one take.
#[derive(Clone, Copy, Debug, PartialEq, Eq)]
pub enum Step {
    /// So many bytes were taken, and the lines that end in them were answered.
    More(u32),
    /// The session is at its end.
    Ended(End),
}

// The end that a fault makes.
fn fault_end(fault: SessionFault) -> End
    ensures { result ≡ fault_end fault }
{
    match fault {
        SessionFault::Write => End::Write,
        SessionFault::Memory => End::Memory,
    }
}

// Answers one line, or says that it is too long.
fn answer_line<M: Mail, W: Watcher, O: Sink>(
    session: &mut Session<'_, M>,
    alloc: Global,
    line: Option<&[u8]>,
    watch: &mut Vec<W>,
    out: &mut O,
) -> Result<Next, SessionFault>
    ensures answered { (text : List ℕ) (p : Program) (s : Defined) → option_copied line.entry ≡ short text
        → IsSessionOf session.old p s → HasAnswered p session.old.trace s (map W.watched watch.old.items) text
        session.new (map W.watched watch.new.items) (O.given out.old) (O.given out.new) result }
    ensures cause { BelongsTo (is_write result) (O.faults out.old) (O.faults out.new) }
    ensures same { IsSameSitting session.old session.new }
{
    match line {
        Some(text) => session.line(alloc, text, watch, out),
        None => {
            notice_line(out, Notice::TooLong)?;
            Ok(Next::More)
        }
    }
}

// Answers the line that a newline ended, and begins the next.
fn end_line<M: Mail, W: Watcher, O: Sink>(
    session: &mut Session<'_, M>,
    alloc: Global,
    buffer: &mut LineBuffer,
    watch: &mut Vec<W>,
    out: &mut O,
) -> Result<Next, SessionFault>
    ensures came { (o : Origin) (read : List ℕ)
        → Going o read buffer.old session.old (map W.watched watch.old.items) (O.given out.old)
        → Came o (read ++ 10 ∷ []) buffer.new session.new (map W.watched watch.new.items) (O.given out.new) result }
    ensures cause { BelongsTo (is_write result) (O.faults out.old) (O.faults out.new) }
    ensures same { IsSameSitting session.old session.new }
{
    let next = answer_line(session, alloc, buffer.ended(), watch, out);
    buffer.clear();
    next
}

// A byte more of the input: a newline ends a line, and any other byte is one of the line that is begun.
fn answer_byte<M: Mail, W: Watcher, O: Sink>(
    session: &mut Session<'_, M>,
    alloc: Global,
    buffer: &mut LineBuffer,
    byte: u8,
    watch: &mut Vec<W>,
    out: &mut O,
) -> Result<Next, SessionFault>
    ensures came { (o : Origin) (read : List ℕ)
        → Going o read buffer.old session.old (map W.watched watch.old.items) (O.given out.old)
        → Came o (read ++ byte ∷ []) buffer.new session.new (map W.watched watch.new.items) (O.given out.new) result }
    ensures cause { BelongsTo (is_write result) (O.faults out.old) (O.faults out.new) }
    ensures same { IsSameSitting session.old session.new }
{
    if byte == b'\n' {
        return end_line(session, alloc, buffer, watch, out);
    }
    buffer.put(byte);
    Ok(Next::More)
}

// Answers the lines that end in a piece of the input, up to `quit`.
fn answer_piece<M: Mail, W: Watcher, O: Sink>(
    session: &mut Session<'_, M>,
    alloc: Global,
    buffer: &mut LineBuffer,
    piece: &[u8],
    watch: &mut Vec<W>,
    out: &mut O,
) -> Result<Next, SessionFault>
    ensures came { (o : Origin) (read : List ℕ)
        → Going o read buffer.old session.old (map W.watched watch.old.items) (O.given out.old)
        → Came o (read ++ piece.now) buffer.new session.new (map W.watched watch.new.items) (O.given out.new) result }
    ensures cause { BelongsTo (is_write result) (O.faults out.old) (O.faults out.new) }
    ensures same { IsSameSitting session.old session.new }
{
    for byte in piece {
        match answer_byte(session, alloc, buffer, *byte, watch, out) {
            Ok(Next::More) => {}
            Ok(Next::Quit) => return Ok(Next::Quit),
            Err(fault) => return Err(fault),
        }
    }
    Ok(Next::More)
}

// Answers the lines that end in the bytes of a take. The byte past the limit isn't read.
fn after_take<M: Mail, W: Watcher, O: Sink>(
    session: &mut Session<'_, M>,
    alloc: Global,
    buffer: &mut LineBuffer,
    taken: u32,
    piece: &[u8],
    watch: &mut Vec<W>,
    out: &mut O,
) -> Step
    requires taken { taken ≤ 1048576 }
    requires some { 1 ≤ length piece.now }
    requires few { taken + length piece.now ≤ 1048577 }
    ensures stepped { (o : Origin) (read : List ℕ) (left left' : Option (List ℕ)) → length read ≡ taken
        → Consumes left left' piece.now
        → Going o read buffer.old session.old (map W.watched watch.old.items) (O.given out.old)
        → Stepped o read left left' buffer.new session.new (map W.watched watch.new.items) (O.given out.new) result }
    ensures grows { Grows taken result }
    ensures count { (before : ℕ) → Takes taken before (min (before + length piece.now) (2 ^ 64 - 1)) result }
    ensures fault { is_fault_step result ≡ false }
    ensures full { is_full_step result ≡ false }
    ensures cause { BelongsTo (is_write_step result) (O.faults out.old) (O.faults out.new) }
    ensures same { IsSameSitting session.old session.new }
{
    let within = piece.len().min((MAX_INPUT_BYTES - taken) as usize);
    match answer_piece(session, alloc, buffer, &piece[..within], watch, out) {
        Ok(Next::More) => Step::More(piece.len() as u32),
        Ok(Next::Quit) => Step::Ended(End::Over),
        Err(fault) => Step::Ended(fault_end(fault)),
    }
}

// Answers what is behind the last newline of the input, if it isn't empty.
fn answer_last<M: Mail, W: Watcher, O: Sink>(
    session: &mut Session<'_, M>,
    alloc: Global,
    buffer: &LineBuffer,
    watch: &mut Vec<W>,
    out: &mut O,
) -> End
    ensures finished { (o : Origin) (read : List ℕ) (left : Option (List ℕ)) → length read ≤ 1048576 → IsAtEnd left
        → Going o read buffer.now session.old (map W.watched watch.old.items) (O.given out.old)
        → Finished o read left session.new (map W.watched watch.new.items) (O.given out.new) result }
    ensures fault { is_fault_end result ≡ false }
    ensures full { is_full_end result ≡ false }
    ensures cause { BelongsTo (is_write_end result) (O.faults out.old) (O.faults out.new) }
    ensures same { IsSameSitting session.old session.new }
{
    if buffer.is_empty() {
        return End::Over;
    }
    match answer_line(session, alloc, buffer.last(), watch, out) {
        Ok(_) => End::Over,
        Err(fault) => fault_end(fault),
    }
}

// Takes the next bytes of the input, at most those that are missing to one too many, and answers the lines that end in
// them.
fn take_piece<M: Mail, W: Watcher, I: Source, O: Sink>(
    session: &mut Session<'_, M>,
    alloc: Global,
    buffer: &mut LineBuffer,
    taken: u32,
    input: &mut I,
    watch: &mut Vec<W>,
    out: &mut O,
) -> Step
    requires { taken ≤ 1048576 }
    ensures stepped { (o : Origin) (read : List ℕ) → length read ≡ taken
        → Going o read buffer.old session.old (map W.watched watch.old.items) (O.given out.old)
        → Stepped o read (I.left input.old) (I.left input.new) buffer.new session.new (map W.watched watch.new.items)
        (O.given out.new) result }
    ensures grows { Grows taken result }
    ensures count { Takes taken (I.taken input.old) (I.taken input.new) result }
    ensures full { is_full_step result ≡ false }
    ensures input { BelongsTo (is_fault_step result) (I.faults input.old) (I.faults input.new) }
    ensures cause { BelongsTo (is_write_step result) (O.faults out.old) (O.faults out.new) }
    ensures same { IsSameSitting session.old session.new }
{
    let mut piece = [0; PIECE];
    let room = PIECE.min((MAX_INPUT_BYTES + 1 - taken) as usize);
    let n = match input.take(&mut piece[..room]) {
        Ok(n) => n,
        Err(Failed) => return Step::Ended(End::InputFault),
    };
    if n == 0 {
        return Step::Ended(answer_last(session, alloc, buffer, watch, out));
    }
    after_take(session, alloc, buffer, taken, &piece[..n], watch, out)
}

// Takes pieces of the input and answers their lines.
fn answer_input<M: Mail, W: Watcher, I: Source, O: Sink>(
    session: &mut Session<'_, M>,
    alloc: Global,
    input: &mut I,
    watch: &mut Vec<W>,
    out: &mut O,
) -> End
    ensures finished { (p : Program) (s : Defined) → IsSessionOf session.old p s
        → (bytes : List ℕ) × Consumes (I.left input.old) (I.left input.new) bytes
        × (length bytes ≤ 1048577)
        × Finished (origin p session.old.trace s (map W.watched watch.old.items) (O.given out.old)) bytes
        (I.left input.new) session.new (map W.watched watch.new.items) (O.given out.new) result }
    ensures input { BelongsTo (is_fault_end result) (I.faults input.old) (I.faults input.new) }
    ensures cause { BelongsTo (is_write_end result) (O.faults out.old) (O.faults out.new) }
    ensures count { (k : ℕ) × (k ≤ 1048577) × HasTaken k (I.taken input.old) (I.taken input.new)
        × (result ≡ End.InputFull → k ≡ 1048577) }
    ensures same { IsSameSitting session.old session.new }
{
    let mut buffer = LineBuffer::new();
    let mut taken = 0;
    while taken <= MAX_INPUT_BYTES {
        match take_piece(session, alloc, &mut buffer, taken, input, watch, out) {
            Step::More(n) => taken += n,
            Step::Ended(end) => return end,
        }
    }
    End::InputFull
}
/// Cuts the input into lines and has the session answer them, each before more input is taken.
pub fn talk<M: Mail, W: Watcher, I: Source, O: Sink>(
    session: &mut Session<'_, M>,
    alloc: Global,
    input: &mut I,
    watch: &mut Vec<W>,
    out: &mut O,
) -> End
    // Where the source tells its bytes, these are the input.
    ensures told { (p : Program) (s : Defined) → IsSessionOf session.old p s → IfSome (I.left input.old)
        (λ bytes. Talked p session.old.trace s (map W.watched watch.old.items) bytes (I.left input.new) session.new
        (map W.watched watch.new.items) (O.given out.old) (O.given out.new) result) }
    // Over every source it is as over an input of the bytes that were taken.
    ensures taken { (p : Program) (s : Defined) → IsSessionOf session.old p s → (bytes : List ℕ)
        × Talked p session.old.trace s (map W.watched watch.old.items) bytes (Some []) session.new
        (map W.watched watch.new.items) (O.given out.old) (O.given out.new) result }
    // A take failed exactly where the source's faults rose, and a put exactly where the sink's faults rose.
    ensures input { BelongsTo (is_fault_end result) (I.faults input.old) (I.faults input.new) }
    ensures cause { BelongsTo (is_write_end result) (O.faults out.old) (O.faults out.new) }
    // At most one byte too many is taken, and it is where the input is full.
    ensures count { (k : ℕ) × (k ≤ 1048577) × HasTaken k (I.taken input.old) (I.taken input.new)
        × (result ≡ End.InputFull → k ≡ 1048577) }
    ensures same { IsSameSitting session.old session.new }
{
    answer_input(session, alloc, input, watch, out)
}
