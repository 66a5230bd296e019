//! Lines that only look: what they reply of a world of processes of a program.

ghost use Rattle.std.specs.Prelude.{◌≡◌, ◌<◌, List, length, slice_get, find, option_copied, is_err};
ghost use Rattle.std.specs.List.{flat_map};
ghost use Rattle.c_tree.specs.declared.program.Program.{Program};
ghost use Rattle.event_list.specs.declared.Event.{Event};
ghost use Rattle.event_list.specs.Traces.{waiting};
ghost use Rattle.stack_code.specs.View.{seen_code};
ghost use Rattle.c_process.specs.declared.answers.FrameSeen.{FrameSeen};
ghost use Rattle.c_process.specs.Standing.{IsCodeOf};
ghost use Rattle.c_process.specs.Values.{frame_number};
ghost use Rattle.nm_outside.specs.Causes.{BelongsTo};
ghost use Rattle.trace_file.specs.Content.{count_of};
ghost use Rattle.report.specs.Printing.{Prints};
ghost use Rattle.report.specs.Runs.{RunsProgram};
ghost use Rattle.report.specs.Replies as replies;
ghost use Rattle.debugger.specs.Looks.{value_of, output_of, clock_of, where_of, places_of};
ghost use Rattle.debugger.specs.Looks.{function_name, frame_text, frame_lines, frames_text, frames_in};
ghost use Rattle.debugger.specs.Looks.{messages_to, letter_line, mail_of, last_text};
ghost use Rattle.debugger.specs.private.Looking.{notice_of, HasFrames, text_if, letters_to, is_from};

use crate::latest::Latest;
use c_process::{CProc, LookFault};
use mailboxes::Mail;
use nm_base::{Letter, ProcNo};
use nm_outside::{Failed, Sink};
use processes::Proc;
use report::{
    Notice, clock_line, event_line, frame_line, notice_line, output_text, value_line, waiting_line,
    where_line,
};
use stack_code::Code;
use trace_file::Trace;
use world::World;

// What is replied where a name shows no value.
fn notice_of(fault: LookFault) -> Notice
    ensures { result ≡ notice_of fault }
{
    match fault {
        LookFault::NoName => Notice::NoName,
        LookFault::NeedsIndex => Notice::NeedsIndex,
        LookFault::NoIndex => Notice::NoIndex,
    }
}

/// `print P NAME` and `print P NAME I`: the value of a variable of the process.
pub(crate) fn put_value<'c, M: Mail, O: Sink>(
    out: &mut O,
    world: &World<CProc<'c>, M>,
    p: ProcNo,
    name: &[u8],
    index: Option<u32>,
) -> Result<(), Failed>
    requires { p.no < length world.now.processes }
    ensures text { (program : Program) (E : List Event) → RunsProgram world.now program E
        → Prints (O.given out.old) (O.given out.new) (O.faults out.old) (O.faults out.new)
        (value_of program (length world.now.processes) E p.no name.now index) result }
    ensures cause { BelongsTo (is_err result) (O.faults out.old) (O.faults out.new) }
{
    match world.seat(p).process().value(name, index) {
        Ok(seen) => value_line(out, name, index, seen.bits, seen.of),
        Err(fault) => notice_line(out, notice_of(fault)),
    }
}

/// `output P`: what the process printed.
pub(crate) fn put_output<'c, M: Mail, O: Sink>(
    out: &mut O,
    world: &World<CProc<'c>, M>,
    p: ProcNo,
) -> Result<(), Failed>
    requires { p.no < length world.now.processes }
    ensures text { (program : Program) (E : List Event) → RunsProgram world.now program E
        → Prints (O.given out.old) (O.given out.new) (O.faults out.old) (O.faults out.new)
        (output_of program (length world.now.processes) E p.no) result }
    ensures cause { BelongsTo (is_err result) (O.faults out.old) (O.faults out.new) }
{
    output_text(out, world.seat(p).process().output())
}

/// `clock P`: the clock of the process.
pub(crate) fn put_clock<'c, M: Mail, O: Sink>(
    out: &mut O,
    world: &World<CProc<'c>, M>,
    p: ProcNo,
) -> Result<(), Failed>
    requires { p.no < length world.now.processes }
    ensures text { (program : Program) (E : List Event) → RunsProgram world.now program E
        → Prints (O.given out.old) (O.given out.new) (O.faults out.old) (O.faults out.new)
        (clock_of program (length world.now.processes) E p.no) result }
    ensures cause { BelongsTo (is_err result) (O.faults out.old) (O.faults out.new) }
{
    clock_line(out, p.no, world.n(), world.clock(p))
}

// How a process stands, where it is, and how many of its recorded events it made.
fn put_place<'c, M: Mail, O: Sink>(
    out: &mut O,
    world: &World<CProc<'c>, M>,
    trace: &Trace,
    p: ProcNo,
) -> Result<(), Failed>
    requires process { p.no < length world.now.processes }
    requires count { p.no < trace.now.n }
    ensures text { (program : Program) (E : List Event) → RunsProgram world.now program E
        → Prints (O.given out.old) (O.given out.new) (O.faults out.old) (O.faults out.new)
        (where_of program (length world.now.processes) E (count_of trace.now) p.no) result }
    ensures cause { BelongsTo (is_err result) (O.faults out.old) (O.faults out.new) }
{
    let process = world.seat(p).process();
    let look = process.look();
    let line = process.line();
    where_line(out, p.no, look, line, world.count(p), trace.count(p))
}

/// `where`: the same for each process.
pub(crate) fn put_places<'c, M: Mail, O: Sink>(
    out: &mut O,
    world: &World<CProc<'c>, M>,
    trace: &Trace,
) -> Result<(), Failed>
    requires { length world.now.processes ≡ trace.now.n }
    ensures text { (program : Program) (E : List Event) → RunsProgram world.now program E
        → Prints (O.given out.old) (O.given out.new) (O.faults out.old) (O.faults out.new)
        (places_of program (length world.now.processes) E (count_of trace.now)) result }
    ensures cause { BelongsTo (is_err result) (O.faults out.old) (O.faults out.new) }
{
    for no in 0..world.n() {
        put_place(out, world, trace, ProcNo { no })?;
    }
    Ok(())
}

// The name of a function of the code.
fn function_name(code: &Code, function: u32) -> &[u8]
    ensures { (program : Program) → IsCodeOf program (seen_code code.now)
        → result.now ≡ function_name (slice_get program.functions function) }
{
    if function < code.functions() {
        code.function_name(function).as_bytes()
    } else {
        b""
    }
}

// A frame of the process.
fn put_frame<'c, O: Sink>(
    out: &mut O,
    code: &Code,
    process: &CProc<'c>,
    i: u32,
) -> Result<(), Failed>
    requires { i < frame_number process.now }
    ensures text { (program : Program) (frames : List FrameSeen)
        → HasFrames program (seen_code code.now) process.now frames
        → Prints (O.given out.old) (O.given out.new) (O.faults out.old) (O.faults out.new)
        (text_if (frame_text program i) (slice_get frames i)) result }
    ensures cause { BelongsTo (is_err result) (O.faults out.old) (O.faults out.new) }
{
    let frame = process.frame(i);
    frame_line(out, i, function_name(code, frame.function), frame.line)
}

// The frames, the innermost first.
fn put_each_frame<'c, O: Sink>(out: &mut O, code: &Code, process: &CProc<'c>) -> Result<(), Failed>
    ensures text { (program : Program) (frames : List FrameSeen)
        → HasFrames program (seen_code code.now) process.now frames
        → Prints (O.given out.old) (O.given out.new) (O.faults out.old) (O.faults out.new)
        (frame_lines program 0 frames) result }
    ensures cause { BelongsTo (is_err result) (O.faults out.old) (O.faults out.new) }
{
    for i in 0..process.frame_count() {
        put_frame(out, code, process, i)?;
    }
    Ok(())
}

// The frames, if there are any.
fn put_frames_of<'c, O: Sink>(out: &mut O, code: &Code, process: &CProc<'c>) -> Result<(), Failed>
    ensures text { (program : Program) (frames : List FrameSeen)
        → HasFrames program (seen_code code.now) process.now frames
        → Prints (O.given out.old) (O.given out.new) (O.faults out.old) (O.faults out.new)
        (frames_text program frames) result }
    ensures cause { BelongsTo (is_err result) (O.faults out.old) (O.faults out.new) }
{
    if process.frame_count() == 0 {
        notice_line(out, Notice::NoFrame)
    } else {
        put_each_frame(out, code, process)
    }
}

/// `frames P`: the calls of the process that haven't returned, the innermost first, with the names
/// that their functions have in the code.
pub(crate) fn put_frames<'c, M: Mail, O: Sink>(
    out: &mut O,
    world: &World<CProc<'c>, M>,
    code: &Code,
    p: ProcNo,
) -> Result<(), Failed>
    requires { p.no < length world.now.processes }
    ensures text { (program : Program) (E : List Event) → RunsProgram world.now program E
        → IsCodeOf program (seen_code code.now)
        → Prints (O.given out.old) (O.given out.new) (O.faults out.old) (O.faults out.new)
        (frames_in program (length world.now.processes) E p.no) result }
    ensures cause { BelongsTo (is_err result) (O.faults out.old) (O.faults out.new) }
{
    put_frames_of(out, code, world.seat(p).process())
}

// The first letter to the process that was posted at this number or later.
fn next_to<M: Mail>(mail: &M, p: ProcNo, start: u32) -> Option<&Letter>
    ensures { option_copied result ≡ find (is_from start) (letters_to p.no (M.letters mail.now)) }
{
    let mut from = start;
    while let Some(letter) = mail.next_from(from) {
        if letter.dest.no == p.no {
            return Some(letter);
        }
        from = letter.posted + 1;
    }
    None
}

// The letters that wait for the process, in the order of their sends.
fn put_letters<'c, M: Mail, O: Sink>(
    out: &mut O,
    world: &World<CProc<'c>, M>,
    p: ProcNo,
) -> Result<(), Failed>
    ensures text { (program : Program) (E : List Event) → RunsProgram world.now program E
        → Prints (O.given out.old) (O.given out.new) (O.faults out.old) (O.faults out.new)
        (flat_map (letter_line (length world.now.processes) E) (messages_to p.no (waiting E))) result }
    ensures cause { BelongsTo (is_err result) (O.faults out.old) (O.faults out.new) }
{
    let mail = world.mail();
    let mut from = 0;
    while let Some(letter) = next_to(mail, p, from) {
        waiting_line(out, world.n(), letter)?;
        from = letter.posted + 1;
    }
    Ok(())
}

/// `mail P`: the letters that wait for the process.
pub(crate) fn put_mail<'c, M: Mail, O: Sink>(
    out: &mut O,
    world: &World<CProc<'c>, M>,
    p: ProcNo,
) -> Result<(), Failed>
    ensures text { (program : Program) (E : List Event) → RunsProgram world.now program E
        → Prints (O.given out.old) (O.given out.new) (O.faults out.old) (O.faults out.new)
        (mail_of program (length world.now.processes) E p.no) result }
    ensures cause { BelongsTo (is_err result) (O.faults out.old) (O.faults out.new) }
{
    match next_to(world.mail(), p, 0) {
        None => notice_line(out, Notice::NoMail),
        Some(_) => put_letters(out, world, p),
    }
}

// One of the latest events.
fn put_event<O: Sink>(out: &mut O, latest: &Latest, i: usize) -> Result<(), Failed>
    ensures { Prints (O.given out.old) (O.given out.new) (O.faults out.old) (O.faults out.new)
        (text_if replies.event_line (slice_get latest.now i)) result }
{
    match latest.get(i) {
        None => Ok(()),
        Some(event) => event_line(out, &event),
    }
}

// The latest events, the oldest first.
fn put_events<O: Sink>(out: &mut O, latest: &Latest) -> Result<(), Failed>
    ensures { Prints (O.given out.old) (O.given out.new) (O.faults out.old) (O.faults out.new)
        (flat_map replies.event_line latest.now) result }
{
    for i in 0..latest.len() {
        put_event(out, latest, i)?;
    }
    Ok(())
}

/// `last`: the events that were made last.
pub(crate) fn put_last<O: Sink>(out: &mut O, latest: &Latest) -> Result<(), Failed>
    ensures { Prints (O.given out.old) (O.given out.new) (O.faults out.old) (O.faults out.new)
        (last_text latest.now) result }
{
    if latest.len() == 0 {
        notice_line(out, Notice::NoEvent)
    } else {
        put_events(out, latest)
    }
}
