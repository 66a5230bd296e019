//! The top call.

ghost use Rattle.std.specs.Prelude.{◌≡◌, ◌≢◌, ◌⊎◌, ℕ, map, IfSome, IsTrue, None, Some};
ghost use Rattle.nm_outside.specs.Causes.{Rose};
ghost use Rattle.nm_top.specs.declared.status.Status.{Status};
ghost use Rattle.nm_top.specs.Commands.{AsksInput, TakesInput, command_of, texts};
ghost use Rattle.nm_top.specs.Statuses.{is_of_files};
ghost use Rattle.nm_top.specs.Headline.{Headline};
ghost use Rattle.nm_top.specs.Lines.{ReadFails, PrintsLine};
ghost use Rattle.nm_top.specs.Replies.{Answers, Breaks, KeepsOthers, Owed};
ghost use Rattle.nm_top.specs.Answers.{Answer, Due, EndsWith, IsOwnRefusal, MayBreak, Overfills, Ready, RefusesOwn, Suffices, written_by};
ghost use Rattle.nm_top.specs.Debugging.{TakesTooMany};
ghost use Rattle.nm_top.specs.Watches.{call, given};
ghost use Rattle.nm_top.specs.Heard.{AreTold, HearsAny};
ghost use Rattle.nm_top.specs.private.Named.{IsInRange, named};
ghost use Rattle.nm_top.specs.private.Works.{CarriesOut, outside};
ghost use Rattle.nm_top.specs.private.Top.{Does};

use crate::certify::certify;
use crate::debug::debug;
use crate::finish::finish;
use crate::record::{Recording, record};
use crate::replay::replay;
use crate::run::run;
use crate::soak::soak;
use crate::status::Status;
use crate::stop::Stop;
use crate::tell::tell;
use crate::upgrade::upgrade;
use crate::words::{Command, command_in};
use nm_outside::{Cabinet, Sink, Source};
use report::Refusal;
use std::alloc::Global;
use watchers::Watcher;

// Carries out a command.
fn carry_out<C: Cabinet, I: Source, O: Sink, W: Watcher>(
    alloc: Global,
    command: Command<'_>,
    files: &mut C,
    input: &mut I,
    out: &mut O,
    watch: &mut Vec<W>,
) -> Status
    requires { IsInRange command }
    ensures carries { CarriesOut (call (I.left input.old) (given (map W.watched watch.old.items)
        (map W.watched watch.new.items)))
        (named command.entry)
        (outside (C.files files.old) (C.absents files.old) (C.read_faults files.old) (C.write_faults files.old)
        (C.sure_room files.old) (O.given out.old) (O.faults out.old))
        (outside (C.files files.new) (C.absents files.new) (C.read_faults files.new) (C.write_faults files.new)
        (C.sure_room files.new) (O.given out.new) (O.faults out.new))
        (I.faults input.old) (I.faults input.new) result }
    ensures told { IfSome (C.files files.old) (λ held. HearsAny (named command.entry) held result
        (given (map W.watched watch.old.items) (map W.watched watch.new.items))) }
    ensures own { IsOwnRefusal (named command.entry) result }
    ensures input { ¬ TakesInput (named command.entry) → (I.left input.new ≡ I.left input.old)
        × (I.taken input.new ≡ I.taken input.old) × (I.faults input.new ≡ I.faults input.old) }
    ensures full { result ≡ Status.InputFull → TakesTooMany (I.taken input.old) (I.taken input.new) }
{
    match command {
        Command::Run {
            program,
            processes,
            schedule,
            mask,
        } => run(alloc, program, processes, schedule, mask, files, out),
        Command::Record {
            program,
            processes,
            schedule,
            trace,
            version,
            mask,
        } => {
            let to = Recording {
                trace,
                version,
                mask,
            };
            record(alloc, program, processes, schedule, to, files, out)
        }
        Command::Replay {
            program,
            trace,
            schedule,
        } => replay(alloc, program, trace, schedule, files, out, watch),
        Command::Finish { program, trace } => finish(alloc, program, trace, files, out, watch),
        Command::Certify { program, trace } => certify(alloc, program, trace, files, out),
        Command::Debug { program, trace } => {
            debug(alloc, program, trace, files, input, out, watch)
        }
        Command::Upgrade { trace, new } => upgrade(alloc, trace, new, files, out),
        Command::Soak { seed } => soak(alloc, seed, out),
    }
}

// Carries out the command that the words name.
fn work<C: Cabinet, I: Source, O: Sink, W: Watcher>(
    alloc: Global,
    words: &[String],
    files: &mut C,
    input: &mut I,
    out: &mut O,
    watch: &mut Vec<W>,
) -> Status
    ensures does { Does (call (I.left input.old) (given (map W.watched watch.old.items)
        (map W.watched watch.new.items))) (texts words.now)
        (outside (C.files files.old) (C.absents files.old) (C.read_faults files.old) (C.write_faults files.old)
        (C.sure_room files.old) (O.given out.old) (O.faults out.old))
        (outside (C.files files.new) (C.absents files.new) (C.read_faults files.new) (C.write_faults files.new)
        (C.sure_room files.new) (O.given out.new) (O.faults out.new))
        (I.faults input.old) (I.faults input.new) result }
    ensures input { ¬ AsksInput (texts words.now) → (I.left input.new ≡ I.left input.old)
        × (I.taken input.new ≡ I.taken input.old) × (I.faults input.new ≡ I.faults input.old) }
    ensures full { result ≡ Status.InputFull → TakesTooMany (I.taken input.old) (I.taken input.new) }
{
    match command_in(words) {
        Some(command) => carry_out(alloc, command, files, input, out, watch),
        None => tell(out, &Stop::Refused(Refusal::Usage)),
    }
}

/// Does all that the tool does: carries out the command that the words name over these files, takes a debugger's lines
/// from this input, prints to this sink, tells these watchers of the events of a replay, and answers the status.
pub fn racetrace<C: Cabinet, I: Source, O: Sink, W: Watcher>(
    alloc: Global,
    words: &[String],
    files: &mut C,
    input: &mut I,
    out: &mut O,
    watch: &mut Vec<W>,
) -> Status
    // What is answered and printed, and what the files are then, is the answer that is defined for the
    // words and the files that are told, unless a write failed.
    ensures answer { Answers (Answer (call (I.left input.old) (given (map W.watched watch.old.items)
        (map W.watched watch.new.items)))
        (texts words.now)) (C.files files.old) (C.files files.new) (O.given out.old) (O.given out.new) result }

    // Usage comes exactly where no command has these words. Each refusal gives way to a write fault.
    ensures usage { result ≡ Status.Usage → command_of (texts words.now) ≡ None }
    ensures no_command { command_of (texts words.now) ≡ None → (result ≡ Status.Usage) ⊎ (result ≡ Status.WriteFault) }

    // A status that refuses what files hold (one is absent, or too long, or something that is demanded of them isn't
    // met) comes exactly where it is that of the command's first demand which isn't met.
    ensures refused { IsTrue (is_of_files result) → IfSome (C.files files.old) (Due result (texts words.now)) }
    ensures owed { IfSome (C.files files.old) (λ held. (due : Status) → Due due (texts words.now) held
        → Owed (λ s. s ≡ due) (C.read_faults files.old) (C.read_faults files.new) (I.faults input.old)
        (I.faults input.new)
        (C.write_faults files.old) (C.write_faults files.new) (O.faults out.old) (O.faults out.new) result) }

    // `soak` refuses the program of its own only where the text of that is the text of no program: also where the
    // files aren't told.
    ensures own { RefusesOwn (texts words.now) result }

    // Absent comes exactly where a file wasn't found.
    ensures absent { result ≡ Status.Absent → Rose (C.absents files.old) (C.absents files.new) }
    ensures no_absent { result ≢ Status.Absent → result ≢ Status.WriteFault
        → C.absents files.new ≡ C.absents files.old }

    // ReadFault comes exactly where a read of a file failed, and then it has the line of this file, or a take of the
    // input, and then it has the input's line after the replies.
    ensures read_fault { result ≡ Status.ReadFault → ReadFails (texts words.now) (C.read_faults files.old)
        (C.read_faults files.new) (I.faults input.old) (I.faults input.new) (O.given out.old) (O.given out.new) }
    ensures no_read_fault { result ≢ Status.ReadFault → result ≢ Status.WriteFault
        → C.read_faults files.new ≡ C.read_faults files.old }
    ensures no_take_fault { result ≢ Status.ReadFault → result ≢ Status.WriteFault
        → I.faults input.new ≡ I.faults input.old }

    // Input is taken for `debug` alone. InputFull comes only where its limit was taken and a byte more: there it passes
    // the limit before it ends and before a newline ends a line `quit`.
    ensures input { ¬ AsksInput (texts words.now) → (I.left input.new ≡ I.left input.old)
        × (I.taken input.new ≡ I.taken input.old) × (I.faults input.new ≡ I.faults input.old) }
    ensures overfull { result ≡ Status.InputFull
        → IfSome (C.files files.old) (λ held. IfSome (I.left input.old) (Overfills (texts words.now) held)) }
    ensures full { result ≡ Status.InputFull → TakesTooMany (I.taken input.old) (I.taken input.new) }

    // WriteFault comes exactly where a put, or a write to a file, failed. After a failed put a part, from its front, of
    // what would have been printed was; after a failed write to a file nothing was, and the file isn't begun or is a
    // front of its bytes. No write to a file fails where the cabinet is sure of enough room.
    ensures write_fault { result ≡ Status.WriteFault
        → Rose (C.write_faults files.old) (C.write_faults files.new) ⊎ Rose (O.faults out.old) (O.faults out.new) }
    ensures no_file_fault { result ≢ Status.WriteFault → C.write_faults files.new ≡ C.write_faults files.old }
    ensures no_write_fault { result ≢ Status.WriteFault → O.faults out.new ≡ O.faults out.old }
    ensures sure { IfSome (C.files files.old) (λ held. (room : ℕ) → C.sure_room files.old ≡ Some room
        → Suffices (texts words.now) held room → C.write_faults files.new ≡ C.write_faults files.old) }
    ensures breaks { result ≡ Status.WriteFault
        → Breaks (Answer (call (I.left input.old) (given (map W.watched watch.old.items)
        (map W.watched watch.new.items))) (texts words.now))
        (MayBreak (texts words.now)) (C.read_faults files.old) (C.read_faults files.new) (I.faults input.old)
        (I.faults input.new) (C.files files.old) (C.files files.new) (O.given out.old) (O.given out.new) }

    // A refusal prints its one line, which names a file that the command fetches, or is of a debugger's input and
    // comes after its replies; and want of memory prints nothing, but for a recording's line, certificates and
    // replies. So it is also where the files aren't told.
    ensures line { PrintsLine (texts words.now) result (O.given out.old) (O.given out.new) }

    // A command whose demands are met is done, but for a debugger whose input passes its limit: it finds that full.
    ensures complete { IfSome (C.files files.old) (λ held. Ready (texts words.now) held
        → Owed (EndsWith (call (I.left input.old) (given (map W.watched watch.old.items)
        (map W.watched watch.new.items))) (texts words.now) held) (C.read_faults files.old)
        (C.read_faults files.new) (I.faults input.old) (I.faults input.new) (C.write_faults files.old)
        (C.write_faults files.new) (O.faults out.old) (O.faults out.new) result) }

    // Where the files hold the trace of a recorded run of the program that they hold, `replay`, `certify` and `debug`
    // are done, faults and want of memory aside. Each replay, and each session whatever its lines are, makes a front of
    // what each process did in the recorded run, its events, states and output, with the same letter at each receive;
    // a replay without a schedule comes to the recorded counts. A certificate is printed for each letter that is logged
    // in that run: another run, which keeps both causal pasts, and in which the last earlier receive that could have
    // accepted the letter accepts it.
    ensures headline { IfSome (C.files files.old) (λ held. Headline
        (call (I.left input.old) (given (map W.watched watch.old.items) (map W.watched watch.new.items)))
        (texts words.now) held
        (C.read_faults files.old) (C.read_faults files.new) (I.faults input.old) (I.faults input.new)
        (C.write_faults files.old) (C.write_faults files.new) (O.faults out.old) (O.faults out.new) (O.given out.old)
        (O.given out.new) result) }

    // The watchers were told of the events of the replay that was made, each once and in order; with no other words
    // were they told of any. Those that lacked memory, none of them steady, are out.
    ensures told { IfSome (C.files files.old) (λ held. AreTold (texts words.now) held result
        (given (map W.watched watch.old.items) (map W.watched watch.new.items))) }

    // No file changes but the one that the command writes.
    ensures keeps { KeepsOthers (written_by (texts words.now)) (C.files files.old) (C.files files.new) }
{
    work(alloc, words, files, input, out, watch)
}
