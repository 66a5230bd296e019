//! Instructions on calls, letters and output.

ghost use Rattle.std.specs.Prelude.{◌≡◌, ℕ, ◌+◌, ◌-◌, ◌<◌, ◌≤◌, ◌^◌, ◌∷◌, length, slice_index, Some, None, IfOk};
ghost use Rattle.stack_code.specs.declared.instr.Instr.TheVariants as instr;
ghost use Rattle.stack_code.specs.View.{seen_code};
ghost use Rattle.proc_machine.specs.private.Ready.{IsReady};
ghost use Rattle.proc_machine.specs.private.Moves.{opened};
ghost use Rattle.proc_machine.specs.private.Outcomes.{word_in};
ghost use Rattle.proc_machine.specs.private.AtSetting.{MovesAt};
ghost use Rattle.nm_base.specs.Message.{message_of};
ghost use Rattle.nm_base.specs.declared.limits.TheConstants.{MAX_DATA_WORDS};

use crate::callers::Frame;
use crate::execution::{Execution, Setting};
use crate::pause::Pause;
use crate::words::WORDS_LIMIT;
use nm_base::{FaultCause, Letter, as_int};
use stack_code::FunctionFrame;

impl Execution {
    /// Stands before the event of this line.
    pub(crate) fn at_line(&mut self, at: Setting<'_>, line: u32) -> Option<Pause>
        requires { IsReady (seen_code at.code.now) (instr.Line line) self.old }
        ensures { MovesAt at.entry (instr.Line line) self.old self.new result }
    {
        Some(Pause::Line { line })
    }

    /// Opens a frame for the function, or stands before a fault where the calls or the data are full.
    pub(crate) fn call(&mut self, at: Setting<'_>, function: u32) -> Option<Pause>
        requires { IsReady (seen_code at.code.now) (instr.Call function) self.old }
        ensures { MovesAt at.entry (instr.Call function) self.old self.new result }
    {
        let frame = at.code.frame(function);
        if self.calls.callers() + 1 >= 256 {
            return Some(Pause::Fault {
                cause: FaultCause::DepthFull,
            });
        }
        if self.words.len() + frame.frame_words as usize > WORDS_LIMIT {
            return Some(Pause::Fault {
                cause: FaultCause::DataFull,
            });
        }
        self.open_frame(function, at.code.start(function), frame);
        None
    }

    /// Makes the frame of a call, where there is room for it.
    fn open_frame(&mut self, function: u32, start: u32, frame: FunctionFrame)
        requires few { frame.param_words ≤ length self.old.calls.own }
        requires words { (j : ℕ) → j < frame.param_words → slice_index self.old.calls.own j < 2 ^ 32 }
        requires height { length self.old.calls.own < self.old.calls.height }
        requires depth { length self.old.calls.callers < 255 }
        requires room { length self.old.words + frame.frame_words ≤ MAX_DATA_WORDS }
        requires further { self.old.frame.place + 1 < 2 ^ 32 }
        ensures { self.new ≡ opened function start frame self.old }
    {
        let base = self.words.len() as u32;
        let params = frame.param_words as usize;
        self.words.open(self.calls.last(params), frame.frame_words);
        self.calls.discard(params);
        self.calls.enter(self.frame);
        self.frame = Frame {
            function,
            start,
            place: 0,
            line: frame.line,
            base,
        };
    }

    /// Leaves the frame with the topmost operand as the value of its call. The outermost frame stays:
    /// it stands before the end.
    pub(crate) fn give_back(&mut self, at: Setting<'_>) -> Option<Pause>
        requires { IsReady (seen_code at.code.now) instr.Return self.old }
        ensures { MovesAt at.entry instr.Return self.old self.new result }
    {
        let value = self.calls.top(0);
        match self.calls.leave() {
            None => Some(Pause::End {
                value: as_int(value as u32),
            }),
            Some(caller) => {
                self.calls.push(value);
                self.words.close(self.frame.base);
                self.frame = caller.frame;
                self.frame.place += 1;
                None
            }
        }
    }

    /// A word of the last letter takes the place of its number, or it stands before a fault where there
    /// is no such word.
    pub(crate) fn letter_word(&mut self, at: Setting<'_>) -> Option<Pause>
        requires { IsReady (seen_code at.code.now) instr.Word self.old }
        ensures { MovesAt at.entry instr.Word self.old self.new result }
    {
        let i = self.calls.top(0);
        let value = match &self.letter {
            None => Err(FaultCause::NoLetter),
            Some(letter) => letter_word(letter, i),
        };
        self.give(1, value)
    }

    /// Pushes how many words the last letter has, or stands before a fault where there is no letter.
    pub(crate) fn letter_words(&mut self, at: Setting<'_>) -> Option<Pause>
        requires { IsReady (seen_code at.code.now) instr.Words self.old }
        ensures { MovesAt at.entry instr.Words self.old self.new result }
    {
        let value = match &self.letter {
            None => Err(FaultCause::NoLetter),
            Some(letter) => Ok(letter_length(letter)),
        };
        self.give(0, value)
    }

    /// Pushes who sent the last letter, or stands before a fault where there is no letter.
    pub(crate) fn letter_from(&mut self, at: Setting<'_>) -> Option<Pause>
        requires { IsReady (seen_code at.code.now) instr.From self.old }
        ensures { MovesAt at.entry instr.From self.old self.new result }
    {
        let value = match &self.letter {
            None => Err(FaultCause::NoLetter),
            Some(letter) => Ok(u64::from(letter.id.sender.no)),
        };
        self.give(0, value)
    }

    /// Pushes the channel of the last letter, or stands before a fault where there is no letter.
    pub(crate) fn letter_via(&mut self, at: Setting<'_>) -> Option<Pause>
        requires { IsReady (seen_code at.code.now) instr.Via self.old }
        ensures { MovesAt at.entry instr.Via self.old self.new result }
    {
        let value = match &self.letter {
            None => Err(FaultCause::NoLetter),
            Some(letter) => Ok(u64::from(letter.chan)),
        };
        self.give(0, value)
    }
}

/// How many words a letter has.
fn letter_length(letter: &Letter) -> u64
    ensures same { result ≡ length (message_of letter.now).words }
    ensures within { result ≤ 8 }
{
    u64::from(letter.len).min(8)
}

/// A word of a letter, where there is one.
fn letter_word(letter: &Letter, i: u64) -> Result<u64, FaultCause>
    ensures same { result ≡ word_in (message_of letter.now) i }
    ensures within { IfOk result (λ word. word < 2 ^ 32) }
{
    if i < letter_length(letter) {
        Ok(u64::from(letter.words[i as usize]))
    } else {
        Err(FaultCause::NoLetter)
    }
}
