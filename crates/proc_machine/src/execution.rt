//! Where a process is in its code, with its data.

use crate::call_stack::CallStack;
use crate::callers::Frame;
use crate::scratch::Scratch;
use crate::words::Words;
use nm_base::{Letter, ProcNo, WantOfMemory};
use stack_code::Code;
use std::alloc::Global;

/// What a process runs, as which of how many.
#[derive(Clone, Copy)]
pub(crate) struct Setting<'c> {
    pub code: &'c Code,
    pub me: ProcNo,
    pub count: u8,
}

/// A process that runs: the innermost call, those round it with all operands, the words of the
/// variables, the last letter that was accepted, the output, and how many letters were sent.
#[derive(Drop)]
pub(crate) struct Execution {
    pub frame: Frame,
    pub calls: CallStack,
    pub words: Words,
    pub letter: Option<Letter>,
    pub output: Vec<u8>,
    pub sent: u32,
    pub scratch: Scratch,
}

impl Execution {
    ghost use Rattle.std.specs.Prelude.{IfOk};
    ghost use Rattle.proc_machine.specs.private.Alike.{IsAlike};

    /// The same, with as much memory for operands, words and callers.
    pub(crate) fn copy(&self, alloc: Global) -> Result<Execution, WantOfMemory>
        ensures { IfOk result (IsAlike self.now) }
    {
        let calls = self.calls.copy(alloc)?;
        let words = self.words.copy(alloc)?;
        let scratch = Scratch::new(alloc)?;
        let mut output = Vec::new(alloc);
        output.extend_from_slice(self.output.as_slice())?;
        Ok(Execution {
            frame: self.frame,
            calls,
            words,
            letter: self.letter,
            output,
            sent: self.sent,
            scratch,
        })
    }
}
