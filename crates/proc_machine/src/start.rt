//! The beginning of a run.

ghost use Rattle.std.specs.Prelude.{◌≡◌, ℕ, [], IfOk};
ghost use Rattle.stack_code.specs.View.{seen_code};
ghost use Rattle.proc_machine.specs.private.Kept.{IsFresh};
ghost use Rattle.proc_machine.specs.private.Start.{IsCalled};

use crate::call_stack::CallStack;
use crate::callers::Frame;
use crate::execution::Execution;
use crate::heights::greatest_height;
use crate::scratch::Scratch;
use crate::words::{WORDS_LIMIT, Words};
use nm_base::WantOfMemory;
use stack_code::Code;
use std::alloc::Global;

/// More instructions than this no function may have.
const LONGEST: usize = 1 << 30;

impl Execution {
    /// The data of a process before `main` is called.
    pub(crate) fn fresh(alloc: Global, code: &Code) -> Result<Execution, WantOfMemory>
        ensures { IfOk result (IsFresh (seen_code code.now)) }
    {
        if code.longest() >= LONGEST {
            return Err(WantOfMemory);
        }
        let calls = CallStack::with_room(alloc, greatest_height(code))?;
        let words = Words::from_slice(alloc, code.globals())?;
        let scratch = Scratch::new(alloc)?;
        Ok(Execution {
            frame: Frame {
                function: code.main(),
                start: code.start(code.main()),
                place: 0,
                line: code.main_line(),
                base: words.len() as u32,
            },
            calls,
            words,
            letter: None,
            output: Vec::new(alloc),
            sent: 0,
            scratch,
        })
    }

    /// Calls `main`, if there is room for its frame.
    pub(crate) fn call_main(&mut self, code: &Code) -> bool
        requires { IsFresh (seen_code code.now) self.old }
        ensures { IsCalled (seen_code code.now) self.old self.new result }
    {
        let size = code.frame(self.frame.function).frame_words;
        if self.words.len() + size as usize > WORDS_LIMIT {
            return false;
        }
        self.words.open(&[], size);
        true
    }
}
