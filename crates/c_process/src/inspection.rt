//! What a debugger reads of a process: it takes no memory, and changes nothing.

ghost use Rattle.std.specs.Prelude.{◌≡◌, ◌<◌, ◌^◌, ℕ, List, [], length, slice_get, slice_index, Some, IfSome};
ghost use Rattle.nm_base.specs.Message.{Message};
ghost use Rattle.nm_base.specs.Scripts.{Script};
ghost use Rattle.c_tree.specs.declared.program.Program.{Program};
ghost use Rattle.c_tree.specs.NameLookup.{seen_scalar, seen_array};
ghost use Rattle.proc_machine.specs.Machines.{state_of};
ghost use Rattle.c_process.specs.Standing.{IsCodeOf};
ghost use Rattle.c_process.specs.Values.{answered, frame_number, frames_after, next_line_after, value_after, global_after};
ghost use Rattle.c_process.specs.private.Found.{seen_found, place_found, array_found};

use crate::answers::{FrameSeen, LookFault, Seen};
use crate::process::CProc;
use nm_base::Ctype;
use proc_machine::Pause;
use processes::Proc;
use stack_code::{Found, Home};

impl<'c> CProc<'c> {
    /// The value of the variable of that name, or of the element of that index. The name is looked
    /// up in the blocks that the innermost frame has entered, the innermost first, then among that
    /// frame's parameters, then among the globals; without a frame among the globals alone.
    pub fn value(&self, name: &[u8], index: Option<u32>) -> Result<Seen, LookFault>
        ensures { (p : Program) (s : Script) (letters : List Message) (k : ℕ)
            → IsCodeOf p (⟦<CProc<'c> as Proc>⟧.origin_of self.now).0
            → ⟦<CProc<'c> as Proc>⟧.stands_for self.now s letters k
            → result ≡ answered
            (value_after p (⟦<CProc<'c> as Proc>⟧.origin_of self.now).1
            (⟦<CProc<'c> as Proc>⟧.name_of self.now).no letters k name.now index) }
    {
        if self.machine.frame_count() == 0 {
            return self.global(name, index);
        }
        let frame = self.machine.frame(0);
        match self.code.seek(Some(frame.at), name) {
            None => Err(LookFault::NoName),
            Some(found) => self.show(found, frame.base, index),
        }
    }

    /// The same among the globals alone.
    pub fn global(&self, name: &[u8], index: Option<u32>) -> Result<Seen, LookFault>
        ensures { (p : Program) (s : Script) (letters : List Message) (k : ℕ)
            → IsCodeOf p (⟦<CProc<'c> as Proc>⟧.origin_of self.now).0
            → ⟦<CProc<'c> as Proc>⟧.stands_for self.now s letters k
            → result ≡ answered
            (global_after p (⟦<CProc<'c> as Proc>⟧.origin_of self.now).1
            (⟦<CProc<'c> as Proc>⟧.name_of self.now).no letters k name.now index) }
    {
        match self.code.seek(None, name) {
            None => Err(LookFault::NoName),
            Some(found) => self.show(found, 0, index),
        }
    }

    /// The line of the next event where that is a Line.
    pub fn next_line(&self) -> Option<u32>
        ensures { (p : Program) (s : Script) (letters : List Message) (k : ℕ)
            → IsCodeOf p (⟦<CProc<'c> as Proc>⟧.origin_of self.now).0
            → ⟦<CProc<'c> as Proc>⟧.stands_for self.now s letters k
            → result ≡ next_line_after p (⟦<CProc<'c> as Proc>⟧.origin_of self.now).1
            (⟦<CProc<'c> as Proc>⟧.name_of self.now).no letters k }
    {
        match self.machine.pending() {
            Pause::Line { line } => Some(line),
            _ => None,
        }
    }

    /// How many calls haven't returned.
    pub fn frame_count(&self) -> u32
        ensures same { result ≡ frame_number self.now }
        ensures means { (p : Program) (s : Script) (letters : List Message) (k : ℕ)
            → IsCodeOf p (⟦<CProc<'c> as Proc>⟧.origin_of self.now).0
            → ⟦<CProc<'c> as Proc>⟧.stands_for self.now s letters k
            → result ≡ length (frames_after p (⟦<CProc<'c> as Proc>⟧.origin_of self.now).1
            (⟦<CProc<'c> as Proc>⟧.name_of self.now).no letters k) }
    {
        self.machine.frame_count()
    }

    /// The frame of that number, 0 the innermost; `i` is below `frame_count`. The line of the
    /// innermost is the process's, that of an outer one is of its last Line event.
    pub fn frame(&self, i: u32) -> FrameSeen
        requires { i < frame_number self.now }
        ensures { (p : Program) (s : Script) (letters : List Message) (k : ℕ)
            → IsCodeOf p (⟦<CProc<'c> as Proc>⟧.origin_of self.now).0
            → ⟦<CProc<'c> as Proc>⟧.stands_for self.now s letters k
            → slice_get
            (frames_after p (⟦<CProc<'c> as Proc>⟧.origin_of self.now).1
            (⟦<CProc<'c> as Proc>⟧.name_of self.now).no letters k) i ≡ Some result }
    {
        let frame = self.machine.frame(i);
        let line = if i == 0 { self.line() } else { frame.line };
        FrameSeen {
            function: frame.at.function,
            line,
        }
    }

    /// The value of a variable that was found, where the innermost frame's words begin at this place.
    fn show(&self, found: Found, base: u32, index: Option<u32>) -> Result<Seen, LookFault>
        ensures { result ≡ answered (seen_found (state_of self.now.machine.value []).words base found index) }
    {
        let place = place_in(found, base);
        match self.array_at(found, place) {
            None => self.scalar(place, found.of, index),
            Some((first, length)) => self.element(first, length, found.of, index),
        }
    }

    /// The place of an array's first word and its length, if the variable at this place is one.
    fn array_at(&self, found: Found, place: u64) -> Option<(u64, u32)>
        requires { place < 2 ^ 33 }
        ensures same { result ≡ array_found (state_of self.now.machine.value []).words found place }
        ensures small { IfSome result (λ a. a.0 < 2 ^ 33) }
    {
        match found.home {
            Home::ArrayParam => Some((u64::from(self.word(place)), self.word(place + 1))),
            _ => match found.length {
                None => None,
                Some(length) => Some((place, length)),
            },
        }
    }

    fn scalar(&self, place: u64, of: Ctype, index: Option<u32>) -> Result<Seen, LookFault>
        ensures { result ≡ answered (seen_scalar (state_of self.now.machine.value []).words place of index) }
    {
        match index {
            None => Ok(Seen {
                bits: self.word(place),
                of,
            }),
            Some(_) => Err(LookFault::NoIndex),
        }
    }

    fn element(
        &self,
        first: u64,
        length: u32,
        of: Ctype,
        index: Option<u32>,
    ) -> Result<Seen, LookFault>
        requires { first < 2 ^ 33 }
        ensures { result ≡ answered (seen_array (state_of self.now.machine.value []).words first length of index) }
    {
        match index {
            None => Err(LookFault::NeedsIndex),
            Some(i) => {
                if i < length {
                    Ok(Seen {
                        bits: self.word(first + u64::from(i)),
                        of,
                    })
                } else {
                    Err(LookFault::NoIndex)
                }
            }
        }
    }

    /// The word at a place, and 0 past the last.
    fn word(&self, place: u64) -> u32
        ensures { result ≡ slice_index (state_of self.now.machine.value []).words place }
    {
        if place < u64::from(self.machine.words()) {
            self.machine.word(place as u32)
        } else {
            0
        }
    }
}

/// The place of a variable's first word, where the innermost frame's words begin at this place.
fn place_in(found: Found, base: u32) -> u64
    ensures same { result ≡ place_found base found }
    ensures small { result < 2 ^ 33 }
{
    match found.home {
        Home::Global => u64::from(found.slot),
        _ => u64::from(base) + u64::from(found.slot),
    }
}
