//! Code, with what serves to look at a run of it.

ghost use Rattle.std.specs.Prelude.{IsTrue};
ghost use Rattle.std.specs.List.{list_all};
ghost use Rattle.stack_code.specs.Blocks.{view_of, is_kept};
ghost use Rattle.stack_code.specs.Layout.{laid_view, is_laid_out};
ghost use Rattle.stack_code.specs.Valid.{IsSound, is_within};

use crate::instr::Instr;
use crate::layout::Layout;
use crate::seek::{CodePlace, Found, global_found, named};
use nm_base::{Bytes, Ctype, List, WantOfMemory};
use std::alloc::Global;

/// What the call of a function needs to know of it.
#[derive(Clone, Copy, Debug, PartialEq, Eq)]
pub struct FunctionFrame {
    /// The line of its name.
    pub line: u32,
    /// How many operands a call takes: 1 for a scalar parameter, 2 for an array parameter.
    pub param_words: u32,
    /// The words of a frame, those of the parameters first.
    pub frame_words: u32,
}

/// A block, by the number of the one round it and its locals' slots. Blocks are numbered from 1,
/// each after the one round it; 0 is outside all blocks.
#[derive(Drop)]
pub struct Block {
    pub outer: u32,
    pub slots: Vec<u32>,
}

/// A global, a parameter or a local, by the place of its first word among the globals or in the frame.
#[derive(Drop)]
pub struct Variable {
    pub name: Bytes,
    pub of: Ctype,
    pub length: Option<u32>,
    pub array_param: bool,
    pub place: u32,
}

/// A function with its code, from which `Code::new` makes code.
#[derive(Drop)]
pub struct CodeFunction {
    pub name: String,
    /// The line of its name.
    pub line: u32,
    pub param_words: u32,
    pub frame_words: u32,
    pub instrs: Vec<Instr>,
    /// The number of the innermost block round each instruction.
    pub inside: Vec<u32>,
    pub blocks: Vec<Block>,
    /// How many of the slots are parameters.
    pub param_count: u32,
    /// The parameters, and then the locals.
    pub slots: Vec<Variable>,
}

/// Code that a machine can run without a test of its own: jumps lead to instructions of their
/// function, a jump back leads to a Line, every function begins with one, and whatever way control
/// takes, each instruction finds the operands that it takes. The instructions of all functions stand
/// in one list.
#[derive(Drop)]
pub struct Code {
    pub(crate) layout: Layout,
    pub(crate) main: u32,
    pub(crate) texts: List<Bytes>,
    /// Their first words.
    pub(crate) globals: Vec<u32>,
    pub(crate) variables: Vec<Variable>,
    pub ghost sound: { ∥ IsSound (laid_view layout main texts globals.items variables.items) ∥₁ },
    pub ghost within: { IsTrue (is_within (laid_view layout main texts globals.items variables.items)) },
    pub ghost laid: { IsTrue (is_laid_out layout.functions.items layout.instrs.items layout.inside.items) },
}

impl Code {
    ghost use Rattle.std.specs.Prelude.{◌≡◌, ℕ, ◌<◌, ◌≤◌, length, Some, slice_get, option_map, IfOk};
    ghost use Rattle.stack_code.specs.View.{seen_code};
    ghost use Rattle.stack_code.specs.Seek.{found, found_at, found_global, IsPlaceIn};
    ghost use Rattle.stack_code.specs.Code.{steps_of};
    ghost use Rattle.stack_code.specs.Together.{all_steps, start_of};
    ghost use Rattle.stack_code.specs.Frame.{frame_of};

    /// Lays the functions' code out, one behind the other, and keeps the other parts. All must be
    /// valid. `WantOfMemory` also answers more than 4,294,967,295 instructions in all.
    pub fn new(
        alloc: Global,
        functions: Vec<CodeFunction>,
        main: u32,
        texts: List<Bytes>,
        globals: Vec<u32>,
        variables: Vec<Variable>,
    ) -> Result<Code, WantOfMemory>
        requires sound { ∥ IsSound (view_of functions.items main texts globals.items variables.items) ∥₁ }
        requires within { IsTrue (is_within (view_of functions.items main texts globals.items variables.items)) }
        requires kept { IsTrue (list_all is_kept functions.items) }
        ensures { IfOk result
            (λ code. seen_code code ≡ view_of functions.items main texts globals.items variables.items) }
    {
        let layout = Layout::of(alloc, functions)?;
        Ok(Code {
            layout,
            main,
            texts,
            globals,
            variables,
        })
    }

    /// The number of functions.
    pub fn functions(&self) -> u32
        ensures { result ≡ length (seen_code self.now).functions }
    {
        self.layout.functions.len() as u32
    }

    /// The name of a function; `i` is below `functions`.
    pub fn function_name(&self, i: u32) -> &str
        requires { i < length (seen_code self.now).functions }
        ensures { option_map (λ f. f.name) (slice_get (seen_code self.now).functions i) ≡ Some result.now }
    {
        self.layout.functions[i as usize].name.as_str()
    }

    /// The line of `main`'s name.
    pub fn main_line(&self) -> u32
        ensures { option_map (λ f. f.line) (slice_get (seen_code self.now).functions (seen_code self.now).main)
            ≡ Some result }
    {
        self.layout.functions[self.main as usize].line
    }

    /// The number of `main`.
    pub fn main(&self) -> u32
        ensures { result ≡ (seen_code self.now).main }
    {
        self.main
    }

    /// The words of the globals at the start.
    pub fn globals(&self) -> &[u32]
        ensures { result.now ≡ (seen_code self.now).globals }
    {
        self.globals.as_slice()
    }

    /// The bytes of a text of `printf`; `i` is below the number of texts.
    pub fn text(&self, i: u32) -> &[u8]
        requires { i < length (seen_code self.now).texts }
        ensures { slice_get (seen_code self.now).texts i ≡ Some result.now }
    {
        self.texts.as_slice()[i as usize].as_slice()
    }

    /// What a call of a function needs; `i` is below `functions`.
    pub fn frame(&self, i: u32) -> FunctionFrame
        requires { i < length (seen_code self.now).functions }
        ensures { option_map frame_of (slice_get (seen_code self.now).functions i) ≡ Some result }
    {
        let function = &self.layout.functions[i as usize];
        FunctionFrame {
            line: function.line,
            param_words: function.param_words,
            frame_words: function.frame_words,
        }
    }

    /// Where the instructions of a function begin among those of all functions; `function` is below
    /// `functions`.
    pub fn start(&self, function: u32) -> u32
        requires { function < length (seen_code self.now).functions }
        ensures { result ≡ start_of (seen_code self.now) function }
    {
        self.layout.functions[function as usize].start
    }

    /// An instruction by its place among those of all functions; there is one at that place.
    pub fn fetch(&self, place: usize) -> Instr
        requires { place < length (all_steps (seen_code self.now)) }
        ensures { option_map (λ x. x.instr) (slice_get (all_steps (seen_code self.now)) place) ≡ Some result }
    {
        self.layout.instrs[place]
    }

    /// An instruction of a function; there is one at that place.
    pub fn instr(&self, function: u32, place: u32) -> Instr
        requires { place < length (steps_of (seen_code self.now) function) }
        ensures { option_map (λ x. x.instr) (slice_get (steps_of (seen_code self.now) function) place) ≡ Some result }
    {
        self.fetch(self.start(function) as usize + place as usize)
    }

    /// How many instructions a function has; `function` is below `functions`.
    pub fn steps(&self, function: u32) -> usize
        requires { function < length (seen_code self.now).functions }
        ensures { result ≡ length (steps_of (seen_code self.now) function) }
    {
        self.layout.functions[function as usize].len as usize
    }

    /// At least as many as any function has instructions.
    pub fn longest(&self) -> usize
        ensures { (f : ℕ) → length (steps_of (seen_code self.now) f) ≤ result }
    {
        let mut longest = 0;
        for function in &self.layout.functions {
            longest = function.len.max(longest);
        }
        longest as usize
    }

    /// What a name denotes. With a place it looks in the blocks of that function that are entered at
    /// that instruction, from the innermost, then among the function's parameters, then among the
    /// globals. Without a place it looks among the globals alone.
    pub fn seek(&self, at: Option<CodePlace>, name: &[u8]) -> Option<Found>
        requires { IsPlaceIn (seen_code self.now) at }
        ensures { result ≡ found (seen_code self.now) at name.now }
    {
        match self.seek_at(at, name) {
            Some(found) => Some(found),
            None => self.seek_global(name),
        }
    }

    fn seek_at(&self, at: Option<CodePlace>, name: &[u8]) -> Option<Found>
        requires { IsPlaceIn (seen_code self.now) at }
        ensures { result ≡ found_at (seen_code self.now) at name.now }
    {
        match at {
            Some(at) => {
                let function = &self.layout.functions[at.function as usize];
                let place = function.start as usize + at.place as usize;
                function.seek(self.layout.inside[place], name)
            }
            None => None,
        }
    }

    fn seek_global(&self, name: &[u8]) -> Option<Found>
        ensures { result ≡ found_global (seen_code self.now) name.now }
    {
        match named(self.variables.as_slice(), name) {
            Some(variable) => Some(global_found(variable)),
            None => None,
        }
    }
}
