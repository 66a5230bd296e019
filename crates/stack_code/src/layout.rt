//! The code of all functions in one list.

ghost use Rattle.std.specs.Prelude.{◌≡◌, ◌≤◌, [], ◌∷◌, ◌++◌, map, length, IfOk, OnOk, IsTrue};
ghost use Rattle.std.specs.List.{list_all, sum_by};
ghost use Rattle.stack_code.specs.Blocks.{function_of, is_kept};
ghost use Rattle.stack_code.specs.Layout.{functions_in, is_laid_out};

use crate::code::{Block, CodeFunction, Variable};
use crate::instr::Instr;
use crate::seek::{Found, local_found, local_named, named};
use nm_base::WantOfMemory;
use std::alloc::Global;

/// A function, with where its code lies among that of all functions.
#[derive(Drop)]
pub(crate) struct LaidFunction {
    pub name: String,
    /// The line of its name.
    pub line: u32,
    pub param_words: u32,
    pub frame_words: u32,
    /// The place of its first instruction among those of all functions.
    pub start: u32,
    /// How many instructions it has.
    pub len: u32,
    pub blocks: Vec<Block>,
    /// How many of the slots are parameters.
    pub param_count: u32,
    /// The parameters, and then the locals.
    pub slots: Vec<Variable>,
}

/// Functions, with the instructions of all in one list: each function's behind those of the one before it.
#[derive(Drop)]
pub(crate) struct Layout {
    pub functions: Vec<LaidFunction>,
    pub instrs: Vec<Instr>,
    /// The number of the innermost block round each instruction.
    pub inside: Vec<u32>,
}

impl Layout {
    /// The functions' code, in the order of the functions. `WantOfMemory` also answers more than
    /// 4,294,967,295 instructions in all.
    pub(crate) fn of(alloc: Global, functions: Vec<CodeFunction>) -> Result<Layout, WantOfMemory>
        requires { IsTrue (list_all is_kept functions.items) }
        ensures laid { IfOk result (λ l. IsTrue (is_laid_out l.functions.items l.instrs.items l.inside.items)) }
        ensures same { IfOk result (λ l. functions_in l ≡ map function_of functions.items) }
    {
        let total = count_instrs(functions.as_slice())?;
        let mut layout = Layout::with_room(alloc, functions.len(), total as usize)?;
        for function in functions {
            layout.push(function)?;
        }
        Ok(layout)
    }

    /// No functions, and memory for so many and so many instructions.
    fn with_room(alloc: Global, functions: usize, instrs: usize) -> Result<Layout, WantOfMemory>
        ensures laid { IfOk result (λ l. IsTrue (is_laid_out l.functions.items l.instrs.items l.inside.items)) }
        ensures same { IfOk result (λ l. functions_in l ≡ []) }
    {
        Ok(Layout {
            functions: Vec::with_capacity(alloc, functions)?,
            instrs: Vec::with_capacity(alloc, instrs)?,
            inside: Vec::with_capacity(alloc, instrs)?,
        })
    }

    /// One more function, behind the others. After an `Err` nothing is known of the layout.
    fn push(&mut self, function: CodeFunction) -> Result<(), WantOfMemory>
        requires laid { IsTrue (is_laid_out self.old.functions.items self.old.instrs.items self.old.inside.items) }
        requires kept { IsTrue (is_kept function) }
        ensures laid { OnOk result
            (IsTrue (is_laid_out self.new.functions.items self.new.instrs.items self.new.inside.items)) }
        ensures same { OnOk result (functions_in self.new ≡ functions_in self.old ++ function_of function ∷ []) }
    {
        let CodeFunction {
            name,
            line,
            param_words,
            frame_words,
            instrs,
            inside,
            blocks,
            param_count,
            slots,
        } = function;
        let start = u32::try_from(self.instrs.len()).map_err(|_| WantOfMemory)?;
        let len = u32::try_from(instrs.len()).map_err(|_| WantOfMemory)?;
        self.instrs.extend_from_slice(instrs.as_slice())?;
        self.inside.extend_from_slice(inside.as_slice())?;
        let laid = LaidFunction {
            name,
            line,
            param_words,
            frame_words,
            start,
            len,
            blocks,
            param_count,
            slots,
        };
        self.functions.push(laid).map_err(|_| WantOfMemory)?;
        Ok(())
    }
}

impl LaidFunction {
    ghost use Rattle.std.specs.Option.{option_copied};
    ghost use Rattle.stack_code.specs.Blocks.{entered_in, table_of, blocks_nest};
    ghost use Rattle.stack_code.specs.Seek.{found_among, in_blocks};

    /// What a name denotes in the function, inside the block of that number.
    pub(crate) fn seek(&self, block: u32, name: &[u8]) -> Option<Found>
        requires nest { IsTrue (blocks_nest 0 self.now.blocks.items) }
        requires known { block ≤ length self.now.blocks.items }
        requires few { self.now.param_count ≤ length self.now.slots.items }
        ensures { result ≡ found_among self.now.slots.items self.now.param_count
            (entered_in (table_of self.now.blocks.items) block) name.now }
    {
        if let Some(local) = self.local_at(block, name) {
            return Some(local_found(local));
        }
        match named(&self.slots.as_slice()[..self.param_count as usize], name) {
            Some(param) => Some(local_found(param)),
            None => None,
        }
    }

    /// The local of that name in a block and those round it, from the innermost.
    fn local_at(&self, block: u32, name: &[u8]) -> Option<&Variable>
        requires nest { IsTrue (blocks_nest 0 self.now.blocks.items) }
        requires known { block ≤ length self.now.blocks.items }
        ensures { option_copied result ≡ in_blocks name.now self.now.slots.items
            (entered_in (table_of self.now.blocks.items) block) }
    {
        let mut number = block;
        while number > 0 {
            let block = &self.blocks[number as usize - 1];
            if let Some(local) = local_named(self.slots.as_slice(), block.slots.as_slice(), name) {
                return Some(local);
            }
            number = block.outer;
        }
        None
    }
}

/// How many instructions the functions have together.
fn count_instrs(functions: &[CodeFunction]) -> Result<u32, WantOfMemory>
    ensures { IfOk result (λ n. n ≡ sum_by (λ f. length f.instrs.items) functions.now) }
{
    let mut total: u32 = 0;
    for function in functions {
        let len = u32::try_from(function.instrs.len()).map_err(|_| WantOfMemory)?;
        total = total.checked_add(len).ok_or(WantOfMemory)?;
    }
    Ok(total)
}
