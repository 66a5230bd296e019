//! From a checked program to its code.

ghost use Rattle.std.specs.Prelude.{◌≡◌, ℕ, IfOk, IsTrue, map};
ghost use Rattle.std.specs.List.{list_all};
ghost use Rattle.c_tree.specs.Play.{play_setting};
ghost use Rattle.stack_code.specs.Blocks.{function_of, is_kept};
ghost use Rattle.stack_code.specs.View.{seen_code};
ghost use Rattle.c_compile.specs.Variables.{globals_from};
ghost use Rattle.c_compile.specs.StmtCode.{function_code, program_code};
ghost use Rattle.c_compile.specs.Correct.{CodeStandsFor};
ghost use Rattle.c_compile.specs.KeptNames.{KeepsNames};

use crate::body::add;
use crate::function::emit_function;
use crate::variables::{copy_texts, first_words, global_variables, words_of_globals};
use c_tree::Program;
use nm_base::WantOfMemory;
use stack_code::{Code, CodeFunction, Variable};
use std::alloc::Global;

/// The code of a program, which stands for it: with every number of processes, whatever letters come
/// and after every number of events, the run of the code stops with the status and in the state that
/// the meaning of the program has. It has the program's functions, variables and blocks.
///
/// `WantOfMemory` also answers more than 4,294,967,295 instructions, or so many blocks in a function,
/// which no text of 262,144 bytes has.
pub fn compile(alloc: Global, p: &Program) -> Result<Code, WantOfMemory>
    ensures code { IfOk result
        (λ code. seen_code code ≡ program_code p.now.globals p.now.functions p.now.texts p.now.main) }
    ensures stands { IfOk result
        (λ code. (count me : ℕ) → CodeStandsFor (play_setting p.now count me) (seen_code code)) }
    ensures names { IfOk result (λ code. KeepsNames p.now (seen_code code)) }
{
    let variables = global_variables(alloc, p.globals.as_slice())?;
    let functions = emit_functions(alloc, p, variables.as_slice())?;
    let texts = copy_texts(alloc, p.texts.as_slice())?;
    let words = first_words(alloc, p.globals.as_slice())?;
    let code = Code::new(alloc, functions, p.main, texts, words, variables)?;
    Ok(code)
}

/// The code of all functions.
pub fn emit_functions(
    alloc: Global,
    p: &Program,
    variables: &[Variable],
) -> Result<Vec<CodeFunction>, WantOfMemory>
    requires { variables.now ≡ globals_from 0 p.now.globals }
    ensures code { IfOk result
        (λ functions. map function_of functions.items
        ≡ map (function_code p.now.globals p.now.functions p.now.texts) p.now.functions) }
    ensures kept { IfOk result (λ functions. IsTrue (list_all is_kept functions.items)) }
{
    let global_words = words_of_globals(p.globals.as_slice());
    let mut functions = Vec::new(alloc);
    for function in p.functions.as_slice() {
        let code = emit_function(alloc, p, variables, global_words, function)?;
        add(&mut functions, code)?;
    }
    Ok(functions)
}
