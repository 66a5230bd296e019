//! The program that a tree stands for.

ghost use Rattle.std.specs.Prelude.{◌≡◌, []};
ghost use Rattle.c_checker.specs.Units.{checks, Checked};

use c_tree::{Function, Global, Program, Tree};
use nm_base::{Bytes, List};

/// The program with these parts, which are what the tree stands for where it breaks no rule.
pub fn program_of(
    tree: &Tree,
    globals: List<Global>,
    functions: List<Function>,
    main: u32,
    texts: List<Bytes>,
) -> Program
    requires unbroken { (checks tree.now).faults ≡ [] }
    requires same { (checks tree.now).value
        ≡ record { globals = globals; functions = functions; main = main; texts = texts } }
    ensures { Checked tree.now result }
{
    Program {
        globals,
        functions,
        main,
        texts,
    }
}
