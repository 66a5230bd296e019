//! Laws of the definitions alone, each the contract of a function that does nothing.

ghost use Rattle.c_parser.specs.Laws.{OneTree};

/// Tokens have at most one tree without an item higher than 64: `parse` has nothing to choose.
pub fn tree_law()
    ensures { OneTree }
{}
