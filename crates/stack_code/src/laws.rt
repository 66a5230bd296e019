//! The laws of code alone.

ghost use Rattle.stack_code.specs.Forward.{Advances};
ghost use Rattle.stack_code.specs.Laws.{RunLaw};

/// A run that stopped stays as it is, and a longer run is that run, run on.
pub fn run_law()
    ensures { RunLaw }
{}

/// Each step goes on to a later place, to a Line or to a caller.
pub fn step_law()
    ensures { Advances }
{}
