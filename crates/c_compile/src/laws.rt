//! The laws of the code of programs.

ghost use Rattle.c_compile.specs.Correct.{CheckedStands};
ghost use Rattle.c_compile.specs.Sound.{CheckedIsSound, CheckedIsWithin};

/// The code of every checked program can be run with no test of its own: whatever way control takes,
/// each instruction finds the operands that it takes and names a variable as what it is, a jump back
/// leads to a Line, and the limits hold.
pub fn sound_code_law()
    ensures sound { CheckedIsSound }
    ensures within { CheckedIsWithin }
{}

/// The code of every checked program stands for it: with every number of processes, whatever letters
/// come and after every number of events, it stops with the status and in the state of the meaning.
pub fn standing_code_law()
    ensures { CheckedStands }
{}
