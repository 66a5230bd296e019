//! The laws of processes that run code.

ghost use Rattle.c_process.specs.Compiled.{CompiledIsCode, LooksArePlayed};

/// What a checked program is compiled to is code of the program: it stands for each of its
/// processes, and its `main_line` is the line of `main`'s name.
pub fn compiled_code_law()
    ensures { CompiledIsCode }
{}

/// What a process shows is what the program's meaning says: that it is able, the channels of its
/// receive, or the value or the cause with which it ended.
pub fn look_law()
    ensures { LooksArePlayed }
{}
