//! Laws: facts of the definitions alone. Each function does nothing; its contract is the law.

ghost use Rattle.std.specs.Prelude.{◌≡◌, ◌≤◌, ◌++◌, ℕ, List, length, true, false};
ghost use Rattle.std.specs.List.{flat_map, list_any};
ghost use Rattle.c_tree.specs.declared.program.Program.{Program};
ghost use Rattle.trace_file.specs.Content.{Content};
ghost use Rattle.report.specs.Runs.{summary_of};
ghost use Rattle.nm_top.specs.declared.talk.End.TheVariants.{Over, InputFull};
ghost use Rattle.nm_top.specs.Debugging.{EndsAfter, has_newline, passes_limit, split, with_newline};
ghost use Rattle.nm_top.specs.Programs.{OneProgram};
ghost use Rattle.nm_top.specs.Soaking.{Soaks, soak_finished, soak_run};

/// A text has at most one program, and none where it is refused.
pub fn program_law()
    ensures { (text : List ℕ) → OneProgram text }
{}

/// Bytes are the lines that newlines end, each with its newline, and then the line that is begun, in none of which
/// there is a newline.
pub fn split_law()
    ensures joined { (bytes : List ℕ) → bytes ≡ flat_map with_newline (split bytes).ended ++ (split bytes).begun }
    ensures ended { (bytes : List ℕ) → list_any has_newline (split bytes).ended ≡ false }
    ensures begun { (bytes : List ℕ) → has_newline (split bytes).begun ≡ false }
{}

/// A session is over only where its input doesn't pass the limit, and finds it full only where it does.
pub fn end_law()
    ensures over { (n : ℕ) (input : List ℕ) (k : ℕ) (lines : List (List ℕ)) → EndsAfter n input k lines Over
        → passes_limit n input ≡ false }
    ensures full { (n : ℕ) (input : List ℕ) (k : ℕ) (lines : List (List ℕ)) → k ≤ length input
        → EndsAfter n input k lines InputFull → passes_limit n input ≡ true }
{}

/// The finished replay of `soak` has the summary of the recording: of the six lines the second and the fourth are
/// equal.
pub fn soak_law()
    ensures { (seed : ℕ) (p : Program) (t : Content) → Soaks seed p t
        → summary_of (soak_finished p t seed).events ≡ summary_of (soak_run p seed) }
{}
