//! Laws of the format.

ghost use Rattle.std.specs.Prelude.{◌≡◌, ◌≤◌, ℕ, List};
ghost use Rattle.trace_file.specs.Content.{Content, count_of};
ghost use Rattle.trace_file.specs.Rules.{IsTrace};
ghost use Rattle.trace_file.specs.Reading.{Damage};
ghost use Rattle.trace_file.specs.Outcomes.{IsDamage, IsSpelling};

/// One list of bytes spells one trace, so one program digest, and what spells a trace has no damage.
pub fn one_trace_law()
    ensures one { (s t : Content) (bytes : List ℕ) → IsSpelling s bytes → IsSpelling t bytes → s ≡ t }
    ensures whole { (t : Content) (d : Damage) (bytes : List ℕ) → IsSpelling t bytes → IsDamage bytes d → ⊥ }
{}

/// One list of bytes has one damage: its kind and its place.
pub fn one_damage_law()
    ensures { (d e : Damage) (bytes : List ℕ) → IsDamage bytes d → IsDamage bytes e → d ≡ e }
{}

/// A trace counts no events of a process that there isn't.
pub fn count_law()
    ensures { (t : Content) (p : ℕ) → IsTrace t → t.n ≤ p → count_of t p ≡ 0 }
{}
