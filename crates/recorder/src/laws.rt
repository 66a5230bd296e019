//! What holds of recorded traces. The function does nothing; its contract is the theorem.

ghost use Rattle.std.specs.Prelude.{◌≤◌, List, length};
ghost use Rattle.nm_base.specs.declared.limits.TheConstants.{MAX_EVENTS};
ghost use Rattle.event_list.specs.declared.Event.{Event};
ghost use Rattle.event_list.specs.Runs.{Sound};
ghost use Rattle.trace_file.specs.Content.{Content};
ghost use Rattle.trace_file.specs.Rules.{IsHeader, IsTrace};
ghost use Rattle.recorder.specs.Recording.{Form, IsContentOf};

/// What a recording writes of a run keeps all rules of a trace file, so reading gives it back.
pub fn rules_law()
    ensures { (f : Form) (E : List Event) (t : Content) → IsContentOf f E t → IsHeader t → Sound f.mask E
        → length E ≤ MAX_EVENTS → IsTrace t }
{}
