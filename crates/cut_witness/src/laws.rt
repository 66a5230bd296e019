//! What holds of comparisons, and of certificates in a full replay. Each function does nothing; its contract is the
//! theorem.

ghost use Rattle.cut_witness.specs.Laws.{SameLaw, LoggedLaw, NamesLaw, CarriedLaw, OneComparisonLaw};

/// A replay with all recorded counts has the entries of the trace.
pub fn same_law()
    ensures { SameLaw }
{}

/// What a trace with the entries of a list names is logged in the list.
pub fn logged_law()
    ensures { LoggedLaw }
{}

/// A trace names each logged letter once, and no other.
pub fn names_law()
    ensures { NamesLaw }
{}

/// In a full replay the same letters are logged, and its witnesses are those of the recorded run.
pub fn carried_law()
    ensures { CarriedLaw }
{}

/// A comparison has one result.
pub fn one_comparison_law()
    ensures { OneComparisonLaw }
{}
