//! The law of trees that break no rule.

ghost use Rattle.c_checker.specs.Laws.{UnbrokenIsChecked};

/// Where a tree breaks no rule of the checker, what it stands for keeps every rule of a checked
/// program (`is_checked` of c_tree): each number names something that there is, the types fit, and
/// the limits hold.
pub fn checked_law()
    ensures { UnbrokenIsChecked }
{}
