//! The labels of a switch.

ghost use Rattle.std.specs.Prelude.{◌≡◌, ℕ, List, [], ◌∷◌, ◌++◌, Some, None, cond, true, nat_eq, IfOk, IfErr, OnOk, OnErr};
ghost use Rattle.std.specs.Ordering.{nat_cmp};
ghost use Rattle.std.specs.BTreeSet.{contains, IsUnchanged};
ghost use Rattle.c_checker.specs.declared.state.Body.{Body};
ghost use Rattle.c_checker.specs.Found.{CheckGives, Refuses, Tests, fine};
ghost use Rattle.c_checker.specs.Scope.{ScopeNames};
ghost use Rattle.c_checker.specs.Statements as spec;

use crate::body::pattern;
use crate::fault::CheckFault;
use c_tree::{Label, PLabel};
use nm_base::List;
use std::alloc::{AllocError, Global};
use std::collections::BTreeSet;
use std::marker::Model;

/// The labels of a switch so far.
#[derive(Drop)]
pub struct Labels {
    list: Vec<PLabel>,
    /// The patterns of the cases.
    cases: BTreeSet<u32>,
    has_default: bool,
}

impl Model for Labels {
    ghost use Rattle.std.specs.Prelude.{List};
    ghost use Rattle.c_tree.specs.declared.program.PLabel.{PLabel};
    ghost use Rattle.c_checker.specs.private.Patterns.{Knows};

    ghost Value = { List PLabel };

    ghost view = { λ l. l.list.items };

    ghost invariant = { λ l. Knows l.list.items l.cases l.has_default };
}

/// Puts a label after the others.
fn add_label(list: &mut Vec<PLabel>, label: PLabel) -> Result<(), AllocError>
    ensures ok { OnOk result (list.new.items ≡ list.old.items ++ label ∷ []) }
    ensures err { OnErr result (list.new.items ≡ list.old.items) }
{
    list.push(label)?;
    Ok(())
}

/// Puts a pattern among those of the cases.
fn add_case(cases: &mut BTreeSet<u32>, bits: u32) -> Result<(), AllocError>
    ensures ok { OnOk result
        ((n : ℕ) → contains nat_cmp cases.new n ≡ cond (nat_eq bits n) true (contains nat_cmp cases.old n)) }
    ensures err { OnErr result (IsUnchanged cases.old cases.new) }
{
    cases.insert(bits)?;
    Ok(())
}

impl Labels {
    pub fn new(alloc: Global) -> Labels
        ensures { result ≡ [] }
    {
        Labels {
            list: Vec::new(alloc),
            cases: BTreeSet::new(alloc),
            has_default: false,
        }
    }

    fn push(&mut self, label: PLabel) -> Result<(), AllocError>
        ensures ok { OnOk result (self.new ≡ self.old ++ label ∷ []) }
        ensures err { OnErr result (self.new ≡ self.old) }
    {
        add_label(&mut self.list, label)?;
        match label.value {
            None => {
                self.has_default = true;
                Ok(())
            }
            Some(bits) => match add_case(&mut self.cases, bits) {
                Ok(()) => Ok(()),
                Err(e) => {
                    let _ = self.list.pop();
                    Err(e)
                }
            },
        }
    }

    fn has_default(&self) -> bool
        ensures { result ≡ spec.has_default self.now }
    {
        self.has_default
    }

    fn has_case(&self, bits: u32) -> bool
        ensures { result ≡ spec.has_case self.now bits }
    {
        self.cases.contains(&bits)
    }
}

/// Whether a label differs from those of the switch before it.
fn test_label(before: &Labels, value: Option<u32>, line: u32) -> Result<(), CheckFault>
    ensures { Tests (spec.label_faults before.now value line) result }
{
    match value {
        None if before.has_default() => Err(CheckFault::DoubleDefault { line }),
        Some(bits) if before.has_case(bits) => Err(CheckFault::DoubleCase { line }),
        _ => Ok(()),
    }
}

/// A label after those of the switch before it.
fn make_label(before: &Labels, label: &Label) -> Result<PLabel, CheckFault>
    ensures yes { IfOk result
        (λ x. (names : ScopeNames) (s : Body)
        → spec.label names before.now label.now.value label.now.line s ≡ fine (x ∷ []) s) }
    ensures no { IfErr result
        (λ f. (names : ScopeNames) (s : Body)
        → Refuses (spec.label names before.now label.now.value label.now.line s).faults f) }
{
    let value = match &label.value {
        Some(e) => Some(pattern(e)?),
        None => None,
    };
    test_label(before, value, label.line)?;
    Ok(PLabel {
        value,
        line: label.line,
    })
}

/// The labels of an arm, after those of the switch before it.
pub fn make_labels(
    alloc: Global,
    before: &mut Labels,
    mut list: &[Label],
) -> Result<List<PLabel>, CheckFault>
    ensures found { (names : ScopeNames) (s : Body)
        → CheckGives (spec.labels names before.old [] list.entry.now s) result s }
    ensures added { IfOk result (λ these. before.new ≡ before.old ++ these) }
{
    let mut these = List::from_vec(Vec::new(alloc));
    while let [first, rest @ ..] = list {
        let made = make_label(before, first)?;
        before.push(made)?;
        these.push(alloc, made)?;
        list = rest;
    }
    Ok(these)
}
