//! What a name gives: a value, a place to store in, or an array.

ghost use Rattle.std.specs.Prelude.{◌≡◌, ◌∷◌};
ghost use Rattle.c_checker.specs.Found.{CheckGives};
ghost use Rattle.c_checker.specs.Expressions as spec;
ghost use Rattle.c_checker.specs.Expressions.{part_of};
ghost use Rattle.c_checker.specs.private.InScope.{names_in};

use crate::entries::Thing;
use crate::fault::CheckFault;
use crate::scope::Scope;
use crate::typed::{line_of, typed};
use crate::types::same_type;
use c_tree::{Expr, PExpr, PKind, Target};
use nm_base::Ctype;

pub fn named_value(thing: Thing, line: u32) -> Result<PExpr, CheckFault>
    ensures { (texts : _) → CheckGives (spec.named_value thing line texts) result texts }
{
    match thing {
        Thing::Scalar { what, of } => Ok(typed(PKind::Name { what }, of, line)),
        Thing::Unknown => Err(CheckFault::Undeclared { line }),
        _ => Err(CheckFault::NotScalar { line }),
    }
}

pub fn named_place(thing: Thing, line: u32, target: u32) -> Result<PExpr, CheckFault>
    ensures { (texts : _) → CheckGives (spec.named_place thing line target texts) result texts }
{
    match thing {
        Thing::Scalar { what, of } => Ok(typed(PKind::Name { what }, of, line)),
        Thing::Unknown => Err(CheckFault::Undeclared { line }),
        _ => Err(CheckFault::NotAssignable { line: target }),
    }
}

pub fn named_array(thing: Thing, line: u32, wanted: Ctype) -> Result<PExpr, CheckFault>
    ensures { (texts : _) → CheckGives (spec.named_array thing line wanted texts) result texts }
{
    match thing {
        Thing::Array { what, of } => {
            if same_type(of, wanted) {
                Ok(typed(PKind::Name { what }, of, line))
            } else {
                Err(CheckFault::Mismatch { line })
            }
        }
        Thing::Unknown => Err(CheckFault::Undeclared { line }),
        _ => Err(CheckFault::NotArray { line }),
    }
}

/// An argument for an array whose elements have a type.
#[tactic(auto, using(crate::proofs::Forms::part_name))]
pub fn array(scope: &Scope<'_>, e: &Expr, wanted: Ctype) -> Result<PExpr, CheckFault>
    ensures { (texts : _) → CheckGives ((part_of (names_in scope.now) e.now).array wanted texts) result texts }
{
    match e {
        Expr::Name { name, line } => named_array(scope.find(name.as_slice()), *line, wanted),
        _ => Err(CheckFault::NotArray { line: line_of(e) }),
    }
}

/// The array of a name with a subscript, and the type of its elements.
pub fn subscripted(thing: Thing, line: u32) -> Result<(Target, Ctype), CheckFault>
    ensures { (texts : _) → CheckGives (spec.subscripted thing line texts) result texts }
{
    match thing {
        Thing::Array { what, of } => Ok((what, of)),
        Thing::Unknown => Err(CheckFault::Undeclared { line }),
        _ => Err(CheckFault::NotArray { line }),
    }
}
