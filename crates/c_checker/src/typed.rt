//! The line and the type of an expression.

ghost use Rattle.std.specs.Prelude.{◌≡◌, ◌∷◌};
ghost use Rattle.c_checker.specs.Scope.{ScopeNames};
ghost use Rattle.c_checker.specs.Expressions as spec;
ghost use Rattle.c_checker.specs.Expressions.{part_of};

use c_tree::{Expr, PExpr, PKind};
use nm_base::Ctype;

/// The line of an expression's first token.
#[tactic(auto, using(crate::proofs::Forms::part_forms))]
pub fn line_of(e: &Expr) -> u32
    ensures any { (names : ScopeNames) → result ≡ (part_of names e.now).line }
    ensures first { result ≡ spec.first_line e.now }
{
    match e {
        Expr::Const { line, .. }
        | Expr::Text { line, .. }
        | Expr::Name { line, .. }
        | Expr::At { line, .. }
        | Expr::Call { line, .. }
        | Expr::Paren { line, .. }
        | Expr::Unary { line, .. }
        | Expr::Bump { line, .. }
        | Expr::Binary { line, .. }
        | Expr::And { line, .. }
        | Expr::Or { line, .. }
        | Expr::Choose { line, .. }
        | Expr::Comma { line, .. }
        | Expr::Assign { line, .. } => *line,
    }
}

pub fn typed(kind: PKind, of: Ctype, line: u32) -> PExpr
    ensures { result ≡ spec.typed kind of line }
{
    PExpr {
        kind,
        of: Some(of),
        line,
    }
}

pub fn type_of(e: &PExpr) -> Ctype
    ensures { result ≡ spec.type_of e.now }
{
    e.of.unwrap_or(Ctype::Int)
}
