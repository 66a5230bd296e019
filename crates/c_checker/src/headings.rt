//! The functions that are declared.

ghost use Rattle.std.specs.Prelude.{◌≡◌, [], ◌∷◌, ◌++◌, None, Some, IfOk, IfErr, OnOk, OnErr};
ghost use Rattle.c_checker.specs.declared.fault.CheckFault.TheVariants.{NoBody};
ghost use Rattle.c_checker.specs.Found.{Refuses};
ghost use Rattle.c_checker.specs.Units as spec;

use crate::fault::CheckFault;
use c_tree::{Function, Slot};
use nm_base::{Bytes, Ctype, List};
use std::alloc::{AllocError, Global};
use std::marker::Model;
use std::mem;

/// A function as far as it is known.
#[derive(Drop)]
pub struct Heading {
    pub name: Bytes,
    pub result: Option<Ctype>,
    /// The parameters of its first head.
    pub params: List<Slot>,
    /// The line of its first head.
    pub line: u32,
    pub body: Option<Function>,
}

/// The functions by their numbers.
#[derive(Drop)]
pub struct Headings {
    list: Vec<Heading>,
}

impl Model for Headings {
    ghost use Rattle.std.specs.Prelude.{List};
    ghost use Rattle.std.specs.Coded.{codes};
    ghost use Rattle.c_tree.specs.contracts.program.PStmt as stmt;
    ghost use Rattle.c_tree.specs.contracts.program.PExpr as expr;
    ghost use Rattle.c_checker.specs.declared.headings.Heading.{Heading};

    ghost Value = { List Heading };

    ghost coded = { Prim.hlevel (codes, stmt.the_row.coded, expr.the_row.coded) };

    ghost view = { λ h. h.list.items };
}

impl Headings {
    pub fn new(alloc: Global) -> Headings
        ensures { result ≡ [] }
    {
        Headings {
            list: Vec::new(alloc),
        }
    }

    pub fn as_slice(&self) -> &[Heading]
        ensures { result.now ≡ self.now }
    {
        self.list.as_slice()
    }

    pub fn push(&mut self, heading: Heading) -> Result<(), AllocError>
        ensures ok { OnOk result (self.new ≡ self.old ++ heading ∷ []) }
        ensures err { OnErr result (self.new ≡ self.old) }
    {
        self.list.push(heading)?;
        Ok(())
    }

    /// Gives a function its body, where there is one with this number.
    pub fn give_body(&mut self, number: u32, made: Function)
        ensures { self.new ≡ spec.with_body self.old number made }
    {
        let i = number as usize;
        if i < self.list.len() {
            let before = mem::replace(&mut self.list[i].body, Some(made));
            drop(before);
        } else {
            drop(made);
        }
    }

    /// The functions with their bodies. One without a body is refused by the line of its first head.
    pub fn into_functions(self, alloc: Global) -> Result<List<Function>, CheckFault>
        ensures yes { IfOk result (λ fs. (spec.missing self ≡ []) × (fs ≡ spec.functions_of self)) }
        ensures no { IfErr result (λ f. Refuses (spec.missing self) f) }
    {
        let mut functions = List::from_vec(Vec::new(alloc));
        let mut rest = self.list.into_iter();
        while let Some(heading) = rest.next() {
            let function = heading.into_function()?;
            functions.push(alloc, function)?;
        }
        Ok(functions)
    }
}

impl Heading {
    fn into_function(self) -> Result<Function, CheckFault>
        ensures yes { IfOk result (λ f. self.body ≡ Some f) }
        ensures no { IfErr result (λ f. (self.body ≡ None) × (f ≡ NoBody self.line)) }
    {
        self.body.ok_or(CheckFault::NoBody { line: self.line })
    }
}
