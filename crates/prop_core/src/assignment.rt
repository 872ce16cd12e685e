// An assignment of truth values.
ghost use Rattle.std.specs.Prelude.{◌≡◌, ◌<◌, ◌≤◌, ◌-◌, ◌++◌, [], length, false, replicate, slice_set, OnOk, OnErr, IfSome};
ghost use Rattle.prop_core.specs.Clauses.{value_in, clause_true, HasValues};
ghost use Rattle.prop_core.specs.Derivation.{clause_numbered};

use crate::clauses::{ClauseId, Clauses};
use crate::lit::Lit;
use des_base::Memory;
use std::alloc::Global;
use std::marker::Model;

/// A truth value for each variable below a number.
#[derive(Drop)]
pub struct Assignment {
    values: Vec<bool>,
}

impl Model for Assignment {
    ghost use Rattle.std.specs.Prelude.{List, Bool};

    ghost Value = { List Bool };

    ghost view = { λ a. a.values.items };
}

impl Assignment {
    /// No variable has a value.
    pub fn new(alloc: Global) -> Assignment
        ensures { result ≡ [] }
    {
        Assignment {
            values: Vec::new(alloc),
        }
    }

    /// Gives the value false to each variable below `vars` that has none.
    pub fn grow(&mut self, vars: u32) -> Result<(), Memory>
        ensures ok { OnOk result (self.new ≡ self.old ++ replicate (vars - length self.old) false) }
        ensures err { OnErr result (self.new ≡ self.old) }
    {
        let count = self.values.len().max(vars as usize);
        self.values.resize(count, false)?;
        Ok(())
    }

    /// Changes the value of a variable that has one.
    pub fn set(&mut self, var: u32, value: bool)
        requires { var < length self.old }
        ensures { self.new ≡ slice_set self.old var value }
    {
        self.values[var as usize] = value;
    }

    /// The value of a variable that has one.
    pub fn value(&self, var: u32) -> bool
        requires { var < length self.now }
        ensures { result ≡ value_in self.now var }
    {
        self.values[var as usize]
    }

    /// Whether the clause of a number is true.
    pub fn holds(&self, clauses: &Clauses, id: ClauseId) -> bool
        requires from_one { 1 ≤ id }
        requires in_range { id ≤ length clauses.now.clauses }
        requires values { IfSome (clause_numbered clauses.now.clauses id) (HasValues (length self.now)) }
        ensures { IfSome (clause_numbered clauses.now.clauses id) (λ clause. result ≡ clause_true (value_in self.now) clause) }
    {
        self.satisfies(clauses.clause(id))
    }

    fn satisfies(&self, clause: &[Lit]) -> bool
        requires { HasValues (length self.now) clause.now }
        ensures { result ≡ clause_true (value_in self.now) clause.now }
    {
        clause
            .iter()
            .any(|lit| self.value(lit.var()) == lit.is_positive())
    }
}
