// The clauses of a list as axioms of a book.
ghost use Rattle.std.specs.Prelude.{◌≡◌, ◌≤◌, ◌+◌, ◌++◌, ℕ, map, take, length, sum_by, OnOk};
ghost use Rattle.proof_ledger.specs.Book.{axiomatic};

use crate::ledger::Ledger;
use des_base::Memory;
use prop_core::{ClauseId, Clauses};

impl Ledger {
    /// Adds clauses as axioms. An empty book keeps the list itself, so that no clause is copied. If memory runs out, the book
    /// may hold the first of them.
    pub fn add_axioms(&mut self, clauses: Clauses) -> Result<(), Memory>
        ensures added { OnOk result (self.new.entries ≡ self.old.entries ++ map axiomatic clauses.clauses) }
        ensures some { (count : ℕ) × (self.new.entries ≡ self.old.entries ++ map axiomatic (take count clauses.clauses)) }
    {
        if self.entries() > 0 {
            return self.add_each(&clauses);
        }
        *self = Ledger::of_axioms(self.alloc, clauses)?;
        Ok(())
    }

    // Adds clauses as axioms, one after another.
    fn add_each(&mut self, clauses: &Clauses) -> Result<(), Memory>
        ensures added { OnOk result (self.new.entries ≡ self.old.entries ++ map axiomatic clauses.now.clauses) }
        ensures some { (count : ℕ) × (self.new.entries ≡ self.old.entries ++ map axiomatic (take count clauses.now.clauses)) }
    {
        for before in 0..clauses.len() {
            self.add_axiom(clauses.clause(ClauseId(before + 1)))?;
        }
        Ok(())
    }

    /// Adds clauses as axioms, in room that was reserved.
    pub fn push_axioms(&mut self, clauses: &Clauses)
        requires clauses { length clauses.now.clauses ≤ self.old.spare_clauses }
        requires literals { sum_by length clauses.now.clauses ≤ self.old.spare_literals }
        ensures { self.new.entries ≡ self.old.entries ++ map axiomatic clauses.now.clauses }
    {
        for before in 0..clauses.len() {
            self.push_axiom(clauses.clause(ClauseId(before + 1)));
        }
    }
}
