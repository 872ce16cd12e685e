// The final clause of assumptions that are refuted (Eén and Sörensson, "Temporal induction by incremental SAT solving", 2003): where one of
// them is false, or a conflict depends on them alone, the decisions that lead to it are assumptions, and the clause of their negations is
// derived.
ghost use Rattle.std.specs.Prelude.{◌≡◌, ℕ, ◌<◌, ◌-◌, length, true, IfOk, OnErr};
ghost use Rattle.prop_core.specs.Clauses.{is_false};
ghost use Rattle.sat_prop.specs.Quiet.{IsConflict};
ghost use Rattle.sat_solve.specs.Searching.{IsSearched};
ghost use Rattle.sat_solve.specs.Solving.{IsAssumptionLeft, HasAssumedDecisions, IsOver, IsUnderWay, KeepsVariables, IsEnded};

use crate::answer::Answer;
use crate::search::Search;
use des_base::Memory;
use proof_ledger::Ledger;
use prop_core::{ClauseId, Lit};

impl<R: Fn(u32) -> u64> Search<R> {
    // Puts the final clause of a conflict that depends on assumptions alone.
    pub fn fail_by_conflict(
        &mut self,
        book: &mut Ledger,
        conflict: ClauseId,
        assumptions: &[Lit],
    ) -> Result<ClauseId, Memory>
        requires over { IsOver self.old book.old.entries }
        requires conflict { IsConflict self.old.propagator conflict }
        requires assumed { HasAssumedDecisions self.old.propagator assumptions.now (length self.old.propagator.literals) }
        ensures kept { KeepsVariables self.old self.new }
        ensures searched { (budget : ℕ) → IsSearched book.old.entries book.new.entries budget budget }
        ensures ended { (budget : ℕ) → IfOk result (λ id. IsEnded assumptions.now self.new book.old.entries book.new.entries budget (Answer.Unsat id)) }
        ensures err { OnErr result (IsOver self.new book.new.entries) }
        ensures unput { OnErr result (book.new.entries ≡ book.old.entries) }
    {
        self.propagator.is_sound();
        self.propagator.reserve_clauses(self.spare + 1)?;
        let learnt = self
            .learner
            .analyse_final(self.propagator.trail(), book.clauses(), conflict)?;
        book.put_final(learnt.clause.as_slice(), learnt.hints.as_slice())
    }

    // Puts the final clause of an assumption that is false.
    pub fn fail_assumption(
        &mut self,
        book: &mut Ledger,
        lit: Lit,
        assumptions: &[Lit],
    ) -> Result<ClauseId, Memory>
        requires under_way { IsUnderWay assumptions.now self.old book.old.entries }
        requires next { IsAssumptionLeft self.old.propagator.literals assumptions.now lit }
        requires false_now { is_false self.old.propagator.literals lit ≡ true }
        ensures kept { KeepsVariables self.old self.new }
        ensures searched { (budget : ℕ) → IsSearched book.old.entries book.new.entries budget budget }
        ensures ended { (budget : ℕ) → IfOk result (λ id. IsEnded assumptions.now self.new book.old.entries book.new.entries budget (Answer.Unsat id)) }
        ensures err { OnErr result (IsOver self.new book.new.entries) }
        ensures unput { OnErr result (book.new.entries ≡ book.old.entries) }
    {
        self.propagator.is_sound();
        self.propagator.reserve_clauses(self.spare + 1)?;
        let learnt = self
            .learner
            .analyse_failed(self.propagator.trail(), book.clauses(), lit)?;
        book.put_final(learnt.clause.as_slice(), learnt.hints.as_slice())
    }
}
