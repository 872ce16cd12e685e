// What is done once a search has an answer, so that the next one can begin.
ghost use Rattle.std.specs.Prelude.{◌≡◌, ◌≤◌, length, MatchResult, Ok};
ghost use Rattle.proof_ledger.specs.Book.{clauses_of};
ghost use Rattle.sat_solve.specs.Solving.{IsSound, IsAtRest, IsUnfinished, KeepsVariables, AreTrailValues};

use crate::answer::Answer;
use crate::assumptions::makes_true;
use crate::search::Search;
use des_base::{Memory, VAR_LIMIT};
use proof_ledger::Ledger;
use prop_core::{Assignment, Lit};
use sat_prop::Trail;

impl<R: Fn(u32) -> u64> Search<R> {
    // Goes back to level 0, after the values of a model were kept, and attaches a final clause.
    pub fn finish(
        &mut self,
        book: &Ledger,
        found: &Result<Answer, Memory>,
        assignment: &mut Assignment,
    )
        requires sound { IsSound self.old }
        requires unfinished { MatchResult found.now (IsUnfinished self.old.spare self.old.propagator book.now.entries) (λ memory. self.old.propagator.clauses ≡ clauses_of book.now.entries) }
        requires enough { self.old.vars ≤ length assignment.old }
        ensures rest { IsAtRest self.new assignment.new }
        ensures clauses { self.new.propagator.clauses ≡ clauses_of book.now.entries }
        ensures kept { KeepsVariables self.old self.new }
        ensures values { found.now ≡ Ok Answer.Sat → AreTrailValues assignment.new self.old.propagator.literals self.old.vars }
    {
        match found {
            Ok(answer) => self.finish_with_answer(book, *answer, assignment),
            Err(_) => self.backtrack(0),
        }
    }

    fn finish_with_answer(&mut self, book: &Ledger, answer: Answer, assignment: &mut Assignment)
        requires sound { IsSound self.old }
        requires unfinished { IsUnfinished self.old.spare self.old.propagator book.now.entries answer }
        requires enough { self.old.vars ≤ length assignment.old }
        ensures rest { IsAtRest self.new assignment.new }
        ensures clauses { self.new.propagator.clauses ≡ clauses_of book.now.entries }
        ensures kept { KeepsVariables self.old self.new }
        ensures values { answer ≡ Answer.Sat → AreTrailValues assignment.new self.old.propagator.literals self.old.vars }
    {
        match answer {
            Answer::Sat => {
                keep_values(self.propagator.trail(), self.vars, assignment);
                self.backtrack(0);
            }
            Answer::Spent => self.backtrack(0),
            Answer::Unsat(id) => {
                self.backtrack(0);
                self.propagator.attach(book.clauses(), id);
            }
        }
    }
}

// Keeps the values of the variables below a number.
fn keep_values(trail: &Trail, vars: u32, assignment: &mut Assignment)
    requires limit { vars ≤ VAR_LIMIT }
    requires room { vars ≤ length assignment.old }
    ensures room { length assignment.new ≡ length assignment.old }
    ensures values { AreTrailValues assignment.new trail.now.literals vars }
{
    for var in 0..vars {
        assignment.set(var, makes_true(trail, Lit::new(var, true)));
    }
}
