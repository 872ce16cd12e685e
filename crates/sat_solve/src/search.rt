// A search by clause learning (Marques-Silva and Sakallah, "GRASP: a new search algorithm for satisfiability", 1996): propagation, and then
// a decision, or at a conflict a learnt clause and the way back.
ghost use Rattle.std.specs.Prelude.{◌≡◌, ℕ, ◌<◌, ◌+◌, IfOk, IfSome, IfNone, OnOk, OnErr};
ghost use Rattle.sat_prop.specs.Levels.{level_of};
ghost use Rattle.sat_prop.specs.Quiet.{IsConflict, AreQuiet};
ghost use Rattle.sat_solve.specs.Searching.{HasLearnt, IsSearched};
ghost use Rattle.sat_solve.specs.Solving.{IsUnder, IsOver, IsUnderWay, KeepsVariables, to_do, LearnsOne, GoesOn, HasDecided, IsEnded};

use crate::advice::Advice;
use crate::answer::Answer;
use crate::assumptions::{further_decision, lasting_level, makes_true, next_assumption};
use crate::deciding::pick;
use des_base::Memory;
use proof_ledger::Ledger;
use prop_core::{ClauseId, Lit};
use sat_learn::{Learner, Learnt};
use sat_order::Order;
use sat_prop::{Propagated, Propagator, Trail};

// What a search keeps. Its functions are over a book, which has the clauses, assumptions, and a budget of conflicts.
#[derive(Drop)]
pub struct Search<R> {
    pub order: Order<R>,
    pub advice: Advice,
    pub propagator: Propagator,
    pub learner: Learner,
    // `assumptions[..taken]` are true.
    pub taken: usize,
    // Later searches won't have so many of the last assumptions.
    pub passing: usize,
    pub vars: u32,
    // There is always room to attach `spare` clauses.
    pub spare: usize,
}

impl<R: Fn(u32) -> u64> Search<R> {
    // Searches until there is an answer. The trail then stays as it is.
    pub fn run(
        &mut self,
        book: &mut Ledger,
        assumptions: &[Lit],
        budget: &mut u64,
    ) -> Result<Answer, Memory>
        requires over { IsOver self.old book.old.entries }
        requires under { IsUnder assumptions.now self.old.vars self.old.propagator }
        ensures searched { IsSearched book.old.entries book.new.entries budget.old budget.new }
        ensures kept { KeepsVariables self.old self.new }
        ensures ended { IfOk result (IsEnded assumptions.now self.new book.old.entries book.new.entries budget.new) }
        ensures err { OnErr result (IsOver self.new book.new.entries) }
        ensures quit { OnErr result (HasLearnt book.old.entries book.new.entries) }
    {
        self.taken = 0;
        'more: loop {
            if let Some(answer) = self.step(book, assumptions, budget)? {
                return Ok(answer);
            }
        }
    }

    // Propagates, and then either has an answer or goes on.
    fn step(
        &mut self,
        book: &mut Ledger,
        assumptions: &[Lit],
        budget: &mut u64,
    ) -> Result<Option<Answer>, Memory>
        requires under_way { IsUnderWay assumptions.now self.old book.old.entries }
        ensures searched { IsSearched book.old.entries book.new.entries budget.old budget.new }
        ensures kept { KeepsVariables self.old self.new }
        ensures goes_on { IfOk result (λ answer. IfNone answer (GoesOn assumptions.now self.new book.old.entries book.new.entries)) }
        ensures less { IfOk result (λ answer. IfNone answer (to_do budget.new self.new.propagator < to_do budget.old self.old.propagator)) }
        ensures ended { IfOk result (λ answer. IfSome answer (IsEnded assumptions.now self.new book.old.entries book.new.entries budget.new)) }
        ensures err { OnErr result (IsOver self.new book.new.entries) }
        ensures unput { OnErr result (book.new.entries ≡ book.old.entries) }
    {
        self.propagator.is_sound();
        let found = self.propagator.propagate(book.clauses());
        self.propagator.is_sound();
        match found {
            Propagated::Conflict(id) => self.at_conflict(book, id, assumptions, budget),
            Propagated::Quiet => self.at_rest(book, assumptions),
        }
    }

    // What is done at a conflict.
    fn at_conflict(
        &mut self,
        book: &mut Ledger,
        conflict: ClauseId,
        assumptions: &[Lit],
        budget: &mut u64,
    ) -> Result<Option<Answer>, Memory>
        requires under_way { IsUnderWay assumptions.now self.old book.old.entries }
        requires conflict { IsConflict self.old.propagator conflict }
        ensures searched { IsSearched book.old.entries book.new.entries budget.old budget.new }
        ensures kept { KeepsVariables self.old self.new }
        ensures goes_on { IfOk result (λ answer. IfNone answer (GoesOn assumptions.now self.new book.old.entries book.new.entries)) }
        ensures lowered { IfOk result (λ answer. IfNone answer (budget.new + 1 ≡ budget.old)) }
        ensures ended { IfOk result (λ answer. IfSome answer (IsEnded assumptions.now self.new book.old.entries book.new.entries budget.new)) }
        ensures err { OnErr result (IsOver self.new book.new.entries) }
        ensures unput { OnErr result (book.new.entries ≡ book.old.entries) }
    {
        self.propagator.is_sound();
        match further_decision(self.propagator.trail(), assumptions) {
            None => {
                let last = self.fail_by_conflict(book, conflict, assumptions)?;
                Ok(Some(Answer::Unsat(last)))
            }
            Some(_) if *budget == 0 => Ok(Some(Answer::Spent)),
            Some(_) => {
                self.learn(book, conflict, assumptions, budget)?;
                self.restart(assumptions);
                Ok(None)
            }
        }
    }

    // Learns from a further conflict, and goes back.
    fn learn(
        &mut self,
        book: &mut Ledger,
        conflict: ClauseId,
        assumptions: &[Lit],
        budget: &mut u64,
    ) -> Result<(), Memory>
        requires under_way { IsUnderWay assumptions.now self.old book.old.entries }
        requires conflict { IsConflict self.old.propagator conflict }
        requires decided { 0 < level_of self.old.propagator.reasons }
        requires some { 0 < budget.old }
        ensures under_way { IsUnderWay assumptions.now self.new book.new.entries }
        ensures kept { KeepsVariables self.old self.new }
        ensures searched { IsSearched book.old.entries book.new.entries budget.old budget.new }
        ensures learnt { OnOk result (LearnsOne book.old.entries book.new.entries budget.old budget.new) }
        ensures unput { OnErr result (book.new.entries ≡ book.old.entries) }
    {
        self.propagator.is_sound();
        self.propagator.reserve_clauses(self.spare + 1)?;
        let trail = self.propagator.trail();
        self.learner
            .keep_decisions_to(lasting_level(trail, assumptions, self.passing));
        let learnt = self.learner.analyse(trail, book.clauses(), conflict)?;
        let id = book.put_learnt(learnt.clause.as_slice(), learnt.hints.as_slice())?;
        *budget -= 1;
        update(
            self.propagator.trail(),
            &mut self.advice,
            book,
            &learnt,
            self.order.ranks(),
        );
        self.backtrack(learnt.level);
        self.propagator.join(book.clauses(), id);
        self.propagator.is_sound();
        Ok(())
    }

    // What is done where propagation has nothing to do.
    fn at_rest(&mut self, book: &mut Ledger, assumptions: &[Lit]) -> Result<Option<Answer>, Memory>
        requires under_way { IsUnderWay assumptions.now self.old book.old.entries }
        requires quiet { AreQuiet self.old.propagator.clauses self.old.propagator.attached self.old.propagator.literals }
        ensures searched { (budget : ℕ) → IsSearched book.old.entries book.new.entries budget budget }
        ensures kept { KeepsVariables self.old self.new }
        ensures decided { IfOk result (λ answer. IfNone answer (HasDecided assumptions.now self.old self.new book.old.entries book.new.entries)) }
        ensures ended { (budget : ℕ) → IfOk result (λ answer. IfSome answer (IsEnded assumptions.now self.new book.old.entries book.new.entries budget)) }
        ensures err { OnErr result (IsOver self.new book.new.entries) }
        ensures unput { OnErr result (book.new.entries ≡ book.old.entries) }
    {
        self.propagator.is_sound();
        let trail = self.propagator.trail();
        match next_assumption(trail, assumptions, &mut self.taken) {
            Some(lit) if makes_true(trail, lit.negated()) => {
                let last = self.fail_assumption(book, lit, assumptions)?;
                Ok(Some(Answer::Unsat(last)))
            }
            Some(lit) => {
                self.propagator.decide(lit);
                Ok(None)
            }
            None => match pick(trail, &mut self.order, &mut self.advice) {
                None => Ok(Some(Answer::Sat)),
                Some(choice) => {
                    self.propagator.decide(choice);
                    Ok(None)
                }
            },
        }
    }
}

// Updates the advice by a clause that was learnt.
fn update(trail: &Trail, advice: &mut Advice, book: &Ledger, learnt: &Learnt, ranks: &[u64]) {
    advice.update(trail, book.clauses(), learnt, ranks);
}
