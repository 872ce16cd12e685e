// A solver, which adopts the clauses of a book and searches on them under assumptions.
ghost use Rattle.std.specs.Prelude.{◌≡◌, ◌<◌, ◌≤◌, ◌+◌, ◌-◌, [], length, drop, IfOk, OnOk, OnErr};
ghost use Rattle.std.specs.List.{AllByRecursion};
ghost use Rattle.prop_core.specs.Clauses.{HasValues, AreConsistent};
ghost use Rattle.proof_ledger.specs.Book.{clauses_of};
ghost use Rattle.sat_order.specs.Rank.{IsRank, IsRanked};
ghost use Rattle.sat_prop.specs.Changes.{IsFront};
ghost use Rattle.sat_prop.specs.Levels.{level_of};
ghost use Rattle.sat_solve.specs.Searching.{IsSearched, HasLearnt, HasPut, IsAnswer};
ghost use Rattle.sat_solve.specs.Solving.{HasReserved, IsUnreserved, KeepsSize, AllJoined, HasAttached};

use crate::advice::Advice;
use crate::answer::Answer;
use crate::search::Search;
use des_base::{Memory, VAR_LIMIT};
use proof_ledger::Ledger;
use prop_core::{Assignment, ClauseId, Clauses, Lit};
use sat_learn::Learner;
use sat_order::Order;
use sat_prop::Propagator;
use std::alloc::Global;
use std::marker::Model;

/// A solver for the clauses of a book.
///
/// `reserve` alone asks the closure that ranks, and needs of it what `Order` does. Each call keeps the closure.
pub struct Solver<R> {
    search: Search<R>,
    assignment: Assignment,
    // How many clauses of the book were adopted.
    clauses: u64,
}

impl<R> Model for Solver<R> {
    ghost use Rattle.std.specs.Prelude.{◌≡◌, length};
    ghost use Rattle.sat_solve.specs.Solving.{SolverState, IsAtRest};

    ghost Value = { SolverState R };

    ghost view = { λ a. record { order = a.search.order; adopted = a.search.propagator.clauses; assignment = a.assignment; vars = a.search.vars; spare = a.search.spare } };

    ghost invariant = { λ a. record {
      rest : IsAtRest a.search a.assignment;
      adopted : a.clauses ≡ length a.search.propagator.clauses;
    } };
}

// (Written out, so that it is proved once: a derived one is proved again in each crate that lets such a value go.)
impl<R: Drop> Drop for Solver<R> {
    fn drop(self) {
        let Self {
            search: _,
            assignment: _,
            clauses: _,
        } = self;
    }
}

impl<R: Fn(u32) -> u64> Solver<R> {
    /// A solver with no variables and no clauses. The order must have no variables yet.
    ///
    /// The last assumption of a search passes, as a bound does, and the others are taken to last. What follows from those that last is resolved out of learnt clauses,
    /// so that these are shorter. If others are assumed later, the answers hold all the same.
    pub fn new(alloc: Global, order: Order<R>) -> Solver<R>
        requires empty { order.waiting ≡ [] }
        ensures { result ≡ record { order = order; adopted = []; assignment = []; vars = 0; spare = 0 } }
    {
        empty(alloc, order, 1)
    }

    /// The same for searches of which each has other assumptions: what follows from these stays in learnt clauses, which serve more of the later searches so.
    pub fn for_passing_assumptions(alloc: Global, order: Order<R>) -> Solver<R>
        requires empty { order.waiting ≡ [] }
        ensures { result ≡ record { order = order; adopted = []; assignment = []; vars = 0; spare = 0 } }
    {
        empty(alloc, order, usize::MAX)
    }

    /// Makes sure that there are this many variables, and room to adopt this many more clauses. Variables that are added wait, and have the
    /// value false.
    ///
    /// If memory runs out, the solver is as before, except that there may be values of further variables, all false; so it can be called again.
    pub fn reserve(&mut self, vars: u32, clauses: usize) -> Result<(), Memory>
        requires rank { IsRank R.pre R.post self.old.order.rank }
        requires limit { vars ≤ VAR_LIMIT }
        ensures rank { self.new.order.rank ≡ self.old.order.rank }
        ensures ranked { IsRanked R.pre R.post self.old.order → IsRanked R.pre R.post self.new.order }
        ensures adopted { self.new.adopted ≡ self.old.adopted }
        ensures ok { OnOk result (HasReserved self.old self.new vars clauses) }
        ensures err { OnErr result (IsUnreserved self.old self.new vars) }
    {
        self.search.advice.widen(vars)?;
        self.search
            .propagator
            .reserve_clauses(self.search.spare.max(clauses))?;
        self.search.propagator.grow(vars)?;
        self.search.learner.grow(vars)?;
        self.assignment.grow(vars)?;
        self.search.order.grow(vars)?;
        self.search.vars = self.search.vars.max(vars);
        self.search.spare = self.search.spare.max(clauses);
        Ok(())
    }

    /// Attaches the clauses that are new in the book.
    pub fn adopt(&mut self, book: &Ledger)
        requires grown { IsFront self.old.adopted (clauses_of book.now.entries) }
        requires room { length (clauses_of book.now.entries) ≤ length self.old.adopted + self.old.spare }
        requires known { AllByRecursion (HasValues self.old.vars) (drop (length self.old.adopted) (clauses_of book.now.entries)) }
        ensures value { self.new ≡ record self.old { adopted = clauses_of book.now.entries; spare = self.old.spare + length self.old.adopted - length (clauses_of book.now.entries) } }
    {
        let clauses = book.clauses();
        attach_from(&mut self.search.propagator, clauses, self.clauses);
        self.search.spare -= (clauses.len() - self.clauses) as usize;
        self.clauses = clauses.len();
    }

    /// Takes advice: a search that is no short one decides these literals, in this order, before any other that isn't assumed.
    ///
    /// Literals that are each refuted at once where those before them were make good advice, since what is learnt from them is short. Whatever
    /// they are, the answers hold.
    pub fn try_first(&mut self, lits: Vec<Lit>)
        ensures { self.new ≡ self.old }
    {
        self.search.advice.try_first(lits);
    }

    /// Takes further advice: these literals are decided behind those of [`Solver::try_first`], and before any other. If memory runs out,
    /// they aren't.
    pub fn try_further(&mut self, lits: &[Lit]) -> Result<(), Memory>
        ensures { self.new ≡ self.old }
    {
        self.search.advice.try_further(lits)
    }

    /// Searches for an assignment that makes all clauses of the book and all assumptions true. At most as many clauses are learnt as the
    /// budget has; it is lowered by one for each.
    pub fn solve(
        &mut self,
        book: &mut Ledger,
        assumptions: &[Lit],
        budget: &mut u64,
    ) -> Result<Answer, Memory>
        requires adopted { self.old.adopted ≡ clauses_of book.old.entries }
        requires known { HasValues self.old.vars assumptions.now }
        requires compatible { AreConsistent assumptions.now }
        ensures searched { IsSearched book.old.entries book.new.entries budget.old budget.new }
        ensures put { IfOk result (HasPut book.old.entries book.new.entries) }
        ensures quit { OnErr result (HasLearnt book.old.entries book.new.entries) }
        ensures answer { IfOk result (IsAnswer self.new.assignment book.new.entries assumptions.now budget.new) }
        ensures adopted { self.new.adopted ≡ clauses_of book.new.entries }
        ensures kept { KeepsSize self.old self.new }
    {
        self.search.propagator.is_sound();
        let found = self.search.run(book, assumptions, budget);
        self.search.propagator.is_sound();
        self.search.finish(book, &found, &mut self.assignment);
        self.clauses = book.clauses().len();
        found
    }

    /// The values that the last answer `Sat` found, for each variable that there is.
    pub fn assignment(&self) -> &Assignment
        ensures value { result.now ≡ self.now.assignment }
        ensures enough { self.now.vars ≤ length result.now }
    {
        &self.assignment
    }
}

// A solver with nothing in it, for searches of which so many of the last assumptions pass.
fn empty<R>(alloc: Global, order: Order<R>, passing: usize) -> Solver<R>
    requires empty { order.waiting ≡ [] }
    ensures { result ≡ record { order = order; adopted = []; assignment = []; vars = 0; spare = 0 } }
{
    Solver {
        search: Search {
            order,
            advice: Advice::new(alloc),
            propagator: Propagator::new(alloc),
            learner: Learner::new(alloc),
            taken: 0,
            passing,
            vars: 0,
            spare: 0,
        },
        assignment: Assignment::new(alloc),
        clauses: 0,
    }
}

// Attaches the clauses of a database, but the first ones, which are attached already. Nothing is decided yet.
fn attach_from(propagator: &mut Propagator, db: &Clauses, first: u64)
    requires first { first ≡ length propagator.old.clauses }
    requires grown { IsFront propagator.old.clauses db.now.clauses }
    requires room { length db.now.clauses ≤ length propagator.old.clauses + propagator.old.spare }
    requires known { AllByRecursion (HasValues propagator.old.vars) db.now.clauses }
    requires joined { AllJoined propagator.old.clauses propagator.old.attached }
    requires undecided { level_of propagator.old.reasons ≡ 0 }
    ensures { HasAttached propagator.old propagator.new db.now.clauses }
{
    propagator.is_sound();
    for before in first..db.len() {
        propagator.attach(db, ClauseId(before + 1));
    }
}
