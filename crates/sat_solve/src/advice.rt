// What a search is advised: which variable to decide next, with which sign, and when to restart.
//
// - The variables of the clauses that lead from a conflict to the clause that is learnt have taken part in it; one that waits is
//   suggested, mostly the most active.
// - A variable is decided as it last stood (Pipatsrisawat and Darwiche, "A lightweight component caching scheme for satisfiability
//   solvers", 2007), and the first time as false.
// - Literals that were given to be tried come before all suggestions, once the search has learnt enough clauses to be no short one.
//
// No contract says that the advice is good: whoever takes it tests it.
ghost use Rattle.std.specs.Prelude.{◌≡◌, OnOk, OnErr};
ghost use Rattle.prop_core.specs.Derivation.{clause_numbered};
ghost use Rattle.sat_solve.specs.Activity.{after_conflict, with_clause_part, with_option_part};
ghost use Rattle.sat_solve.specs.Advice.{from_first, tried_behind, no_advice, with_advice, KeepsAdvice, next_try, after_next_try, phase_of, with_unassigned, with_hints_part, last_hints};
ghost use Rattle.sat_solve.specs.Heap.{held_of, Takes};
ghost use Rattle.sat_solve.specs.LevelCount.{AreLevelsOf, marked_of};
ghost use Rattle.sat_solve.specs.Restarts.{with_learnt_clause, is_due, after_asking};

use crate::activity::Activity;
use crate::first_tries::FirstTries;
use crate::levels::Levels;
use crate::restarts::Restarts;
use des_base::Memory;
use prop_core::{ClauseId, Clauses, Lit};
use sat_learn::Learnt;
use sat_prop::Trail;
use std::alloc::Global;
use std::marker::Model;

// A search that learnt fewer clauses is a short one.
const LONG: u64 = 50;

#[derive(Drop)]
pub struct Advice {
    activity: Activity,
    phases: Vec<bool>,
    levels: Levels,
    restarts: Restarts,
    tries: FirstTries,
}

impl Model for Advice {
    ghost use Rattle.sat_solve.specs.Advice.{AdviceState};

    ghost Value = { AdviceState };

    ghost view = { λ a. record { activity = a.activity; phases = a.phases.items; levels = a.levels; means = a.restarts; tries = a.tries } };
}

impl Advice {
    // Nothing is known yet.
    pub fn new(alloc: Global) -> Advice
        ensures { result ≡ no_advice }
    {
        Advice {
            activity: Activity::new(alloc),
            phases: Vec::new(alloc),
            levels: Levels::new(alloc),
            restarts: Restarts::new(),
            tries: FirstTries::new(alloc),
        }
    }

    // These literals are tried first from now on.
    pub fn try_first(&mut self, lits: Vec<Lit>)
        ensures { self.new ≡ record self.old { tries = from_first lits.items } }
    {
        self.tries.replace(lits);
    }

    // These literals are tried too, behind the others.
    pub fn try_further(&mut self, lits: &[Lit]) -> Result<(), Memory>
        ensures ok { OnOk result (self.new ≡ record self.old { tries = tried_behind self.old.tries lits.now }) }
        ensures err { OnErr result (self.new ≡ self.old) }
    {
        self.tries.extend(lits)
    }

    // The first literal to be tried that is known and open, where the search is no short one.
    pub fn first_try(&mut self, trail: &Trail, vars: u32) -> Option<Lit>
        ensures found { result ≡ next_try self.old trail.now.literals vars }
        ensures passed { self.new ≡ after_next_try self.old trail.now.literals vars }
    {
        if self.restarts.learnt() < LONG {
            return None;
        }
        self.tries.next_open(trail, vars)
    }

    // Makes sure that there is advice on this many variables.
    pub fn widen(&mut self, vars: u32) -> Result<(), Memory>
        ensures ok { OnOk result (self.new ≡ with_advice self.old vars) }
        ensures err { OnErr result (KeepsAdvice self.old self.new vars) }
    {
        let count = self.phases.len().max(vars as usize);
        self.phases.resize(count, false)?;
        self.levels.widen(vars)?;
        self.activity.widen(vars)
    }

    // How a variable last stood.
    pub fn phase(&self, var: u32) -> bool
        ensures { result ≡ phase_of self.now.phases var }
    {
        match self.phases.get(var as usize) {
            Some(phase) => *phase,
            None => false,
        }
    }

    // How many suggestions there are.
    pub fn suggestions(&self) -> u32
        ensures { result ≡ held_of self.now.activity.waiting }
    {
        self.activity.held()
    }

    // Takes the next suggestion.
    pub fn suggest(&mut self, ranks: &[u64]) -> Option<u32>
        ensures taken { Takes self.old.activity.waiting self.new.activity.waiting result }
        ensures kept { self.new ≡ record self.old { activity = record self.old.activity { waiting = self.new.activity.waiting } } }
    {
        self.activity.take(ranks)
    }

    // Keeps how a literal stood that is taken back, and suggests its variable again.
    pub fn unassign(&mut self, lit: Lit, ranks: &[u64])
        ensures { self.new ≡ with_unassigned self.old lit }
    {
        if let Some(phase) = self.phases.get_mut(lit.var() as usize) {
            *phase = lit.is_positive();
        }
        self.activity.put_back(lit.var(), ranks);
        self.tries.begin_anew();
    }

    // Updates activities and means by a clause that was learnt, where the trail still stands as at the conflict.
    pub fn update(&mut self, trail: &Trail, clauses: &Clauses, learnt: &Learnt, ranks: &[u64])
        ensures phases { self.new.phases ≡ self.old.phases }
        ensures activity { self.new.activity ≡ after_conflict (with_hints_part self.old.activity clauses.now.clauses (last_hints learnt.now.hints learnt.now.from_conflict)) }
        ensures levels { AreLevelsOf trail.now learnt.now.clause self.new.levels }
        ensures means { self.new.means ≡ with_learnt_clause self.old.means (marked_of self.new.levels) }
        ensures tries { self.new.tries ≡ self.old.tries }
    {
        let hints = learnt.hints.as_slice();
        let first = hints.len().saturating_sub(learnt.from_conflict);
        bump_each(&mut self.activity, clauses, &hints[first..], ranks);
        self.activity.end_conflict();
        let levels = self.levels.count(trail, learnt.clause.as_slice());
        self.restarts.update(levels);
    }

    // Says whether the search is to restart.
    pub fn begins_anew(&mut self) -> bool
        ensures due { result ≡ is_due self.old.means }
        ensures after { self.new ≡ record self.old { means = after_asking self.old.means } }
    {
        self.restarts.begins_anew()
    }
}

// The variables of the clauses of these numbers take part in the present conflict.
fn bump_each(activity: &mut Activity, clauses: &Clauses, hints: &[ClauseId], ranks: &[u64])
    ensures { activity.new ≡ with_hints_part activity.old clauses.now.clauses hints.now }
{
    for hint in hints {
        bump(activity, clauses, *hint, ranks);
    }
}

// The variables of the clause of a number take part in it.
fn bump(activity: &mut Activity, clauses: &Clauses, id: ClauseId, ranks: &[u64])
    ensures { activity.new ≡ with_option_part activity.old (clause_numbered clauses.now.clauses id) }
{
    if id.0 > 0 && id.0 <= clauses.len() {
        bump_all(activity, clauses.clause(id), ranks);
    }
}

// The variables of a clause take part in it.
fn bump_all(activity: &mut Activity, clause: &[Lit], ranks: &[u64])
    ensures { activity.new ≡ with_clause_part activity.old clause.now }
{
    for lit in clause {
        activity.bump(lit.var(), ranks);
    }
}
