// Conflict analysis (Marques-Silva and Sakallah, "GRASP: a new search algorithm for satisfiability", 1996): the clause of the first implication
// point, and the clauses that close a search under assumptions (Eén and Sörensson, "Temporal induction by incremental SAT solving", 2003).
ghost use Rattle.std.specs.Prelude.{◌≡◌, ℕ, ◌<◌, ◌≤◌, ◌∷◌, [], length, max, replicate, true, false, is_none, vec_capacity, IfOk, OnOk, OnErr};
ghost use Rattle.prop_core.specs.Clauses.{is_false, negation};
ghost use Rattle.sat_prop.specs.TrailState.{StandsAt, literal_at, reason_at};
ghost use Rattle.sat_prop.specs.Levels.{level_of, IsLastDecision};
ghost use Rattle.sat_prop.specs.Quiet.{IsConflict};
ghost use Rattle.sat_prop.specs.Changes.{IsFront};
ghost use Rattle.sat_learn.specs.Seen.{is_seen, negated_seen, IsAnalysed};
ghost use Rattle.sat_learn.specs.Learnt.{IsLearnt, IsClosing, KeepsDecisionsTo};

use crate::analysed::Analysed;
use crate::clause::{add_negated, last_level};
use crate::removable::Removable;
use crate::resolving::{begin, resolve_to_decisions, resolve_to_one};
use crate::shortening::shorten;
use des_base::{ListOf, Memory};
use prop_core::{ClauseId, Clauses, Lit};
use sat_prop::Trail;
use std::alloc::Global;
use std::marker::Model;

/// A clause that derives by its hints, and the level to go back to. The last `from_conflict` hints lead from the conflict to the
/// clause as it was before it was shortened.
#[derive(Drop)]
pub struct Learnt {
    pub clause: ListOf<Lit>,
    pub hints: ListOf<ClauseId>,
    pub level: u32,
    pub from_conflict: usize,
}

/// Learns from conflicts.
///
/// An analysis keeps its value, even if memory runs out, so that another can follow.
#[derive(Drop)]
pub struct Learner {
    alloc: Global,
    seen: Vec<bool>,
    removable: Removable,
    room: u32,
    decisions_to: u32,
}

impl Model for Learner {
    ghost use Rattle.std.specs.Prelude.{◌≤◌, vec_capacity};
    ghost use Rattle.sat_learn.specs.LearnerState.{LearnerState};

    ghost Value = { LearnerState };

    ghost view = { λ a. record { room = a.room; decisions_to = a.decisions_to } };

    ghost invariant = { λ a. a.room ≤ vec_capacity a.seen };
}

impl Learner {
    /// It has room for no literals.
    pub fn new(alloc: Global) -> Learner
        ensures { result ≡ record { room = 0; decisions_to = 0 } }
    {
        Learner {
            alloc,
            seen: Vec::new(alloc),
            removable: Removable::new(alloc),
            room: 0,
            decisions_to: 0,
        }
    }

    /// Takes memory for the literals of `vars` variables beforehand. If memory runs out, the room is as before.
    pub fn grow(&mut self, vars: u32) -> Result<(), Memory>
        ensures grown { OnOk result (self.new ≡ record self.old { room = max self.old.room vars }) }
        ensures err { OnErr result (self.new ≡ self.old) }
    {
        let room = self.room.max(vars);
        self.removable.widen(room)?;
        self.seen.clear();
        self.seen.reserve(room as usize)?;
        self.room = room;
        Ok(())
    }

    /// Of the levels up to this one, clauses that are learnt keep decisions alone, until another is given.
    ///
    /// Where these decisions are assumptions that stay for long, much follows from them, and a clause would have many such literals.
    pub fn keep_decisions_to(&mut self, level: u32)
        ensures { self.new ≡ record self.old { decisions_to = level } }
    {
        self.decisions_to = level;
    }

    /// The clause of the first implication point, where the trail has a decision and a clause is false.
    pub fn analyse(
        &mut self,
        trail: &Trail,
        db: &Clauses,
        conflict: ClauseId,
    ) -> Result<Learnt, Memory>
        requires grown { IsFront trail.now.clauses db.now.clauses }
        requires conflict { IsConflict trail.now conflict }
        requires decided { 0 < level_of trail.now.reasons }
        ensures kept { self.new ≡ self.old }
        ensures learnt { IfOk result (λ l. IsLearnt trail.now db.now.clauses l.clause l.hints l.level) }
        ensures decided { IfOk result (λ l. KeepsDecisionsTo trail.now self.old.decisions_to l.clause) }
    {
        unsee(&mut self.seen, trail.len() as usize)?;
        let on = Analysed {
            trail,
            clauses: db,
            start: trail.last_decision() as usize,
        };
        learn(
            &mut self.seen,
            &mut self.removable,
            self.alloc,
            &on,
            conflict,
            self.decisions_to,
        )
    }

    /// The clause of the decisions that a conflict depends on.
    pub fn analyse_final(
        &mut self,
        trail: &Trail,
        db: &Clauses,
        conflict: ClauseId,
    ) -> Result<Learnt, Memory>
        requires grown { IsFront trail.now.clauses db.now.clauses }
        requires conflict { IsConflict trail.now conflict }
        ensures kept { self.new ≡ self.old }
        ensures closing { IfOk result (λ l. IsClosing trail.now db.now.clauses [] l.clause l.hints) }
        ensures level { IfOk result (λ l. l.level ≡ 0) }
    {
        unsee(&mut self.seen, trail.len() as usize)?;
        close(&mut self.seen, self.alloc, trail, db, conflict)
    }

    /// The clause of the decisions that make a literal false, and of the literal's own negation. Its variable was not decided.
    pub fn analyse_failed(
        &mut self,
        trail: &Trail,
        db: &Clauses,
        lit: Lit,
    ) -> Result<Learnt, Memory>
        requires grown { IsFront trail.now.clauses db.now.clauses }
        requires false_now { is_false trail.now.literals lit ≡ true }
        requires forced { (place : ℕ) → StandsAt trail.now.literals lit.var place → is_none (reason_at trail.now.reasons place) ≡ false }
        ensures kept { self.new ≡ self.old }
        ensures closing { IfOk result (λ l. IsClosing trail.now db.now.clauses (lit ∷ []) l.clause l.hints) }
        ensures level { IfOk result (λ l. l.level ≡ 0) }
    {
        unsee(&mut self.seen, trail.len() as usize)?;
        close_failed(&mut self.seen, self.alloc, trail, db, lit)
    }
}

// Makes `count` places, none of which is seen.
fn unsee(seen: &mut Vec<bool>, count: usize) -> Result<(), Memory>
    ensures kept { vec_capacity seen.old ≤ vec_capacity seen.new }
    ensures ok { OnOk result (seen.new.items ≡ replicate count false) }
{
    seen.clear();
    seen.resize(count, false)?;
    Ok(())
}

// The clause of the first implication point.
fn learn(
    seen: &mut [bool],
    removable: &mut Removable,
    alloc: Global,
    on: &Analysed<'_>,
    conflict: ClauseId,
    decisions_to: u32,
) -> Result<Learnt, Memory>
    requires analysed { IsAnalysed on.now.trail.now on.now.clauses.now.clauses seen.old }
    requires cleared { (place : ℕ) → is_seen seen.old place ≡ false }
    requires conflict { IsConflict on.now.trail.now conflict }
    requires last { IsLastDecision on.now.trail.now.reasons on.now.start }
    ensures learnt { IfOk result (λ l. IsLearnt on.now.trail.now on.now.clauses.now.clauses l.clause l.hints l.level) }
    ensures decided { IfOk result (λ l. KeepsDecisionsTo on.now.trail.now decisions_to l.clause) }
{
    let mut hints = Vec::new(alloc);
    let learnt = learn_with(
        seen,
        removable,
        alloc,
        on,
        conflict,
        decisions_to,
        &mut hints,
    );
    drop(hints);
    learnt
}

// The same, where the hints are collected in a vector with nothing in it.
fn learn_with(
    seen: &mut [bool],
    removable: &mut Removable,
    alloc: Global,
    on: &Analysed<'_>,
    conflict: ClauseId,
    decisions_to: u32,
    hints: &mut Vec<ClauseId>,
) -> Result<Learnt, Memory>
    requires analysed { IsAnalysed on.now.trail.now on.now.clauses.now.clauses seen.old }
    requires cleared { (place : ℕ) → is_seen seen.old place ≡ false }
    requires conflict { IsConflict on.now.trail.now conflict }
    requires last { IsLastDecision on.now.trail.now.reasons on.now.start }
    requires empty { hints.old.items ≡ [] }
    ensures learnt { IfOk result (λ l. IsLearnt on.now.trail.now on.now.clauses.now.clauses l.clause l.hints l.level) }
    ensures decided { IfOk result (λ l. KeepsDecisionsTo on.now.trail.now decisions_to l.clause) }
{
    on.trail.is_sound();
    let first = begin(seen, on, conflict, hints)?;
    let place = resolve_to_one(seen, on, first, hints)?;
    let from_conflict = hints.len();
    removable.find(seen, on.trail, on.clauses, on.start)?;
    shorten(seen, removable, on, decisions_to, hints)?;
    let clause = asserting(seen, alloc, on, place)?;
    let level = last_level(seen, on.trail, on.start);
    hints.reverse();
    Ok(Learnt {
        clause,
        hints: ListOf::from_slice(alloc, hints)?,
        level,
        from_conflict,
    })
}

// The negations of the literal at a place, and of those that are seen before the start.
fn asserting(
    seen: &[bool],
    alloc: Global,
    on: &Analysed<'_>,
    place: usize,
) -> Result<ListOf<Lit>, Memory>
    requires place { place < length on.now.trail.now.literals }
    requires seen { on.now.start ≤ length seen.now }
    requires literals { on.now.start ≤ length on.now.trail.now.literals }
    ensures { IfOk result (λ clause. clause ≡ negation (literal_at on.now.trail.now.literals place) ∷ negated_seen on.now.trail.now.literals seen.now on.now.start) }
{
    let literals = on.trail.literals();
    let mut clause = ListOf::new(alloc);
    clause.push(literals[place].negated())?;
    add_negated(seen, literals, on.start, &mut clause)?;
    Ok(clause)
}

fn close(
    seen: &mut [bool],
    alloc: Global,
    trail: &Trail,
    db: &Clauses,
    conflict: ClauseId,
) -> Result<Learnt, Memory>
    requires grown { IsFront trail.now.clauses db.now.clauses }
    requires size { length seen.old ≡ length trail.now.literals }
    requires cleared { (place : ℕ) → is_seen seen.old place ≡ false }
    requires conflict { IsConflict trail.now conflict }
    ensures closing { IfOk result (λ l. IsClosing trail.now db.now.clauses [] l.clause l.hints) }
    ensures level { IfOk result (λ l. l.level ≡ 0) }
{
    trail.is_sound();
    let literals = trail.literals();
    let on = Analysed {
        trail,
        clauses: db,
        start: 0,
    };
    let mut hints = Vec::new(alloc);
    begin(seen, &on, conflict, &mut hints)?;
    resolve_to_decisions(seen, &on, &mut hints)?;
    let mut clause = ListOf::new(alloc);
    add_negated(seen, literals, literals.len(), &mut clause)?;
    hints.reverse();
    Ok(Learnt {
        clause,
        hints: ListOf::from_slice(alloc, &hints)?,
        level: 0,
        from_conflict: hints.len(),
    })
}

fn close_failed(
    seen: &mut [bool],
    alloc: Global,
    trail: &Trail,
    db: &Clauses,
    lit: Lit,
) -> Result<Learnt, Memory>
    requires grown { IsFront trail.now.clauses db.now.clauses }
    requires size { length seen.old ≡ length trail.now.literals }
    requires cleared { (place : ℕ) → is_seen seen.old place ≡ false }
    requires false_now { is_false trail.now.literals lit ≡ true }
    requires forced { (place : ℕ) → StandsAt trail.now.literals lit.var place → is_none (reason_at trail.now.reasons place) ≡ false }
    ensures closing { IfOk result (λ l. IsClosing trail.now db.now.clauses (lit ∷ []) l.clause l.hints) }
    ensures level { IfOk result (λ l. l.level ≡ 0) }
{
    trail.is_sound();
    let literals = trail.literals();
    let place = trail.place_of(lit.var()) as usize;
    seen[place] = true;
    let on = Analysed {
        trail,
        clauses: db,
        start: 0,
    };
    let mut hints = Vec::new(alloc);
    resolve_to_decisions(seen, &on, &mut hints)?;
    let mut clause = ListOf::new(alloc);
    clause.push(lit.negated())?;
    add_negated(seen, literals, literals.len(), &mut clause)?;
    hints.reverse();
    Ok(Learnt {
        clause,
        hints: ListOf::from_slice(alloc, &hints)?,
        level: 0,
        from_conflict: hints.len(),
    })
}
