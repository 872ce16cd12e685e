// Unit propagation by watched literals, with the trail that it extends.
ghost use Rattle.std.specs.Prelude.{◌≡◌, ◌<◌, ◌≤◌, [], length, max, true, None, OnOk, OnErr, IfSome, ◌^◌};
ghost use Rattle.prop_core.specs.Derivation.{clause_numbered};
ghost use Rattle.prop_core.specs.Clauses.{is_open, HasValues};
ghost use Rattle.sat_prop.specs.Levels.{level_of};
ghost use Rattle.sat_prop.specs.Quiet.{AreQuiet, JoinsQuietly, IsPropagated};
ghost use Rattle.sat_prop.specs.Kept.{IsTrailState};
ghost use Rattle.sat_prop.specs.Changes.{IsFront, with_true_literal, with_attached_clause, Propagates, IsKeptUpTo};

use crate::trail::Trail;
use crate::watched::Watched;
use des_base::{Memory, VAR_LIMIT};
use prop_core::{ClauseId, Clauses, Lit};
use std::alloc::Global;
use std::marker::Model;

/// What propagation comes to.
#[derive(Clone, Copy)]
pub enum Propagated {
    /// No attached clause is false or unit.
    Quiet,
    /// This attached clause is false.
    Conflict(ClauseId),
}

/// A trail and the watches of its clauses: it propagates, and its value is that of its trail.
///
/// Room for literals is taken by `grow` and room for clauses by `reserve_clauses`; no other call takes memory. A clause with
/// two different literals is watched at two of them, and looked at again where one of these becomes false (Moskewicz and
/// others, "Chaff: engineering an efficient SAT solver", 2001). One of the clauses that joined last is watched no more once a later one
/// subsumes it: it stays attached, and is quiet where that one is.
#[derive(Drop)]
pub struct Propagator {
    trail: Trail,
    watched: Watched,
}

impl Model for Propagator {
    ghost use Rattle.sat_prop.specs.TrailState.{TrailState};
    ghost use Rattle.sat_prop.specs.Watching.{AreWatched};

    ghost Value = { TrailState };

    ghost view = { λ a. a.trail };

    ghost invariant = { λ a. AreWatched a.trail a.watched };
}

impl Propagator {
    /// Nothing is attached, and there are no variables.
    pub fn new(alloc: Global) -> Propagator
        ensures { result ≡ record { clauses = []; attached = []; literals = []; reasons = []; vars = 0; spare = 0 } }
    {
        Propagator {
            trail: Trail::new(alloc),
            watched: Watched::new(alloc),
        }
    }

    /// What holds of each propagator: its trail is one, and has room.
    pub fn is_sound(&self)
        ensures state { IsTrailState self.now }
        ensures room { length self.now.literals ≤ self.now.vars }
        ensures spare { self.now.spare < 2 ^ 63 }
    {
        self.trail().is_sound();
    }

    /// The trail as it stands.
    pub fn trail(&self) -> &Trail
        ensures { result.now ≡ self.now }
    {
        &self.trail
    }

    /// Adds variables until there are this many.
    pub fn grow(&mut self, vars: u32) -> Result<(), Memory>
        requires { vars ≤ VAR_LIMIT }
        ensures ok { OnOk result (self.new ≡ record self.old { vars = max self.old.vars vars }) }
        ensures err { OnErr result (self.new ≡ self.old) }
    {
        self.watched.grow(vars)?;
        self.trail.grow(vars)
    }

    /// Makes sure that there is room to attach this many more clauses.
    pub fn reserve_clauses(&mut self, clauses: usize) -> Result<(), Memory>
        ensures ok { OnOk result (self.new ≡ record self.old { spare = max self.old.spare clauses }) }
        ensures err { OnErr result (self.new ≡ self.old) }
    {
        self.watched.reserve(clauses)?;
        self.trail.reserve_clauses(clauses)
    }

    /// Attaches a clause of the database, which may have grown since the last one was attached.
    pub fn attach(&mut self, db: &Clauses, id: ClauseId)
        requires room { 1 ≤ self.old.spare }
        requires grown { IsFront self.old.clauses db.now.clauses }
        requires from_one { 1 ≤ id }
        requires in_range { id ≤ length db.now.clauses }
        requires known { IfSome (clause_numbered db.now.clauses id) (HasValues self.old.vars) }
        requires quiet { JoinsQuietly self.old (clause_numbered db.now.clauses id) }
        ensures { self.new ≡ with_attached_clause self.old db.now.clauses id }
    {
        self.watched.attach(&self.trail, db, id);
        self.trail.attach(db, id);
    }

    /// Attaches a clause of the database, and makes its literal true where one is open and all others are false. `propagate` does the rest.
    pub fn join(&mut self, db: &Clauses, id: ClauseId)
        requires room { 1 ≤ self.old.spare }
        requires grown { IsFront self.old.clauses db.now.clauses }
        requires from_one { 1 ≤ id }
        requires in_range { id ≤ length db.now.clauses }
        requires known { IfSome (clause_numbered db.now.clauses id) (HasValues self.old.vars) }
        requires quiet { JoinsQuietly self.old (clause_numbered db.now.clauses id) }
        ensures state { IsTrailState (with_attached_clause self.old db.now.clauses id) }
        ensures grown { Propagates (with_attached_clause self.old db.now.clauses id) self.new }
    {
        self.watched.join(&mut self.trail, db, id);
    }

    /// Makes true what attached clauses force, until nothing is forced or one is false.
    pub fn propagate(&mut self, db: &Clauses) -> Propagated
        requires { IsFront self.old.clauses db.now.clauses }
        ensures grown { Propagates self.old self.new }
        ensures outcome { IsPropagated self.new result }
    {
        self.watched.propagate(&mut self.trail, db)
    }

    /// Makes an open literal true by decision, where no attached clause is false or unit.
    pub fn decide(&mut self, lit: Lit)
        requires known { lit.var < self.old.vars }
        requires undecided { is_open self.old.literals lit ≡ true }
        requires quiet { AreQuiet self.old.clauses self.old.attached self.old.literals }
        ensures { self.new ≡ with_true_literal self.old lit None }
    {
        self.trail.decide(lit);
    }

    /// Keeps the literals up to a level.
    pub fn back_to(&mut self, level: u32)
        requires { level ≤ level_of self.old.reasons }
        ensures { IsKeptUpTo self.old self.new level }
    {
        self.trail.is_sound();
        self.trail.back_to(level);
        self.watched.back_to(self.trail.len());
    }
}
