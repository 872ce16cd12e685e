// The trail: the literals that are true, in their order, each decided or forced by a clause.
ghost use Rattle.std.specs.Prelude.{◌≡◌, ℕ, ◌<◌, ◌≤◌, ◌+◌, ◌-◌, ◌^◌, ◌++◌, ◌∷◌, [], List, length, max, take, true, false, Some, None, Contains, slice_get, slice_set, vec_len, vec_capacity, OnOk, OnErr, IfSome};
ghost use Rattle.prop_core.specs.declared.lit.Lit.{Lit};
ghost use Rattle.prop_core.specs.Derivation.{clause_numbered, unit};
ghost use Rattle.prop_core.specs.Clauses.{is_open, is_true, negation, HasValues};
ghost use Rattle.prop_core.specs.Trail.{has_var};
ghost use Rattle.sat_prop.specs.TrailState.{literal_at, trail_value, reason_at, StandsAt};
ghost use Rattle.sat_prop.specs.Levels.{level_of, level_at, IsUpToLevel, IsLastDecision};
ghost use Rattle.sat_prop.specs.Quiet.{AreQuiet, JoinsQuietly, stands};
ghost use Rattle.sat_prop.specs.Changes.{IsFront, with_true_literal, with_attached_clause, IsKeptUpTo};
ghost use Rattle.sat_prop.specs.Kept.{IsTrailState, AreValues, IsSeen};

use crate::attached::Attached;
use crate::standing::Stands;
use des_base::{Memory, VAR_LIMIT};
use prop_core::{ClauseId, Clauses, Lit};
use std::alloc::Global;
use std::marker::Model;
use std::snapshot::Snapshot;

/// Literals that are true, in their order, over clauses that are attached.
///
/// Others read it alone. A `Propagator` has one, and changes it where it keeps the watches in step.
#[derive(Drop)]
pub struct Trail {
    db: Snapshot<Clauses>,
    attached: Attached,
    spare: usize,
    literals: Vec<Lit>,
    reasons: Vec<Option<ClauseId>>,
    levels: Vec<u32>,
    starts: Vec<u32>,
    places: Vec<u32>,
    values: Vec<Option<bool>>,
}

impl Model for Trail {
    ghost use Rattle.sat_prop.specs.TrailState.{TrailState};

    ghost Value = { TrailState };

    ghost use Rattle.sat_prop.specs.View.{trail_view, IsKeptTrail};

    ghost view = { trail_view };

    ghost invariant = { IsKeptTrail };
}

impl Trail {
    /// Nothing is attached, and there are no variables.
    pub(crate) fn new(alloc: Global) -> Trail
        ensures { result ≡ record { clauses = []; attached = []; literals = []; reasons = []; vars = 0; spare = 0 } }
    {
        Trail {
            db: Snapshot::of(&Clauses::new(alloc)),
            attached: Attached::none(),
            spare: 0,
            literals: Vec::new(alloc),
            reasons: Vec::new(alloc),
            levels: Vec::new(alloc),
            starts: Vec::new(alloc),
            places: Vec::new(alloc),
            values: Vec::new(alloc),
        }
    }

    /// Adds variables until there are this many.
    pub(crate) fn grow(&mut self, vars: u32) -> Result<(), Memory>
        requires { vars ≤ VAR_LIMIT }
        ensures ok { OnOk result (self.new ≡ record self.old { vars = max self.old.vars vars }) }
        ensures err { OnErr result (self.new ≡ self.old) }
    {
        let count = self.places.len().max(vars as usize);
        reserve_literals(
            &mut self.literals,
            &mut self.reasons,
            &mut self.levels,
            &mut self.starts,
            count,
        )?;
        widen(&mut self.values, count)?;
        self.places.resize(count, 0)?;
        Ok(())
    }

    /// Makes sure that there is room to attach this many more clauses.
    pub(crate) fn reserve_clauses(&mut self, clauses: usize) -> Result<(), Memory>
        ensures ok { OnOk result (self.new ≡ record self.old { spare = max self.old.spare clauses }) }
        ensures err { OnErr result (self.new ≡ self.old) }
    {
        if clauses > MOST_CLAUSES {
            return Err(Memory);
        }
        self.spare = self.spare.max(clauses);
        Ok(())
    }

    /// Attaches a clause of the database, which may have grown since the last one was attached.
    pub(crate) fn attach(&mut self, db: &Clauses, id: ClauseId)
        requires room { 1 ≤ self.old.spare }
        requires grown { IsFront self.old.clauses db.now.clauses }
        requires from_one { 1 ≤ id }
        requires in_range { id ≤ length db.now.clauses }
        requires known { IfSome (clause_numbered db.now.clauses id) (HasValues self.old.vars) }
        requires quiet { JoinsQuietly self.old (clause_numbered db.now.clauses id) }
        ensures { self.new ≡ with_attached_clause self.old db.now.clauses id }
    {
        self.attached.push(id);
        self.spare -= 1;
        self.db = Snapshot::of(db);
    }

    /// Makes an open literal true by decision, where no attached clause is false or unit.
    pub(crate) fn decide(&mut self, lit: Lit)
        requires known { lit.var < self.old.vars }
        requires undecided { is_open self.old.literals lit ≡ true }
        requires quiet { AreQuiet self.old.clauses self.old.attached self.old.literals }
        ensures { self.new ≡ with_true_literal self.old lit None }
    {
        self.starts.push(self.literals.len() as u32).unwrap();
        set(&mut self.values, lit.var(), Some(lit.is_positive()));
        set(&mut self.places, lit.var(), self.literals.len() as u32);
        append(&mut self.literals, lit);
        append(&mut self.reasons, None);
        append(&mut self.levels, self.starts.len() as u32);
    }

    /// Keeps the literals up to a level.
    pub(crate) fn back_to(&mut self, level: u32)
        requires { level ≤ level_of self.old.reasons }
        ensures { IsKeptUpTo self.old self.new level }
    {
        let kept = self.count_up_to(level);
        forget(&mut self.values, &self.literals, kept);
        self.literals.truncate(kept);
        self.reasons.truncate(kept);
        self.levels.truncate(kept);
        self.starts.truncate(level as usize);
    }

    /// The present level: how many decisions stand.
    pub fn level(&self) -> u32
        ensures { result ≡ level_of self.now.reasons }
    {
        self.starts.len() as u32
    }

    /// The level of a variable's literal.
    pub fn level_of(&self, var: u32) -> u32
        requires { has_var var self.now.literals ≡ true }
        ensures { (place : ℕ) → StandsAt self.now.literals var place → result ≡ level_at self.now.reasons place }
    {
        self.levels[self.place_of(var) as usize]
    }

    /// The value of a variable: none if it is open, or is no variable of the trail.
    pub fn value(&self, var: u32) -> Option<bool>
        ensures { result ≡ trail_value self.now.literals var }
    {
        if var as usize >= self.values.len() {
            return None;
        }
        self.values[var as usize]
    }

    /// The clause that forced a variable's literal: none if that was decided, or the variable is open.
    pub fn reason(&self, var: u32) -> Option<ClauseId>
        ensures stands { (place : ℕ) → StandsAt self.now.literals var place → result ≡ reason_at self.now.reasons place }
        ensures absent { has_var var self.now.literals ≡ false → result ≡ None }
    {
        match self.value(var) {
            None => None,
            Some(_) => self.reasons[self.place_of(var) as usize],
        }
    }

    /// The place of a variable's literal.
    pub fn place_of(&self, var: u32) -> u32
        requires { has_var var self.now.literals ≡ true }
        ensures { StandsAt self.now.literals var result }
    {
        self.places[var as usize]
    }

    /// How many literals are true.
    pub fn len(&self) -> u32
        ensures { result ≡ length self.now.literals }
    {
        self.literals.len() as u32
    }

    /// The literal at a place, from 0, in the order in which they became true.
    pub fn literal(&self, place: u32) -> Lit
        requires { place < length self.now.literals }
        ensures { slice_get self.now.literals place ≡ Some result }
    {
        self.literals[place as usize]
    }

    /// The literals in their order.
    pub fn literals(&self) -> &[Lit]
        ensures { result.now ≡ self.now.literals }
    {
        &self.literals
    }

    /// A law: what is true of each trail.
    pub fn is_sound(&self)
        ensures state { IsTrailState self.now }
        ensures room { length self.now.literals ≤ self.now.vars }
        ensures limit { self.now.vars ≤ VAR_LIMIT }
        ensures spare { self.now.spare < 2 ^ 63 }
    {
        let _ = &self.db;
    }

    /// Why each literal is true: the clause that forced it, or none if it was decided.
    pub fn reasons(&self) -> &[Option<ClauseId>]
        ensures { result.now ≡ self.now.reasons }
    {
        &self.reasons
    }

    /// The place of the last decision.
    pub fn last_decision(&self) -> u32
        requires { 0 < level_of self.now.reasons }
        ensures { IsLastDecision self.now.reasons result }
    {
        self.starts[self.starts.len() - 1]
    }

    /// Whether a literal is among those up to a place.
    pub(crate) fn holds_up_to(&self, lit: Lit, place: u32) -> bool
        ensures { result ≡ is_true (take (place + 1) self.now.literals) lit }
    {
        self.is_sound();
        match self.value(lit.var()) {
            Some(value) => value == lit.is_positive() && self.place_of(lit.var()) <= place,
            None => false,
        }
    }

    /// A place before which no literal makes this one false: that of the one which does, if there is one.
    pub(crate) fn falls(&self, lit: Lit) -> u32
        ensures { (place : ℕ) → place < result → place < length self.now.literals → literal_at self.now.literals place ≡ negation lit → ⊥ }
    {
        self.is_sound();
        match self.value(lit.var()) {
            Some(value) => {
                if value == lit.is_positive() {
                    u32::MAX
                } else {
                    self.place_of(lit.var())
                }
            }
            None => u32::MAX,
        }
    }

    // How many literals stand up to a level.
    fn count_up_to(&self, level: u32) -> usize
        requires { level ≤ level_of self.now.reasons }
        ensures { IsUpToLevel self.now.reasons level result }
    {
        if (level as usize) < self.starts.len() {
            self.starts[level as usize] as usize
        } else {
            self.literals.len()
        }
    }

    /// How a clause stands.
    pub(crate) fn standing(&self, clause: &[Lit]) -> Stands
        ensures { IsSeen self.now.literals clause.now result }
    {
        self.is_sound();
        let mut candidate: Option<Lit> = None;
        for lit in clause {
            match self.value(lit.var()) {
                Some(value) => {
                    if value == lit.is_positive() {
                        return Stands::Quiet;
                    }
                }
                None => {
                    if let Some(first) = candidate {
                        if first != *lit {
                            return Stands::Quiet;
                        }
                    }
                    candidate = Some(*lit);
                }
            }
        }
        match candidate {
            None => Stands::False,
            Some(lit) => Stands::Unit(lit),
        }
    }

    /// Makes a literal true that an attached clause forces.
    pub(crate) fn force(&mut self, db: &Clauses, id: ClauseId, lit: Lit)
        requires grown { IsFront self.old.clauses db.now.clauses }
        requires attached { Contains self.old.attached id }
        requires forced { stands self.old.literals (clause_numbered db.now.clauses id) ≡ unit lit }
        ensures { self.new ≡ with_true_literal self.old lit (Some id) }
    {
        set(&mut self.values, lit.var(), Some(lit.is_positive()));
        set(&mut self.places, lit.var(), self.literals.len() as u32);
        append(&mut self.literals, lit);
        append(&mut self.reasons, Some(id));
        append(&mut self.levels, self.starts.len() as u32);
    }
}

// There are fewer clauses than 2^32.
const MOST_CLAUSES: usize = u32::MAX as usize;

// Makes sure that there is room for this many literals, with the reason and the level of each, and for as many levels.
fn reserve_literals(
    literals: &mut Vec<Lit>,
    reasons: &mut Vec<Option<ClauseId>>,
    levels: &mut Vec<u32>,
    starts: &mut Vec<u32>,
    count: usize,
) -> Result<(), Memory>
    ensures literals { literals.new.items ≡ literals.old.items }
    ensures reasons { reasons.new.items ≡ reasons.old.items }
    ensures levels { levels.new.items ≡ levels.old.items }
    ensures starts { starts.new.items ≡ starts.old.items }
    ensures no_less { (vec_capacity literals.old ≤ vec_capacity literals.new) × (vec_capacity reasons.old ≤ vec_capacity reasons.new) × (vec_capacity levels.old ≤ vec_capacity levels.new) × (vec_capacity starts.old ≤ vec_capacity starts.new) }
    ensures room { OnOk result ((count ≤ vec_capacity literals.new) × (count ≤ vec_capacity reasons.new) × (count ≤ vec_capacity levels.new) × (count ≤ vec_capacity starts.new)) }
{
    literals.reserve(count)?;
    reasons.reserve(count)?;
    levels.reserve(count)?;
    starts.reserve(count)?;
    Ok(())
}

// Makes sure that values of `count` variables can be kept.
fn widen(values: &mut Vec<Option<bool>>, count: usize) -> Result<(), Memory>
    ensures kept { (vars : ℕ) (literals : List Lit) → HasValues vars literals → AreValues vars literals values.old.items → AreValues vars literals values.new.items }
    ensures enough { OnOk result (count ≤ length values.new.items) }
{
    let room = values.len().max(count);
    values.resize(room, None)?;
    Ok(())
}

// Keeps what is known of a variable.
fn set<T: Copy>(items: &mut Vec<T>, var: u32, item: T)
    requires { var < length items.old.items }
    ensures { items.new.items ≡ slice_set items.old.items var item }
{
    items[var as usize] = item;
}

// Takes the values of the literals from a place on back.
fn forget(values: &mut Vec<Option<bool>>, literals: &[Lit], kept: usize)
    requires kept { kept ≤ length literals.now }
    requires known { HasValues (length values.old.items) literals.now }
    requires open_before { (place : ℕ) → place < length literals.now → is_open (take place literals.now) (literal_at literals.now place) ≡ true }
    requires values { AreValues (length values.old.items) literals.now values.old.items }
    ensures { AreValues (length values.old.items) (take kept literals.now) values.new.items }
{
    let mut place = literals.len();
    'down: while place > kept {
        place -= 1;
        set(values, literals[place].var(), None);
    }
}

// Puts an item behind the others, where there is room.
fn append<T>(items: &mut Vec<T>, item: T)
    requires room { vec_len items.old < vec_capacity items.old }
    ensures items { items.new.items ≡ items.old.items ++ item ∷ [] }
    ensures room { vec_capacity items.old ≤ vec_capacity items.new }
{
    items.push(item).unwrap();
}
