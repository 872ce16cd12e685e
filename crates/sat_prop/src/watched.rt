// Propagation by watched literals: a clause is looked at when one of its two watched literals becomes false. A clause that a later learnt one
// subsumes is no longer watched.
ghost use Rattle.std.specs.Prelude.{◌≡◌, ◌+◌, ◌<◌, ◌≤◌, ◌||◌, ◌⊎◌, true, false, length, max, min, take, Some, Contains, OnOk, OnErr, IfSome, IfNone};
ghost use Rattle.std.specs.List.{list_all};
ghost use Rattle.prop_core.specs.Clauses.{same_literal, is_false, is_true};
ghost use Rattle.prop_core.specs.Derivation.{clause_numbered};
ghost use Rattle.prop_core.specs.Trail.{is_forced_by};
ghost use Rattle.sat_prop.specs.Quiet.{AreQuiet, IsConflict, IsPropagated};
ghost use Rattle.sat_prop.specs.Changes.{IsFront, Propagates, with_true_literal};
ghost use Rattle.sat_prop.specs.Watches.{IsFirstWaiting, IsLive};
ghost use Rattle.sat_prop.specs.Watching.{AreTwo, AreWatched, AreVisited, IsVisiting, Visits, IsInspectedWatch, IsReplacement, IsReplaced, no_watched};

use crate::propagator::Propagated;
use crate::recent::Recent;
use crate::standing::Stands;
use crate::trail::Trail;
use crate::watch_lists::{Watch, WatchLists};
use des_base::{Memory, VAR_LIMIT};
use prop_core::{ClauseId, Clauses, Lit};
use std::alloc::Global;
use std::marker::Model;

/// The clauses that are attached: with two different literals they are watched, without they are short, and looked at at
/// level 0. The first `seen` literals have been looked at.
#[derive(Drop)]
pub struct Watched {
    pub(crate) short: Vec<ClauseId>,
    pub(crate) spare: usize,
    pub(crate) lists: WatchLists,
    pub(crate) seen: u32,
    pub(crate) recent: Recent,
}

impl Model for Watched {
    ghost use Rattle.std.specs.Prelude.{◌+◌, ◌≤◌, vec_len, vec_capacity};
    ghost use Rattle.sat_prop.specs.Watching.{WatchedState};

    ghost Value = { WatchedState };

    ghost use Rattle.sat_prop.specs.View.{watched_view};

    ghost view = { watched_view };

    ghost invariant = { λ a. vec_len a.short + a.spare ≤ vec_capacity a.short };
}

impl Watched {
    /// Nothing is attached.
    pub fn new(alloc: Global) -> Watched
        ensures { result ≡ no_watched }
    {
        Watched {
            short: Vec::new(alloc),
            spare: 0,
            lists: WatchLists::new(alloc),
            seen: 0,
            recent: Recent::new(),
        }
    }

    /// Makes sure that literals of `vars` variables can be watched.
    pub fn grow(&mut self, vars: u32) -> Result<(), Memory>
        requires { vars ≤ VAR_LIMIT }
        ensures ok { OnOk result (self.new ≡ record self.old { lists = record self.old.lists { vars = max self.old.lists.vars vars } }) }
        ensures err { OnErr result (self.new ≡ self.old) }
    {
        self.lists.grow(vars)
    }

    /// Makes sure that there is room to attach this many more clauses.
    pub fn reserve(&mut self, clauses: usize) -> Result<(), Memory>
        ensures short { self.new.short ≡ self.old.short }
        ensures seen { self.new.seen ≡ self.old.seen }
        ensures watches { self.new.lists.watches ≡ self.old.lists.watches }
        ensures waiting { self.new.lists.waiting ≡ self.old.lists.waiting }
        ensures vars { self.new.lists.vars ≡ self.old.lists.vars }
        ensures no_less { (self.old.spare ≤ self.new.spare) × (self.old.lists.spare ≤ self.new.lists.spare) }
        ensures ok { OnOk result ((clauses ≤ self.new.spare) × (clauses ≤ self.new.lists.spare)) }
    {
        self.short.reserve(self.spare.max(clauses))?;
        self.spare = self.spare.max(clauses);
        self.lists.reserve(clauses)
    }

    /// Only the first `len` literals are left.
    pub fn back_to(&mut self, len: u32)
        ensures { self.new ≡ record self.old { seen = min self.old.seen len } }
    {
        self.seen = self.seen.min(len);
    }

    /// Makes true what attached clauses force, until nothing is forced or one is false.
    pub fn propagate(&mut self, trail: &mut Trail, db: &Clauses) -> Propagated
        requires watched { AreWatched trail.old self.old }
        requires grown { IsFront trail.old.clauses db.now.clauses }
        ensures watched { AreWatched trail.new self.new }
        ensures grown { Propagates trail.old trail.new }
        ensures outcome { IsPropagated trail.new result }
    {
        'more: loop {
            let before = trail.len();
            if let Some(id) = self.propagate_short(trail, db) {
                return Propagated::Conflict(id);
            }
            if let Some(id) = self.propagate_watched(trail, db) {
                return Propagated::Conflict(id);
            }
            trail.is_sound();
            if trail.len() == before {
                return Propagated::Quiet;
            }
        }
    }

    // Looks at the short clauses at level 0, and nowhere else: just before a decision they were neither false nor forced anything, so they
    // are true from there on. Returns one that is false.
    fn propagate_short(&self, trail: &mut Trail, db: &Clauses) -> Option<ClauseId>
        requires watched { AreWatched trail.old self.now }
        requires grown { IsFront trail.old.clauses db.now.clauses }
        ensures watched { AreWatched trail.new self.now }
        ensures grown { Propagates trail.old trail.new }
        ensures conflict { IfSome result (IsConflict trail.new) }
        ensures quiet { IfNone result (length trail.new.literals ≡ length trail.old.literals → AreQuiet trail.new.clauses self.now.short trail.new.literals) }
    {
        trail.is_sound();
        if trail.level() > 0 {
            return None;
        }
        self.propagate_each_short(trail, db)
    }

    // Looks at each short clause, and makes true what it forces. Returns one that is false.
    fn propagate_each_short(&self, trail: &mut Trail, db: &Clauses) -> Option<ClauseId>
        requires watched { AreWatched trail.old self.now }
        requires grown { IsFront trail.old.clauses db.now.clauses }
        ensures watched { AreWatched trail.new self.now }
        ensures grown { Propagates trail.old trail.new }
        ensures conflict { IfSome result (IsConflict trail.new) }
        ensures quiet { IfNone result (length trail.new.literals ≡ length trail.old.literals → AreQuiet trail.new.clauses self.now.short trail.new.literals) }
    {
        for place in 0..self.short.len() {
            trail.is_sound();
            let id = self.short[place];
            match trail.standing(db.clause(id)) {
                Stands::False => return Some(id),
                Stands::Unit(lit) => trail.force(db, id, lit),
                Stands::Quiet => {}
            }
        }
        None
    }

    // Looks at each literal that hasn't been looked at. Returns a clause that is false.
    fn propagate_watched(&mut self, trail: &mut Trail, db: &Clauses) -> Option<ClauseId>
        requires watched { AreWatched trail.old self.old }
        requires grown { IsFront trail.old.clauses db.now.clauses }
        ensures watched { AreWatched trail.new self.new }
        ensures grown { Propagates trail.old trail.new }
        ensures short { self.new.short ≡ self.old.short }
        ensures conflict { IfSome result (IsConflict trail.new) }
        ensures all { IfNone result (self.new.seen ≡ length trail.new.literals) }
    {
        'more: while self.seen < trail.len() {
            trail.is_sound();
            let lit = trail.literal(self.seen).negated();
            if let Some(id) = self.propagate_literal(trail, db, lit) {
                return Some(id);
            }
            self.seen += 1;
        }
        None
    }

    // Looks at each clause that watches the literal, which the first literal that hasn't been looked at makes false.
    fn propagate_literal(&mut self, trail: &mut Trail, db: &Clauses, lit: Lit) -> Option<ClauseId>
        requires visiting { IsVisiting trail.old self.old db.now.clauses lit }
        ensures visits { Visits trail.old self.old trail.new self.new }
        ensures conflict { IfSome result (IsConflict trail.new) }
        ensures visited { IfNone result (AreWatched trail.new (record self.new { seen = self.new.seen + 1 })) }
    {
        trail.is_sound();
        self.lists.open(lit);
        'more: while let Some(number) = self.lists.next() {
            if let Some(id) = self.propagate_watch(trail, db, number, lit) {
                return Some(id);
            }
        }
        None
    }

    // Looks at the clause of the next watch that waits, unless it was dropped, and returns it if it is false.
    fn propagate_watch(
        &mut self,
        trail: &mut Trail,
        db: &Clauses,
        number: u32,
        lit: Lit,
    ) -> Option<ClauseId>
        requires next { IsFirstWaiting self.old.lists number }
        requires visiting { IsVisiting trail.old self.old db.now.clauses lit }
        requires visited { AreVisited trail.old self.old }
        ensures visits { Visits trail.old self.old trail.new self.new }
        ensures conflict { IfSome result (IsConflict trail.new) }
        ensures visited { IfNone result (AreVisited trail.new self.new) }
        ensures fewer { IfNone result (length self.new.lists.waiting + 1 ≡ length self.old.lists.waiting) }
    {
        if self.lists.is_dropped(number) {
            self.lists.forget();
            return None;
        }
        self.propagate_clause(trail, db, number, lit)
    }

    // Looks at the clause of the next watch that waits, and returns it if it is false.
    fn propagate_clause(
        &mut self,
        trail: &mut Trail,
        db: &Clauses,
        number: u32,
        lit: Lit,
    ) -> Option<ClauseId>
        requires next { IsFirstWaiting self.old.lists number }
        requires live { IsLive self.old.lists.watches number }
        requires visiting { IsVisiting trail.old self.old db.now.clauses lit }
        requires visited { AreVisited trail.old self.old }
        ensures visits { Visits trail.old self.old trail.new self.new }
        ensures conflict { IfSome result (IsConflict trail.new) }
        ensures visited { IfNone result (AreVisited trail.new self.new) }
        ensures fewer { IfNone result (length self.new.lists.waiting + 1 ≡ length self.old.lists.waiting) }
    {
        let watch = self.lists.watch(number);
        let inspected = self.inspect(trail, db, number, lit);
        trail.is_sound();
        match inspected {
            Inspected::Stays => self.lists.stay(),
            Inspected::Moves(found) => self.lists.put(found),
            Inspected::False => return Some(ClauseId(watch.clause as u64)),
        }
        None
    }

    // What becomes of a watch. The other literal of its clause is made true where all others are false.
    fn inspect(&self, trail: &mut Trail, db: &Clauses, number: u32, lit: Lit) -> Inspected
        requires number { number < length self.now.lists.watches }
        requires live { IsLive self.now.lists.watches number }
        requires visiting { IsVisiting trail.old self.now db.now.clauses lit }
        ensures watched { AreWatched trail.new self.now }
        ensures grown { Propagates trail.old trail.new }
        ensures visited { AreVisited trail.old self.now → AreVisited trail.new self.now }
        ensures inspected { IsInspectedWatch trail.new self.now number result }
    {
        let watch = self.lists.watch(number);
        let other = self.lists.other_literal(number);
        if watch.lit != lit || trail.holds_up_to(other, self.seen) {
            return Inspected::Stays;
        }
        replace_or_force(trail, db, watch, other, self.seen)
    }
}

// What becomes of a watch: it stays at its literal, it moves to another one, or its clause is false.
#[derive(Clone, Copy)]
enum Inspected {
    Stays,
    Moves(Lit),
    False,
}

// What becomes of a watch whose literal is false, where no literal up to a place makes the other one true: another literal of the
// clause is found that these don't make false, or else the other one is made true.
fn replace_or_force(
    trail: &mut Trail,
    db: &Clauses,
    watch: Watch,
    other: Lit,
    place: u32,
) -> Inspected
    requires grown { IsFront trail.old.clauses db.now.clauses }
    requires attached { Contains trail.old.attached watch.clause }
    requires two { IfSome (clause_numbered trail.old.clauses watch.clause) (λ clause. AreTwo clause watch.lit other) }
    requires falls { is_false (take (place + 1) trail.old.literals) watch.lit ≡ true }
    requires place { place < length trail.old.literals }
    ensures kept { (trail.new ≡ trail.old) ⊎ (trail.new ≡ with_true_literal trail.old other (Some watch.clause)) }
    ensures replaced { IsReplaced trail.old trail.new watch.clause other place result }
{
    trail.is_sound();
    let id = ClauseId(watch.clause as u64);
    match further(trail, db.clause(id), watch.lit, other, place) {
        Some(found) => Inspected::Moves(found),
        None => {
            if make_true(trail, db, id, other) {
                Inspected::Stays
            } else {
                Inspected::False
            }
        }
    }
}

// Makes sure that a literal is true that a clause forces if it is open. Returns whether it is; else the clause is false.
fn make_true(trail: &mut Trail, db: &Clauses, id: ClauseId, lit: Lit) -> bool
    requires grown { IsFront trail.old.clauses db.now.clauses }
    requires attached { Contains trail.old.attached id }
    requires forced { IfSome (clause_numbered db.now.clauses id) (λ clause. is_forced_by trail.old.literals lit clause ≡ true) }
    ensures holds { result ≡ true → is_true trail.new.literals lit ≡ true }
    ensures conflict { result ≡ false → IsConflict trail.new id }
    ensures kept { (trail.new ≡ trail.old) ⊎ (trail.new ≡ with_true_literal trail.old lit (Some id)) }
{
    trail.is_sound();
    match trail.value(lit.var()) {
        Some(value) => value == lit.is_positive(),
        None => {
            trail.force(db, id, lit);
            true
        }
    }
}

// A literal of the clause besides the two that are watched, one of which is false, that no literal up to a place makes false. A clause of two
// has none, so it isn't read.
fn further(trail: &Trail, clause: &[Lit], false_one: Lit, other: Lit, place: u32) -> Option<Lit>
    requires two { AreTwo clause.now false_one other }
    requires falls { is_false (take (place + 1) trail.now.literals) false_one ≡ true }
    ensures some { IfSome result (IsReplacement trail.now.literals clause.now other place) }
    ensures none { IfNone result (list_all (λ l. same_literal other l || is_false (take (place + 1) trail.now.literals) l) clause.now ≡ true) }
{
    if clause.len() == 2 {
        return None;
    }
    replacement(trail, clause, other, place)
}

// A literal of the clause, not the other one that is watched, that no literal up to a place makes false.
pub fn replacement(trail: &Trail, clause: &[Lit], other: Lit, place: u32) -> Option<Lit>
    ensures some { IfSome result (IsReplacement trail.now.literals clause.now other place) }
    ensures none { IfNone result (list_all (λ l. same_literal other l || is_false (take (place + 1) trail.now.literals) l) clause.now ≡ true) }
{
    for lit in clause {
        if *lit != other && !trail.holds_up_to(lit.negated(), place) {
            return Some(*lit);
        }
    }
    None
}
