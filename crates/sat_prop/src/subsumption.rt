// A clause that a later learnt one subsumes is no longer watched.
ghost use Rattle.std.specs.Prelude.{◌≡◌, ◌≢◌, ◌↔◌, ◌≤◌, ◌⊎◌, true, false, length, Some, IfSome, IsTrue};
ghost use Rattle.std.specs.List.{list_any};
ghost use Rattle.prop_core.specs.Clauses.{same_literal};
ghost use Rattle.prop_core.specs.Derivation.{clause_numbered};
ghost use Rattle.sat_prop.specs.Changes.{IsFront};
ghost use Rattle.sat_prop.specs.Watching.{AreWatched, IsSubsumed, OnlyDrops, is_part_of, unwatched};

use crate::recent::{RECENT, RecentClause, may_be_part, signature};
use crate::trail::Trail;
use crate::watched::Watched;
use prop_core::{ClauseId, Clauses, Lit};

impl Watched {
    // Stops watching those of the clauses that joined last that the newer one subsumes.
    pub fn drop_each_subsumed(&mut self, trail: &Trail, db: &Clauses, newer: RecentClause)
        requires watched { AreWatched trail.now self.old }
        requires grown { IsFront trail.now.clauses db.now.clauses }
        ensures watched { AreWatched trail.now self.new }
        ensures drops { OnlyDrops self.old self.new }
    {
        for place in 0..RECENT {
            let older = self.recent.at(place);
            if may_be_part(newer.signature, older.signature) {
                self.drop_subsumed(trail, db, older.watch, newer.watch);
            }
        }
    }

    // Stops watching the clause of one watch if the clause of another watch subsumes it, and is a different one.
    fn drop_subsumed(&mut self, trail: &Trail, db: &Clauses, older: u32, newer: u32)
        requires watched { AreWatched trail.now self.old }
        requires grown { IsFront trail.now.clauses db.now.clauses }
        ensures watched { AreWatched trail.now self.new }
        ensures kept { (self.new ≡ self.old) ⊎ (self.new ≡ unwatched self.old older) }
        ensures dropped { IsSubsumed trail.now.clauses self.old.lists.watches older newer → self.new ≡ unwatched self.old older }
    {
        if !self.is_subsumed(trail, db, older, newer) {
            return;
        }
        self.lists.drop_clause(older);
    }

    // Whether the clause of the newer watch subsumes that of the older one, and is another clause; both are watched.
    fn is_subsumed(&self, trail: &Trail, db: &Clauses, older: u32, newer: u32) -> bool
        requires watched { AreWatched trail.now self.now }
        requires grown { IsFront trail.now.clauses db.now.clauses }
        ensures { IsTrue result ↔ IsSubsumed trail.now.clauses self.now.lists.watches older newer }
    {
        let Some(outer) = self.lists.clause(older) else {
            return false;
        };
        let Some(inner) = self.lists.clause(newer) else {
            return false;
        };
        trail.is_sound();
        subsumes_another(db, inner, outer)
    }
}

// Whether a clause subsumes another one, by their numbers.
fn subsumes_another(db: &Clauses, inner: u32, outer: u32) -> bool
    requires inner_from_one { 1 ≤ inner }
    requires inner_in_range { inner ≤ length db.now.clauses }
    requires outer_from_one { 1 ≤ outer }
    requires outer_in_range { outer ≤ length db.now.clauses }
    ensures another { IsTrue result → inner ≢ outer }
    ensures part { inner ≢ outer → IfSome (clause_numbered db.now.clauses inner) (λ part. IfSome (clause_numbered db.now.clauses outer) (λ whole. result ≡ is_part_of part whole)) }
{
    let part = db.clause(ClauseId(inner as u64));
    let whole = db.clause(ClauseId(outer as u64));
    inner != outer && is_part(part, whole)
}

// Whether each literal of a clause stands in another one.
fn is_part(inner: &[Lit], outer: &[Lit]) -> bool
    ensures { result ≡ is_part_of inner.now outer.now }
{
    for lit in inner {
        if !has_literal(outer, *lit) {
            return false;
        }
    }
    true
}

// Whether a literal stands in a clause.
fn has_literal(clause: &[Lit], lit: Lit) -> bool
    ensures { result ≡ list_any (same_literal lit) clause.now }
{
    for other in clause {
        if lit == *other {
            return true;
        }
    }
    false
}
