// Attaching: which two literals of a clause are watched, and what a learnt clause forces at once.
ghost use Rattle.std.specs.Prelude.{◌≡◌, ◌<◌, ◌≤◌, ◌||◌, [], true, false, length, min, Some, IfSome, IfNone};
ghost use Rattle.std.specs.List.{list_any, list_all};
ghost use Rattle.prop_core.specs.Clauses.{same_literal, HasValues};
ghost use Rattle.prop_core.specs.Derivation.{clause_numbered};
ghost use Rattle.sat_prop.specs.Quiet.{JoinsQuietly};
ghost use Rattle.sat_prop.specs.Kept.{IsTrailState};
ghost use Rattle.sat_prop.specs.Changes.{IsFront, Propagates, with_attached_clause};
ghost use Rattle.sat_prop.specs.Watching.{AreWatched, AreTwo, IsForcing, IsNarrow};

use crate::recent::{RecentClause, signature};
use crate::trail::Trail;
use crate::watched::{Watched, replacement};
use prop_core::{ClauseId, Clauses, Lit};

impl Watched {
    /// Watches a clause that is to be attached, or keeps it among the short ones. What becomes false of the watched literals
    /// is looked at after this, again if need be.
    pub fn attach(&mut self, trail: &Trail, db: &Clauses, id: ClauseId)
        requires watched { AreWatched trail.now self.old }
        requires room { 1 ≤ trail.now.spare }
        requires grown { IsFront trail.now.clauses db.now.clauses }
        requires from_one { 1 ≤ id }
        requires in_range { id ≤ length db.now.clauses }
        requires known { IfSome (clause_numbered db.now.clauses id) (HasValues trail.now.vars) }
        ensures { AreWatched (with_attached_clause trail.now db.now.clauses id) self.new }
    {
        trail.is_sound();
        match two_literals(trail, db.clause(id)) {
            Some((first, second)) => {
                self.lists.add(db.number(id), first, second);
                let falls = trail.falls(first).min(trail.falls(second));
                self.seen = self.seen.min(falls);
            }
            None => {
                self.short.push(id).unwrap();
                self.spare -= 1;
            }
        }
    }

    /// Watches a learnt clause, and attaches it to the trail too. If it has one open literal and the literals that have been looked at make all others
    /// false, that one is made true, so that nothing has to be looked at again. Those of the clauses that joined last that it subsumes are no longer watched.
    pub fn join(&mut self, trail: &mut Trail, db: &Clauses, id: ClauseId)
        requires watched { AreWatched trail.old self.old }
        requires room { 1 ≤ trail.old.spare }
        requires grown { IsFront trail.old.clauses db.now.clauses }
        requires from_one { 1 ≤ id }
        requires in_range { id ≤ length db.now.clauses }
        requires known { IfSome (clause_numbered db.now.clauses id) (HasValues trail.old.vars) }
        requires quiet { JoinsQuietly trail.old (clause_numbered db.now.clauses id) }
        ensures watched { AreWatched trail.new self.new }
        ensures state { IsTrailState (with_attached_clause trail.old db.now.clauses id) }
        ensures grown { Propagates (with_attached_clause trail.old db.now.clauses id) trail.new }
    {
        let learnt = RecentClause {
            watch: self.lists.len(),
            signature: signature(db.clause(id)),
        };
        self.add_learnt(trail, db, id);
        self.drop_each_subsumed(trail, db, learnt);
        self.recent.put(learnt);
    }

    // Attaches a clause to the trail too, and makes true what it forces, as `join` says.
    fn add_learnt(&mut self, trail: &mut Trail, db: &Clauses, id: ClauseId)
        requires watched { AreWatched trail.old self.old }
        requires room { 1 ≤ trail.old.spare }
        requires grown { IsFront trail.old.clauses db.now.clauses }
        requires from_one { 1 ≤ id }
        requires in_range { id ≤ length db.now.clauses }
        requires known { IfSome (clause_numbered db.now.clauses id) (HasValues trail.old.vars) }
        requires quiet { JoinsQuietly trail.old (clause_numbered db.now.clauses id) }
        ensures watched { AreWatched trail.new self.new }
        ensures state { IsTrailState (with_attached_clause trail.old db.now.clauses id) }
        ensures grown { Propagates (with_attached_clause trail.old db.now.clauses id) trail.new }
    {
        match forcing(trail, db.clause(id), self.seen) {
            Some((first, second)) => {
                self.lists.add(db.number(id), first, second);
                trail.attach(db, id);
                trail.is_sound();
                trail.force(db, id, first);
            }
            None => {
                self.attach(trail, db, id);
                trail.attach(db, id);
                trail.is_sound();
            }
        }
    }
}

// An open literal of a clause and one that became false last, where all but the open one became so by the first `seen` literals.
fn forcing(trail: &Trail, clause: &[Lit], seen: u32) -> Option<(Lit, Lit)>
    ensures { IfSome result (λ two. IsForcing trail.now.literals clause.now seen two.0 two.1) }
{
    trail.is_sound();
    let (first, second) = two_literals(trail, clause)?;
    let place = trail.falls(second);
    if trail.value(first.var()).is_some() || place >= seen {
        return None;
    }
    if replacement(trail, clause, first, place).is_some() {
        return None;
    }
    Some((first, second))
}

// Two different literals of a clause, if it has two: preferably ones that aren't false, and else those that became false last, so that
// little has to be looked at again.
fn two_literals(trail: &Trail, clause: &[Lit]) -> Option<(Lit, Lit)>
    ensures two { IfSome result (λ two. AreTwo clause.now two.0 two.1) }
    ensures none { IfNone result (IsNarrow clause.now) }
{
    let first = latest(trail, clause, None)?;
    let second = latest(trail, clause, Some(first))?;
    Some((first, second))
}

// A literal of a clause that isn't false, or else the one that became false last. One literal may be left out.
fn latest(trail: &Trail, clause: &[Lit], but: Option<Lit>) -> Option<Lit>
    ensures among { IfSome result (λ l. list_any (same_literal l) clause.now ≡ true) }
    ensures other { IfSome result (λ l. IfSome but (λ b. same_literal b l ≡ false)) }
    ensures empty { IfNone result (IfNone but (clause.now ≡ [])) }
    ensures alone { IfNone result (IfSome but (λ b. list_all (same_literal b) clause.now ≡ true)) }
{
    let mut best: Option<Lit> = None;
    for lit in clause {
        if but == Some(*lit) {
            continue;
        }
        if !is_false(trail, *lit) {
            return Some(*lit);
        }
        if is_later(trail, &best, *lit) {
            best = Some(*lit);
        }
    }
    best
}

fn is_false(trail: &Trail, lit: Lit) -> bool {
    trail.value(lit.var()) == Some(!lit.is_positive())
}

// Whether a literal became false later than the best so far.
fn is_later(trail: &Trail, best: &Option<Lit>, lit: Lit) -> bool
    ensures { IfNone best.now (result ≡ true) }
{
    match best {
        Some(best) => trail.falls(*best) < trail.falls(lit),
        None => true,
    }
}
