// A clause that subsumes another one, and is the reason in its place.
ghost use Rattle.std.specs.Prelude.{◌≡◌, ◌<◌, ◌≤◌, [], length};
ghost use Rattle.sat_prop.specs.Changes.{IsFront};

use crate::literals::{NO_0, NO_1, YES_0, YES_1, YES_2, are_below, push_all};
use prop_core::{ClauseId, Clauses, Lit};
use sat_prop::{Propagated, Propagator};

// Joins a clause where no literal is true yet, and says whether it could.
fn joins(propagator: &mut Propagator, db: &Clauses, id: ClauseId) -> bool
    requires front { IsFront propagator.old.clauses db.now.clauses }
    requires vars { propagator.old.vars ≡ 3 }
    requires from_one { 1 ≤ id }
    requires in_range { id ≤ length db.now.clauses }
    ensures front { IsFront propagator.new.clauses db.now.clauses }
    ensures vars { propagator.new.vars ≡ 3 }
{
    if !are_below(db.clause(id), 3) || propagator.trail().len() != 0 {
        return false;
    }
    if propagator.reserve_clauses(1).is_err() {
        return false;
    }
    propagator.join(db, id);
    true
}

// Decides a literal, where nothing is left to do and its variable is open.
fn decide(propagator: &mut Propagator, db: &Clauses, lit: Lit)
    requires front { IsFront propagator.old.clauses db.now.clauses }
    requires known { lit.var < propagator.old.vars }
    ensures front { IsFront propagator.new.clauses db.now.clauses }
    ensures vars { propagator.new.vars ≡ propagator.old.vars }
{
    if let Propagated::Quiet = propagator.propagate(db) {
        if propagator.trail().value(lit.var()).is_none() {
            propagator.decide(lit);
        }
    }
}

// Whether the second clause forces the last literal, if the others of both are false.
fn forces(propagator: &mut Propagator, db: &Clauses) -> bool
    requires front { IsFront propagator.old.clauses db.now.clauses }
    requires vars { propagator.old.vars ≡ 3 }
{
    decide(propagator, db, Lit::numbered(NO_1));
    decide(propagator, db, Lit::numbered(NO_0));
    matches!(propagator.propagate(db), Propagated::Quiet)
        && propagator.trail().reason(2) == Some(ClauseId(2))
}

static WIDER_AND_PART: [&[u32]; 2] = [&[YES_0, YES_1, YES_2], &[YES_2, YES_0]];

// Both clauses force the last literal, and the first of them came to be watched there before the other: but it isn't watched any more.
fn subsumes(propagator: &mut Propagator, db: &mut Clauses) -> bool
    requires { propagator.old ≡ record { clauses = []; attached = []; literals = []; reasons = []; vars = 0; spare = 0 } }
{
    push_all(db, &WIDER_AND_PART)
        && db.len() == 2
        && propagator.grow(3).is_ok()
        && joins(propagator, db, ClauseId(1))
        && joins(propagator, db, ClauseId(2))
        && forces(propagator, db)
}

#[test]
fn takes_a_reason_that_subsumes(rt: HostRuntime) {
    assert!(rt;
        subsumes(
            &mut Propagator::new(rt.alloc()),
            &mut Clauses::new(rt.alloc())
        )
    );
}
