// Resolution back along a trail, from a conflict (Marques-Silva and Sakallah, "GRASP: a new search algorithm for satisfiability", 1996).
ghost use Rattle.std.specs.Prelude.{◌≡◌, ℕ, ◌<◌, ◌≤◌, ◌+◌, List, [], length, true, false, ◌||◌, Some, OnOk, IfOk};
ghost use Rattle.std.specs.List.{list_all};
ghost use Rattle.prop_core.specs.declared.lit.Lit.{Lit};
ghost use Rattle.prop_core.specs.Derivation.{clause_numbered};
ghost use Rattle.prop_core.specs.Trail.{has_var};
ghost use Rattle.sat_prop.specs.TrailState.{literal_at};
ghost use Rattle.sat_prop.specs.Levels.{IsLastDecision};
ghost use Rattle.sat_prop.specs.Quiet.{IsConflict};
ghost use Rattle.sat_learn.specs.Seen.{is_seen, count_seen, IsRefutedBySeen, IsAnalysed, IsResolvable, IsResolved, StillRefutes, IsOnlySeen, IsDecidedFrom};

use crate::analysed::Analysed;
use des_base::Memory;
use prop_core::{ClauseId, Lit};
use sat_prop::Trail;

// Sees the places of a clause's variables, and counts those from a place on that were not seen before.
pub fn see(seen: &mut [bool], trail: &Trail, clause: &[Lit], start: usize) -> usize
    requires size { length seen.old ≡ length trail.now.literals }
    requires stands { list_all (λ l. has_var l.var trail.now.literals) clause.now ≡ true }
    ensures size { length seen.new ≡ length seen.old }
    ensures each { (place : ℕ) → place < length seen.old → is_seen seen.new place ≡ (is_seen seen.old place || has_var (literal_at trail.now.literals place).var clause.now) }
    ensures counted { count_seen start seen.new ≡ count_seen start seen.old + result }
{
    let mut more = 0usize;
    trail.is_sound();
    for lit in clause {
        let place = trail.place_of(lit.var()) as usize;
        if !seen[place] {
            seen[place] = true;
            if start <= place {
                more += 1;
            }
        }
    }
    more
}

// Sees the reason of a place instead of the place, and counts as `see` does.
pub fn resolve(
    seen: &mut [bool],
    on: &Analysed<'_>,
    place: usize,
    id: ClauseId,
    hints: &mut Vec<ClauseId>,
) -> Result<usize, Memory>
    requires analysed { IsAnalysed on.now.trail.now on.now.clauses.now.clauses seen.old }
    requires resolvable { IsResolvable on.now.trail.now seen.old place id }
    ensures refuted { OnOk result (StillRefutes on.now.clauses.now.clauses on.now.trail.now.literals seen.old seen.new hints.old.items hints.new.items) }
    ensures resolved { OnOk result (IsResolved place seen.old seen.new) }
    ensures counted { on.now.start ≤ place → IfOk result (λ more. count_seen on.now.start seen.new + 1 ≡ count_seen on.now.start seen.old + more) }
    ensures size { length seen.new ≡ length seen.old }
{
    on.trail.is_sound();
    hints.push(id)?;
    let more = see(seen, on.trail, on.clauses.clause(id), on.start);
    seen[place] = false;
    Ok(more)
}

// Sees the places of a clause that is false, and counts as `see` does.
pub fn begin(
    seen: &mut [bool],
    on: &Analysed<'_>,
    conflict: ClauseId,
    hints: &mut Vec<ClauseId>,
) -> Result<usize, Memory>
    requires analysed { IsAnalysed on.now.trail.now on.now.clauses.now.clauses seen.old }
    requires conflict { IsConflict on.now.trail.now conflict }
    requires cleared { (place : ℕ) → is_seen seen.old place ≡ false }
    requires empty { hints.old.items ≡ [] }
    ensures refuted { OnOk result (IsRefutedBySeen on.now.clauses.now.clauses on.now.trail.now.literals [] seen.new hints.new.items) }
    ensures each { OnOk result ((place : ℕ) (c : List Lit) → place < length on.now.trail.now.literals → clause_numbered on.now.clauses.now.clauses conflict ≡ Some c → is_seen seen.new place ≡ has_var (literal_at on.now.trail.now.literals place).var c) }
    ensures counted { IfOk result (λ more. more ≡ count_seen on.now.start seen.new) }
    ensures size { length seen.new ≡ length seen.old }
{
    on.trail.is_sound();
    hints.push(conflict)?;
    let more = see(seen, on.trail, on.clauses.clause(conflict), on.start);
    Ok(more)
}

// Resolves from the last place down until one place is left that is seen from the last decision on, and gives it.
pub fn resolve_to_one(
    seen: &mut [bool],
    on: &Analysed<'_>,
    first: usize,
    hints: &mut Vec<ClauseId>,
) -> Result<usize, Memory>
    requires analysed { IsAnalysed on.now.trail.now on.now.clauses.now.clauses seen.old }
    requires last { IsLastDecision on.now.trail.now.reasons on.now.start }
    requires counted { first ≡ count_seen on.now.start seen.old }
    requires some { 0 < first }
    ensures refuted { OnOk result (StillRefutes on.now.clauses.now.clauses on.now.trail.now.literals seen.old seen.new hints.old.items hints.new.items) }
    ensures found { IfOk result (λ place. IsOnlySeen on.now.start seen.new place) }
    ensures size { length seen.new ≡ length seen.old }
{
    on.trail.is_sound();
    let reasons = on.trail.reasons();
    let start = on.start;
    let mut count = first;
    let mut place = seen.len() - 1;
    'down: while place > start {
        if seen[place] {
            if count == 1 {
                return Ok(place);
            }
            let id = reasons[place].unwrap();
            let more = resolve(seen, on, place, id, hints)?;
            count = count - 1 + more;
        }
        place -= 1;
    }
    Ok(place)
}

// Resolves from the last place down all that has a reason.
pub fn resolve_to_decisions(
    seen: &mut [bool],
    on: &Analysed<'_>,
    hints: &mut Vec<ClauseId>,
) -> Result<(), Memory>
    requires { IsAnalysed on.now.trail.now on.now.clauses.now.clauses seen.old }
    ensures refuted { OnOk result (StillRefutes on.now.clauses.now.clauses on.now.trail.now.literals seen.old seen.new hints.old.items hints.new.items) }
    ensures decided { OnOk result (IsDecidedFrom on.now.trail.now.reasons seen.new 0) }
    ensures size { length seen.new ≡ length seen.old }
{
    on.trail.is_sound();
    let reasons = on.trail.reasons();
    let mut place = seen.len();
    'down: while place > 0 {
        place -= 1;
        if seen[place] {
            if let Some(id) = reasons[place] {
                resolve(seen, on, place, id, hints)?;
            }
        }
    }
    Ok(())
}
