// Assumptions. They are decided before any other literal, so the first levels of a trail are theirs.
ghost use Rattle.std.specs.Prelude.{◌≡◌, ◌<◌, ◌-◌, length, take, true, IfSome, IfNone};
ghost use Rattle.std.specs.List.{list_all};
ghost use Rattle.prop_core.specs.Clauses.{is_true};
ghost use Rattle.sat_prop.specs.Levels.{IsGreatestLevel};
ghost use Rattle.sat_solve.specs.Solving.{IsAssumptionLeft, IsFurther, HasAssumedDecisions, AreTaken, assumed_level_of};

use crate::levels::greatest_level;
use prop_core::Lit;
use sat_prop::Trail;

// Whether the literal is one of these.
pub fn contains(literals: &[Lit], lit: Lit) -> bool
    ensures { result ≡ is_true literals.now lit }
{
    literals.iter().any(|other| lit == *other)
}

// Whether the trail makes the literal true.
pub fn makes_true(trail: &Trail, lit: Lit) -> bool
    ensures { result ≡ is_true trail.now.literals lit }
{
    trail.is_sound();
    match trail.value(lit.var()) {
        Some(value) => value == lit.is_positive(),
        None => false,
    }
}

// The first assumption that is not true. `assumptions[..taken]` are, and it goes on from there.
pub fn next_assumption(trail: &Trail, assumptions: &[Lit], taken: &mut usize) -> Option<Lit>
    requires taken { AreTaken trail.now.literals assumptions.now taken.old }
    ensures taken { AreTaken trail.now.literals assumptions.now taken.new }
    ensures some { IfSome result (IsAssumptionLeft trail.now.literals assumptions.now) }
    ensures none { IfNone result (list_all (is_true trail.now.literals) assumptions.now ≡ true) }
{
    'next: while *taken < assumptions.len() {
        let lit = assumptions[*taken];
        if !makes_true(trail, lit) {
            return Some(lit);
        }
        *taken += 1;
    }
    None
}

// The place of a decision that is no assumption. The last one is nearly always one.
pub fn further_decision(trail: &Trail, assumptions: &[Lit]) -> Option<usize>
    ensures some { IfSome result (IsFurther trail.now assumptions.now) }
    ensures none { IfNone result (HasAssumedDecisions trail.now assumptions.now (length trail.now.literals)) }
{
    if let Some(place) = last_if_further(trail, assumptions) {
        return Some(place);
    }
    first_further(trail, assumptions)
}

// The place of the last decision, if it is no assumption.
fn last_if_further(trail: &Trail, assumptions: &[Lit]) -> Option<usize>
    ensures { IfSome result (IsFurther trail.now assumptions.now) }
{
    if trail.level() == 0 {
        return None;
    }
    trail.is_sound();
    let place = trail.last_decision() as usize;
    let literals = trail.literals();
    if contains(assumptions, literals[place]) {
        return None;
    }
    Some(place)
}

// The place of the first decision that is no assumption.
fn first_further(trail: &Trail, assumptions: &[Lit]) -> Option<usize>
    ensures some { IfSome result (IsFurther trail.now assumptions.now) }
    ensures none { IfNone result (HasAssumedDecisions trail.now assumptions.now (length trail.now.literals)) }
{
    trail.is_sound();
    let literals = trail.literals();
    let reasons = trail.reasons();
    for place in 0..literals.len() {
        if reasons[place].is_none() && !contains(assumptions, literals[place]) {
            return Some(place);
        }
    }
    None
}

// The level of the assumptions: how many decisions stand before the first that is no assumption.
pub fn assumed_level(trail: &Trail, assumptions: &[Lit]) -> u32
    ensures { result ≡ assumed_level_of trail.now assumptions.now }
{
    trail.is_sound();
    let literals = trail.literals();
    let reasons = trail.reasons();
    let mut level = 0_u32;
    for place in 0..literals.len() {
        if reasons[place].is_none() {
            if !contains(assumptions, literals[place]) {
                return level;
            }
            level += 1;
        }
    }
    level
}

// The level by which the assumptions were taken that last: all but so many of the last ones, which pass.
pub fn lasting_level(trail: &Trail, assumptions: &[Lit], passing: usize) -> u32
    ensures { IsGreatestLevel trail.now.literals trail.now.reasons (take (length assumptions.now - passing) assumptions.now) result }
{
    let lasting = assumptions.len().saturating_sub(passing);
    greatest_level(trail, &assumptions[..lasting])
}
