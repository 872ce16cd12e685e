// What to decide next: a literal that is to be tried first, or else a variable that is suggested, or else the first that waits.
ghost use Rattle.std.specs.Prelude.{◌≡◌, ◌<◌, ◌≤◌, true, false, length, IfSome, IfNone};
ghost use Rattle.prop_core.specs.Clauses.{is_open};
ghost use Rattle.sat_order.specs.Rank.{KeepsRanks};
ghost use Rattle.sat_solve.specs.Solving.{AreWaiting, AreClosed, IsPicked};

use crate::advice::Advice;
use des_base::VAR_LIMIT;
use prop_core::Lit;
use sat_order::Order;
use sat_prop::Trail;

// Takes a literal whose variable is open. A variable that isn't to be tried is taken as it last stood.
pub fn pick<R: Fn(u32) -> u64>(
    trail: &Trail,
    order: &mut Order<R>,
    advice: &mut Advice,
) -> Option<Lit>
    requires waiting { AreWaiting order.old.waiting trail.now.literals (length order.old.waiting) }
    requires few { length order.old.waiting ≤ VAR_LIMIT }
    ensures kept { KeepsRanks order.old order.new }
    ensures some { IfSome result (λ lit. IsPicked trail.now.literals order.old.waiting order.new.waiting lit.var) }
    ensures none { IfNone result (AreClosed trail.now.literals (length order.old.waiting)) }
{
    if let Some(lit) = advice.first_try(trail, order.vars()) {
        return Some(lit);
    }
    let var = pick_var(trail, order, advice)?;
    Some(Lit::new(var, advice.phase(var)))
}

// Takes a variable that is open. Those that come before it and are not open wait no longer.
fn pick_var<R: Fn(u32) -> u64>(
    trail: &Trail,
    order: &mut Order<R>,
    advice: &mut Advice,
) -> Option<u32>
    requires { AreWaiting order.old.waiting trail.now.literals (length order.old.waiting) }
    ensures kept { KeepsRanks order.old order.new }
    ensures some { IfSome result (IsPicked trail.now.literals order.old.waiting order.new.waiting) }
    ensures none { IfNone result (AreClosed trail.now.literals (length order.old.waiting)) }
{
    if let Some(var) = first_suggested(trail, advice, order) {
        return Some(var);
    }
    first_waiting(trail, order)
}

// Takes the first suggestion that is known and open. Those that come before it are suggested no longer.
fn first_suggested<R: Fn(u32) -> u64>(
    trail: &Trail,
    advice: &mut Advice,
    order: &Order<R>,
) -> Option<u32>
    ensures known { IfSome result (λ var. var < length order.now.waiting) }
    ensures undecided { IfSome result (λ var. is_open trail.now.literals (record { var = var; positive = false }) ≡ true) }
{
    for _ in 0..advice.suggestions() {
        if let Some(var) = advice.suggest(order.ranks()) {
            if var < order.vars() && trail.value(var).is_none() {
                return Some(var);
            }
        }
    }
    None
}

// Takes the first waiting variable that is open. Those that come before it and are not open wait no longer.
fn first_waiting<R: Fn(u32) -> u64>(trail: &Trail, order: &mut Order<R>) -> Option<u32>
    requires { AreWaiting order.old.waiting trail.now.literals (length order.old.waiting) }
    ensures kept { KeepsRanks order.old order.new }
    ensures some { IfSome result (IsPicked trail.now.literals order.old.waiting order.new.waiting) }
    ensures none { IfNone result (AreClosed trail.now.literals (length order.old.waiting)) }
{
    while let Some(var) = order.take() {
        if trail.value(var).is_none() {
            return Some(var);
        }
    }
    None
}
