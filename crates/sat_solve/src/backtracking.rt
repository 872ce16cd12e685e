// The way back of a search, to the level of a learnt clause or of the assumptions.
ghost use Rattle.std.specs.Prelude.{◌≡◌, ℕ, ◌<◌, ◌≤◌, List, length, true, false};
ghost use Rattle.prop_core.specs.Clauses.{HasValues};
ghost use Rattle.proof_ledger.specs.Book.{BookEntry};
ghost use Rattle.sat_order.specs.Rank.{KeepsRanks};
ghost use Rattle.sat_order.specs.Waiting.{waits};
ghost use Rattle.sat_prop.specs.TrailState.{literal_at};
ghost use Rattle.sat_prop.specs.Levels.{level_of, level_at};
ghost use Rattle.sat_prop.specs.Changes.{IsKeptUpTo};
ghost use Rattle.sat_solve.specs.Solving.{IsSound, IsUnderWay, KeepsVariables, KeepsWaiting, next_level_of};

use crate::advice::Advice;
use crate::assumptions::assumed_level;
use crate::search::Search;
use prop_core::Lit;
use sat_order::Order;
use sat_prop::Trail;

impl<R: Fn(u32) -> u64> Search<R> {
    // Goes back to a level, and lets the variables wait that become open.
    pub fn backtrack(&mut self, level: u32)
        requires sound { IsSound self.old }
        requires level { level ≤ level_of self.old.propagator.reasons }
        ensures trail { IsKeptUpTo self.old.propagator self.new.propagator level }
        ensures sound { IsSound self.new }
        ensures kept { KeepsVariables self.old self.new }
        ensures taken { self.new.taken ≡ 0 }
    {
        self.propagator.is_sound();
        unassign_above(
            self.propagator.trail(),
            &mut self.order,
            &mut self.advice,
            level,
        );
        self.propagator.back_to(level);
        self.taken = 0;
    }

    // Goes back to the level of the assumptions if the search is to restart. It does so after the learnt clause was attached where that
    // forces its literal, so no jump is lost.
    pub fn restart(&mut self, assumptions: &[Lit])
        requires sound { IsSound self.old }
        ensures kept { KeepsVariables self.old self.new }
        ensures trail { IsKeptUpTo self.old.propagator self.new.propagator (next_level_of self.old.advice.means self.old.propagator assumptions.now) }
        ensures under_way { (book : List BookEntry) → IsUnderWay assumptions.now self.old book → IsUnderWay assumptions.now self.new book }
    {
        self.propagator.is_sound();
        let level = next_level(self.propagator.trail(), &mut self.advice, assumptions);
        self.backtrack(level);
    }
}

// Lets the variables above a level wait, the last first.
fn unassign_above<R: Fn(u32) -> u64>(
    trail: &Trail,
    order: &mut Order<R>,
    advice: &mut Advice,
    level: u32,
)
    requires known { HasValues (length order.old.waiting) trail.now.literals }
    ensures kept { KeepsRanks order.old order.new }
    ensures waiting { KeepsWaiting order.old.waiting order.new.waiting }
    ensures back { (place : ℕ) → place < length trail.now.literals → level < level_at trail.now.reasons place → waits order.new.waiting (literal_at trail.now.literals place).var ≡ true }
{
    let mut place = trail.len();
    'down: while stands_above(trail, place, level) {
        place -= 1;
        unassign(trail, order, advice, place);
    }
}

// Whether the last of the first `count` literals stands above a level.
fn stands_above(trail: &Trail, count: u32, level: u32) -> bool
    requires { count ≤ length trail.now.literals }
    ensures some { result ≡ true → 0 < count }
    ensures none { result ≡ false → (place : ℕ) → place < count → level_at trail.now.reasons place ≤ level }
{
    if count == 0 {
        return false;
    }
    let lit = trail.literal(count - 1);
    level < trail.level_of(lit.var())
}

// Lets the variable at a place wait, and keeps how it stood.
fn unassign<R: Fn(u32) -> u64>(trail: &Trail, order: &mut Order<R>, advice: &mut Advice, place: u32)
    requires place { place < length trail.now.literals }
    requires known { HasValues (length order.old.waiting) trail.now.literals }
    ensures kept { KeepsRanks order.old order.new }
    ensures waiting { KeepsWaiting order.old.waiting order.new.waiting }
    ensures back { waits order.new.waiting (literal_at trail.now.literals place).var ≡ true }
{
    let lit = trail.literal(place);
    order.put_back(lit.var());
    advice.unassign(lit, order.ranks());
}

// The level to go on from after a conflict: the present one, or at times that of the assumptions.
fn next_level(trail: &Trail, advice: &mut Advice, assumptions: &[Lit]) -> u32
    ensures value { result ≡ next_level_of advice.old.means trail.now assumptions.now }
    ensures within { result ≤ level_of trail.now.reasons }
{
    let present = trail.level();
    if advice.begins_anew() {
        return present.min(assumed_level(trail, assumptions));
    }
    present
}
