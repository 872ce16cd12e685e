// The literals of a clause that is learnt, and the level to go back to, from the places that are seen.
ghost use Rattle.std.specs.Prelude.{◌≡◌, ◌≤◌, ◌++◌, length, OnOk};
ghost use Rattle.sat_learn.specs.Seen.{negated_seen, level_seen};

use des_base::{ListOf, Memory};
use prop_core::Lit;
use sat_prop::Trail;

// Adds the negations of the literals that are seen among the first `count`, from the last on.
pub fn add_negated(
    seen: &[bool],
    literals: &[Lit],
    count: usize,
    clause: &mut ListOf<Lit>,
) -> Result<(), Memory>
    requires seen { count ≤ length seen.now }
    requires literals { count ≤ length literals.now }
    ensures { OnOk result (clause.new ≡ clause.old ++ negated_seen literals.now seen.now count) }
{
    let mut place = count;
    'down: while place > 0 {
        place -= 1;
        if seen[place] {
            clause.push(literals[place].negated())?;
        }
    }
    Ok(())
}

// The level of the last place that is seen among the first `count`.
pub fn last_level(seen: &[bool], trail: &Trail, count: usize) -> u32
    requires seen { count ≤ length seen.now }
    requires literals { count ≤ length trail.now.literals }
    ensures { result ≡ level_seen trail.now.reasons seen.now count }
{
    let literals = trail.literals();
    let mut place = count;
    'down: while place > 0 {
        place -= 1;
        if seen[place] {
            return trail.level_of(literals[place].var());
        }
    }
    0
}
