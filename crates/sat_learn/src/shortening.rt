// What of a learnt clause follows from its other literals is resolved as well (Sörensson and Biere, "Minimizing learned clauses", 2009), and what the first
// levels force.
ghost use Rattle.std.specs.Prelude.{◌≡◌, ℕ, ◌<◌, ◌≤◌, length, OnOk};
ghost use Rattle.sat_learn.specs.Seen.{is_seen, IsAnalysed, IsDecidedTo, StillRefutes};

use crate::analysed::Analysed;
use crate::removable::Removable;
use crate::resolving::resolve;
use des_base::Memory;
use prop_core::ClauseId;

// Resolves from the start down what is marked, and what stands at a level up to `decisions_to`, the last first: a reason's other literals stand before its own,
// so one pass does.
pub fn shorten(
    seen: &mut [bool],
    removable: &Removable,
    on: &Analysed<'_>,
    decisions_to: u32,
    hints: &mut Vec<ClauseId>,
) -> Result<(), Memory>
    requires analysed { IsAnalysed on.now.trail.now on.now.clauses.now.clauses seen.old }
    requires start { on.now.start ≤ length seen.old }
    ensures refuted { OnOk result (StillRefutes on.now.clauses.now.clauses on.now.trail.now.literals seen.old seen.new hints.old.items hints.new.items) }
    ensures above { OnOk result ((later : ℕ) → on.now.start ≤ later → later < length on.now.trail.now.literals → is_seen seen.new later ≡ is_seen seen.old later) }
    ensures decided { OnOk result (IsDecidedTo on.now.trail.now.reasons decisions_to seen.new 0 on.now.start) }
    ensures size { length seen.new ≡ length seen.old }
{
    on.trail.is_sound();
    let literals = on.trail.literals();
    let reasons = on.trail.reasons();
    let mut place = on.start;
    'down: while place > 0 {
        place -= 1;
        let var = literals[place].var();
        if seen[place] && (on.trail.level_of(var) <= decisions_to || removable.resolves(var)) {
            if let Some(id) = reasons[place] {
                resolve(seen, on, place, id, hints)?;
            }
        }
    }
    Ok(())
}
