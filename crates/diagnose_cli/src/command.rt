// What words of a command line spell: steps, budgets, units.
ghost use Rattle.std.specs.Prelude.{◌≡◌, ◌≤◌, IfSome};
ghost use Rattle.des_base.specs.Numbers.{number_up_to};
ghost use Rattle.gen_plant.specs.Plant.{most_units};
ghost use Rattle.des_base.specs.declared.TheConstants.{MOST_STEPS};
ghost use Rattle.diagnose_cli.specs.Words.{limits_of, most_number, units_of};

use des_base::{MOST_STEPS, read_number};

/// What is asked for: a run of at most this many parallel steps, found by a search that may learn at most BUDGET clauses.
#[derive(Clone, Copy)]
pub struct Limits {
    pub steps: u32,
    pub budget: u64,
}

const UNIT_LIMIT: u64 = 900;

/// How many steps and which budget two words ask for.
pub fn limits_of(steps: &str, budget: &str) -> Option<Limits>
    ensures spelled { result ≡ limits_of steps.now budget.now }
    ensures within { IfSome result (λ limits. limits.steps ≤ MOST_STEPS) }
{
    let steps = steps_of(steps)?;
    let budget = number_of(budget)?;
    Some(Limits { steps, budget })
}

/// The steps that a word sets.
pub fn steps_of(text: &str) -> Option<u32>
    ensures spelled { result ≡ number_up_to MOST_STEPS text.now }
    ensures within { IfSome result (λ steps. steps ≤ MOST_STEPS) }
{
    let steps = read_number(text.as_bytes(), u64::from(MOST_STEPS))?;
    Some(steps as u32)
}

/// The number of 64 bits that a word spells: a budget, or the start of a plant.
pub fn number_of(text: &str) -> Option<u64>
    ensures { result ≡ number_up_to most_number text.now }
{
    read_number(text.as_bytes(), u64::MAX)
}

/// How many units are asked for.
pub fn units_of(text: &str) -> Option<u32>
    ensures spelled { result ≡ units_of text.now }
    ensures within { IfSome result (λ units. units ≤ most_units) }
{
    let units = read_number(text.as_bytes(), UNIT_LIMIT)?;
    if 1 <= units { Some(units as u32) } else { None }
}
