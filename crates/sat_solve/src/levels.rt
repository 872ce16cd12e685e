// Counts the levels of a clause's literals: the fewer there are, the more a clause is worth (Audemard and Simon, "Predicting learnt
// clauses quality in modern SAT solvers", 2009).
ghost use Rattle.std.specs.Prelude.{◌≡◌, ℕ, ◌+◌, [], length, OnOk, OnErr, IfSome, IfNone};
ghost use Rattle.sat_prop.specs.TrailState.{StandsAt};
ghost use Rattle.sat_prop.specs.Levels.{level_at, IsGreatestLevel};
ghost use Rattle.sat_solve.specs.LevelCount.{IsLevelOf, AreLevelsOf, marked_of};
ghost use Rattle.sat_solve.specs.Widening.{widened};

use crate::marks::Marks;
use des_base::Memory;
use prop_core::Lit;
use sat_prop::Trail;
use std::alloc::Global;
use std::marker::Model;

// Which levels were counted for the present clause.
#[derive(Drop)]
pub struct Levels {
    counted: Marks,
}

impl Model for Levels {
    ghost use Rattle.std.specs.Prelude.{Bool, List};

    ghost Value = { List Bool };

    ghost view = { λ a. a.counted };
}

impl Levels {
    // No level can be counted.
    pub fn new(alloc: Global) -> Levels
        ensures { result ≡ [] }
    {
        Levels {
            counted: Marks::new(alloc),
        }
    }

    // Makes sure that the levels of `vars` variables can be counted, and level 0.
    pub fn widen(&mut self, vars: u32) -> Result<(), Memory>
        ensures ok { OnOk result (self.new ≡ widened self.old (vars + 1)) }
        ensures err { OnErr result (self.new ≡ self.old) }
    {
        self.counted.widen(vars as usize + 1)
    }

    // How many levels the literals stand at. Those that can't be counted aren't.
    pub fn count(&mut self, trail: &Trail, clause: &[Lit]) -> u64
        ensures known { length self.new ≡ length self.old }
        ensures levels { AreLevelsOf trail.now clause.now self.new }
        ensures count { result ≡ marked_of self.new }
    {
        self.counted.clear();
        let mut levels = 0_u64;
        for lit in clause {
            if let Some(level) = level_of(trail, lit.var()) {
                if self.counted.mark(level) {
                    levels += 1;
                }
            }
        }
        levels
    }
}

// The level of a variable, if it has a value.
fn level_of(trail: &Trail, var: u32) -> Option<u32>
    ensures some { IfSome result (IsLevelOf trail.now var) }
    ensures single { IfSome result (λ level. (place : ℕ) → StandsAt trail.now.literals var place → level ≡ level_at trail.now.reasons place) }
    ensures none { IfNone result ((place : ℕ) → StandsAt trail.now.literals var place → ⊥) }
{
    trail.is_sound();
    match trail.value(var) {
        Some(_) => Some(trail.level_of(var)),
        None => None,
    }
}

// The greatest level of these literals, or 0.
pub fn greatest_level(trail: &Trail, literals: &[Lit]) -> u32
    ensures { IsGreatestLevel trail.now.literals trail.now.reasons literals.now result }
{
    let mut greatest = 0_u32;
    for lit in literals {
        if let Some(level) = level_of(trail, lit.var()) {
            greatest = greatest.max(level);
        }
    }
    greatest
}
