// The clauses that a checker holds, by their numbers.
ghost use Rattle.std.specs.Prelude.{◌≡◌, ℕ, ◌==◌, ◌∷◌, [], None, Some, true, IfOk, OnOk, OnErr, IfSome, if◌then◌else◌, length, slice_index_or};
ghost use Rattle.std.specs.BTreeMap.{get};
ghost use Rattle.std.specs.Option.{option_copied};
ghost use Rattle.std.specs.Ordering.{nat_cmp};
ghost use Rattle.prop_core.specs.Derivation.{clause_numbered};
ghost use Rattle.proof_ledger.specs.HeldClauses.{axiom_by, near_by, held_by, place_above};
ghost use Rattle.proof_ledger.specs.Checking.{with_clause, without};

use crate::follow::Holds;
use crate::near::NearClauses;
use des_base::{ListOf, Memory};
use prop_core::{ClauseId, Clauses, Lit};
use std::alloc::Global;
use std::collections::BTreeMap;

// Clauses by numbers that need not follow one another.
#[derive(Drop)]
pub struct HeldClauses<'a> {
    alloc: Global,
    // they have the numbers from 1 on
    axioms: &'a Clauses,
    // by number, up to the last axiom's: whether that axiom is held no longer
    deleted: Vec<bool>,
    // clauses by how far their numbers are above those of the axioms
    near: NearClauses,
    // clauses whose numbers are further apart
    far: BTreeMap<u64, ListOf<Lit>>,
    // how many were added, also those that are held no longer
    added: u64,
}

impl<'a> Holds for HeldClauses<'a> {
    ghost held = { held_by };

    fn find(&self, id: ClauseId) -> Option<&[Lit]> {
        if let Some(clause) = self.axiom(id) {
            return Some(clause);
        }
        if let Some(clause) = self.near(id) {
            return Some(clause);
        }
        match self.far.get(&id.0) {
            Some(clause) => Some(clause.as_slice()),
            None => None,
        }
    }
}

impl<'a> HeldClauses<'a> {
    // The axioms by their numbers.
    pub fn of_axioms(alloc: Global, axioms: &'a Clauses) -> Result<HeldClauses<'a>, Memory>
        ensures { IfOk result (λ held. (asked : ℕ) → held_by held asked ≡ clause_numbered axioms.now.clauses asked) }
    {
        let Some(numbers) = (axioms.len() as usize).checked_add(1) else {
            return Err(Memory);
        };
        Ok(HeldClauses {
            alloc,
            axioms,
            deleted: vec![in alloc; false; numbers]?,
            near: NearClauses::new(alloc),
            far: BTreeMap::new(alloc),
            added: 0,
        })
    }

    // Holds a clause by a number, and no other by this number.
    pub fn add(&mut self, number: u64, clause: &[Lit]) -> Result<(), Memory>
        ensures failed { OnErr result ((asked : ℕ) → held_by self.new asked ≡ without (held_by self.old) (number ∷ []) asked) }
        ensures added { OnOk result ((asked : ℕ) → held_by self.new asked ≡ with_clause (held_by self.old) number clause.now asked) }
    {
        self.remove(number);
        self.added = self.added.saturating_add(1);
        match self.near_place(number) {
            Some(place) => {
                self.near.pack_if_idle()?;
                self.near.set(place, clause)
            }
            None => insert(
                &mut self.far,
                number,
                ListOf::from_slice(self.alloc, clause)?,
            ),
        }
    }

    pub fn delete(&mut self, numbers: &[ClauseId])
        ensures { (asked : ℕ) → held_by self.new asked ≡ without (held_by self.old) numbers.now asked }
    {
        for number in numbers {
            self.remove(number.0);
        }
    }

    fn remove(&mut self, number: u64)
        ensures held { (asked : ℕ) → held_by self.new asked ≡ without (held_by self.old) (number ∷ []) asked }
        ensures no_axiom { axiom_by self.new.deleted.items self.new.axioms.now.clauses number ≡ None }
        ensures not_near { near_by (length self.new.deleted.items) self.new.near number ≡ None }
    {
        delete_axiom(&mut self.deleted, number);
        if let Some(place) = self.place_above(number) {
            self.near.clear(place);
        }
        remove(&mut self.far, number);
    }

    // The axiom of a number, if it is held still.
    fn axiom(&self, id: ClauseId) -> Option<&[Lit]>
        ensures { option_copied result ≡ axiom_by self.now.deleted.items self.now.axioms.now.clauses id }
    {
        if id.0 < self.deleted.len() as u64 && !self.deleted[id.0 as usize] {
            self.axioms.find(id)
        } else {
            None
        }
    }

    // The clause of a number that is near those of the axioms.
    fn near(&self, id: ClauseId) -> Option<&[Lit]>
        ensures { option_copied result ≡ near_by (length self.now.deleted.items) self.now.near id }
    {
        match self.place_above(id.0) {
            Some(place) => self.near.clause(place),
            None => None,
        }
    }

    // How far a number is above those of the axioms.
    fn place_above(&self, number: u64) -> Option<u64>
        ensures { result ≡ place_above (length self.now.deleted.items) number }
    {
        number.checked_sub(self.deleted.len() as u64)
    }

    // The place of a number among the near ones. Up to four places for each clause that was added are worthwhile.
    fn near_place(&self, number: u64) -> Option<u64>
        ensures { IfSome result (λ place. place_above (length self.now.deleted.items) number ≡ Some place) }
    {
        let place = self.place_above(number)?;
        (place / 4 <= self.added).then_some(place)
    }
}

fn delete_axiom(deleted: &mut Vec<bool>, number: u64)
    ensures deleted { (asked : ℕ) → slice_index_or deleted.new.items asked true ≡ (if asked == number then true else slice_index_or deleted.old.items asked true) }
    ensures as_many { length deleted.new.items ≡ length deleted.old.items }
{
    if number < deleted.len() as u64 {
        deleted[number as usize] = true;
    }
}

fn insert(
    far: &mut BTreeMap<u64, ListOf<Lit>>,
    number: u64,
    clause: ListOf<Lit>,
) -> Result<(), Memory>
    ensures failed { OnErr result ((asked : ℕ) → get nat_cmp far.new asked ≡ get nat_cmp far.old asked) }
    ensures inserted { OnOk result ((asked : ℕ) → get nat_cmp far.new asked ≡ (if asked == number then Some clause else get nat_cmp far.old asked)) }
{
    far.insert(number, clause)?;
    Ok(())
}

fn remove(far: &mut BTreeMap<u64, ListOf<Lit>>, number: u64)
    ensures { (asked : ℕ) → get nat_cmp far.new asked ≡ (if asked == number then None else get nat_cmp far.old asked) }
{
    let _ = far.remove(&number);
}
