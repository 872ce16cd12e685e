// Clauses by places that lie close together.
ghost use Rattle.std.specs.Prelude.{◌≡◌, ℕ, ◌==◌, ◌≤◌, ◌<◌, [], length, map, None, Some, OnOk, OnErr, IfOk, slice_index_or, vec_len, if◌then◌else◌};
ghost use Rattle.std.specs.Option.{option_copied};
ghost use Rattle.prop_core.specs.Derivation.{clause_numbered};
ghost use Rattle.proof_ledger.specs.ClauseNumbers.{AreNumbersOf, KeepsNumbers};

use crate::follow::Holds;
use des_base::Memory;
use prop_core::{ClauseId, Clauses, Lit};
use std::alloc::Global;
use std::marker::Model;

// So few literals that it isn't worthwhile to let them go.
const FEW: usize = 1000;

// Clauses by places from 0, in one list. A place may have none.
#[derive(Drop)]
pub struct NearClauses {
    alloc: Global,
    // some may have no place any more
    clauses: Clauses,
    // by place: the number of its clause among these, or 0 if it has none
    numbers: Vec<u32>,
    // how many literals all of the clauses have, and how many those without a place
    literals: usize,
    idle: usize,
}

impl Model for NearClauses {
    ghost use Rattle.std.specs.Prelude.{List, Option, map};
    ghost use Rattle.prop_core.specs.Clauses.{Clause};
    ghost use Rattle.prop_core.specs.Derivation.{clause_numbered};
    ghost use Rattle.proof_ledger.specs.ClauseNumbers.{AreNumbersOf};

    ghost Value = { List (Option Clause) };

    ghost view = { λ a. map (clause_numbered a.clauses.clauses) a.numbers.items };

    ghost invariant = { λ a. AreNumbersOf a.clauses.clauses a.numbers.items };
}

impl NearClauses {
    pub fn new(alloc: Global) -> NearClauses
        ensures { result ≡ [] }
    {
        NearClauses {
            alloc,
            clauses: Clauses::new(alloc),
            numbers: Vec::new(alloc),
            literals: 0,
            idle: 0,
        }
    }

    // The clause of a place.
    pub fn clause(&self, place: u64) -> Option<&[Lit]>
        ensures { option_copied result ≡ slice_index_or self.now place None }
    {
        self.clauses.find(ClauseId(number_at(&self.numbers, place)))
    }

    // A place has no clause any more.
    pub fn clear(&mut self, place: u64)
        ensures { (asked : ℕ) → slice_index_or self.new asked None ≡ (if asked == place then None else slice_index_or self.old asked None) }
    {
        let idle = literal_count(&self.clauses, &self.numbers, place);
        self.idle = self.idle.saturating_add(idle);
        clear(&mut self.numbers, place);
    }

    // A place that has no clause gets one.
    pub fn set(&mut self, place: u64, clause: &[Lit]) -> Result<(), Memory>
        ensures failed { OnErr result ((asked : ℕ) → slice_index_or self.new asked None ≡ slice_index_or self.old asked None) }
        ensures set { OnOk result ((asked : ℕ) → slice_index_or self.new asked None ≡ (if asked == place then Some clause.now else slice_index_or self.old asked None)) }
    {
        grow(&mut self.numbers, place)?;
        let id = self.clauses.push(clause)?;
        put(&mut self.numbers, place, self.clauses.number(id));
        self.literals = self.literals.saturating_add(clause.len());
        Ok(())
    }

    // Lets clauses without a place go, once their literals are more than those of the others and than there are places.
    pub fn pack_if_idle(&mut self) -> Result<(), Memory>
        ensures { self.new ≡ self.old }
    {
        let standing = self.literals.saturating_sub(self.idle);
        let places = self.numbers.len();
        if self.idle <= standing.saturating_add(places).saturating_add(FEW) {
            return Ok(());
        }
        let mut clauses = Clauses::new(self.alloc);
        let mut numbers = Vec::new(self.alloc);
        numbers.reserve(self.numbers.len())?;
        pack(&self.clauses, &self.numbers, &mut clauses, &mut numbers)?;
        self.clauses = clauses;
        self.numbers = numbers;
        self.literals = standing;
        self.idle = 0;
        Ok(())
    }
}

// The number at a place, or 0.
fn number_at(numbers: &[u32], place: u64) -> u64
    ensures { result ≡ slice_index_or numbers.now place 0 }
{
    if place < numbers.len() as u64 {
        numbers[place as usize] as u64
    } else {
        0
    }
}

fn clear(numbers: &mut Vec<u32>, place: u64)
    ensures { (asked : ℕ) → slice_index_or numbers.new.items asked 0 ≡ (if asked == place then 0 else slice_index_or numbers.old.items asked 0) }
{
    if place < numbers.len() as u64 {
        numbers[place as usize] = 0;
    }
}

// How many literals the clause of a place has. It has no `ensures`: it only says when to pack, and packing changes nothing that is held.
fn literal_count(clauses: &Clauses, numbers: &[u32], place: u64) -> usize {
    match clauses.find(ClauseId(number_at(numbers, place))) {
        Some(clause) => clause.len(),
        None => 0,
    }
}

fn put(numbers: &mut Vec<u32>, place: u64, number: u32)
    requires { place < vec_len numbers.old }
    ensures { (asked : ℕ) → slice_index_or numbers.new.items asked 0 ≡ (if asked == place then number else slice_index_or numbers.old.items asked 0) }
{
    numbers[place as usize] = number;
}

fn grow(numbers: &mut Vec<u32>, place: u64) -> Result<(), Memory>
    ensures room { OnOk result (place < vec_len numbers.new) }
    ensures same { (asked : ℕ) → slice_index_or numbers.new.items asked 0 ≡ slice_index_or numbers.old.items asked 0 }
{
    if place < numbers.len() as u64 {
        return Ok(());
    }
    let Some(len) = place.checked_add(1) else {
        return Err(Memory);
    };
    numbers.resize(len as usize, 0)?;
    Ok(())
}

// Copies the clauses that have a place, one behind another, and the numbers that they have then.
fn pack(
    clauses: &Clauses,
    numbers: &[u32],
    packed: &mut Clauses,
    places: &mut Vec<u32>,
) -> Result<(), Memory>
    requires none { packed.old.clauses ≡ [] }
    requires nowhere { places.old.items ≡ [] }
    ensures same { OnOk result (map (clause_numbered packed.new.clauses) places.new.items ≡ map (clause_numbered clauses.now.clauses) numbers.now) }
    ensures numbers { OnOk result (AreNumbersOf packed.new.clauses places.new.items) }
{
    for number in numbers {
        places.push(copy(clauses, *number, packed)?)?;
    }
    Ok(())
}

// Copies the clause of a number, if there is one, and answers the number that it has then, or 0.
fn copy(clauses: &Clauses, number: u32, packed: &mut Clauses) -> Result<u32, Memory>
    ensures same { IfOk result (λ moved. clause_numbered packed.new.clauses moved ≡ clause_numbered clauses.now.clauses number) }
    ensures within { IfOk result (λ moved. moved ≤ length packed.new.clauses) }
    ensures keeps { KeepsNumbers packed.old.clauses packed.new.clauses }
{
    match clauses.find(ClauseId(number as u64)) {
        Some(clause) => {
            let id = packed.push(clause)?;
            Ok(packed.number(id))
        }
        None => Ok(0),
    }
}
