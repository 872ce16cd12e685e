//! The refutation that a book holds, as a proof that stands by itself.
ghost use Rattle.std.specs.Prelude.{◌≡◌, ◌+◌, ◌-◌, ◌<◌, ◌≤◌, ◌^◌, ◌++◌, ◌∷◌, [], All, length, map, take, IfOk, OnOk};
ghost use Rattle.std.specs.List.{range_with_len};
ghost use Rattle.proof_ledger.specs.Book.{axioms_of, clauses_of, IsValidBook};
ghost use Rattle.proof_ledger.specs.Checking.{check_proof};
ghost use Rattle.proof_ledger.specs.declared.checker.Checked.TheVariants.{Verified};
ghost use Rattle.proof_text.specs.ProofNumbers.{NumbersAscend, HasNoZero};
ghost use Rattle.proof_text.specs.Refutation.{EndsIn, front_to, is_numbered, refuted_formula, numbers_from, new_number, derived_of, derived_steps, steps_behind, refutation_steps, IsStepOf, RefutationsCheck};

use crate::proof::Proof;
use des_base::{ListOf, Memory};
use proof_ledger::{Entry, Ledger, ProofStep};
use prop_core::{ClauseId, Lit};
use std::alloc::Global;

/// The proof that ends with a final clause of the book, given the assumptions of which it has negations alone.
///
/// It goes with a formula that has the axioms before that clause, and then a clause for each assumption. It has the clauses that were
/// derived up to it, numbered behind the formula, and then the empty clause. Marks and later entries aren't in it.
pub fn refutation_proof(
    alloc: Global,
    book: &Ledger,
    assumptions: &[Lit],
    last: ClauseId,
) -> Result<Proof, Memory>
    requires { EndsIn book.now.entries assumptions.now last }
    ensures proof { IfOk result (λ proof. proof ≡ refutation_steps (front_to last book.now.entries) assumptions.now) }
    ensures verified { IfOk result (λ proof. check_proof (refuted_formula (front_to last book.now.entries) assumptions.now) proof ≡ Verified) }
    ensures ascend { IfOk result (λ proof. NumbersAscend 0 proof) }
    ensures above { IfOk result (λ proof. All HasNoZero proof) }
{
    let count = entries_to(book, last);
    let front = BookFront { alloc, book, count };
    let axioms = front.axioms();
    let assumed = assumptions.len() as u64;
    if assumed > u64::MAX - axioms {
        return Err(Memory);
    }
    front.proof(axioms, axioms + assumed, last)
}

// How many entries there are up to the clause of this number.
fn entries_to(book: &Ledger, last: ClauseId) -> u64
    requires { 1 ≤ last }
    ensures within { result ≤ length book.now.entries }
    ensures front { take result book.now.entries ≡ front_to last book.now.entries }
    ensures valid { IsValidBook book.now.entries }
{
    for place in 0..book.entries() {
        if has_number(book.entry(place), last) {
            return place + 1;
        }
    }
    book.entries()
}

// Whether the entry has the clause of this number.
fn has_number(entry: Entry, number: ClauseId) -> bool
    ensures { result ≡ is_numbered number entry }
{
    match entry {
        Entry::Axiom(id) | Entry::Learnt(id) | Entry::Final(id) => id == number,
        Entry::Mark(_) => false,
    }
}

// The entries of a book up to the final one.
#[derive(Clone, Copy)]
struct BookFront<'a> {
    alloc: Global,
    book: &'a Ledger,
    count: u64,
}

impl BookFront<'_> {
    // How many axioms there are among them.
    fn axioms(&self) -> u64
        requires { self.now.count ≤ length self.now.book.now.entries }
        ensures { result ≡ length (axioms_of (take self.now.count self.now.book.now.entries)) }
    {
        let mut axioms = 0;
        for place in 0..self.count {
            if let Entry::Axiom(_) = self.book.entry(place) {
                axioms += 1;
            }
        }
        axioms
    }

    // The proof behind `axioms` axioms, and `clauses` clauses of the formula in all.
    fn proof(&self, axioms: u64, clauses: u64, last: ClauseId) -> Result<Proof, Memory>
        requires within { self.now.count ≤ length self.now.book.now.entries }
        requires units { axioms ≤ clauses }
        ensures { IfOk result (λ proof. proof ≡ steps_behind axioms (clauses - axioms) last (take self.now.count self.now.book.now.entries)) }
    {
        let Some(most) = clauses.checked_add(self.count) else {
            return Err(Memory);
        };
        if most == u64::MAX {
            return Err(Memory);
        }
        let numbers = self.numbers(clauses + 1)?;
        let mut proof = Proof::new(self.alloc);
        let next = self.put_steps(clauses + 1, numbers.as_slice(), &mut proof)?;
        let hints = self.last_hints(axioms, clauses, new_number(numbers.as_slice(), last))?;
        proof.push(ProofStep::Add {
            line: 0,
            id: next,
            clause: ListOf::new(self.alloc),
            hints,
        })?;
        Ok(proof)
    }

    // The new numbers of the clauses: axioms are numbered from 1, what was derived from another number.
    fn numbers(&self, first: u64) -> Result<ListOf<ClauseId>, Memory>
        requires within { self.now.count ≤ length self.now.book.now.entries }
        requires from_one { 1 ≤ first }
        requires room { first + self.now.count < 2 ^ 64 }
        ensures { IfOk result (λ numbers. numbers ≡ numbers_from 1 first (take self.now.count self.now.book.now.entries)) }
    {
        let mut numbers = ListOf::new(self.alloc);
        let mut axiom = 1;
        let mut next = first;
        for place in 0..self.count {
            match self.book.entry(place) {
                Entry::Axiom(_) => {
                    numbers.push(ClauseId(axiom))?;
                    axiom += 1;
                }
                Entry::Learnt(_) | Entry::Final(_) => {
                    numbers.push(ClauseId(next))?;
                    next += 1;
                }
                Entry::Mark(_) => {}
            }
        }
        Ok(numbers)
    }

    // Appends what was derived, from a number on, and answers the number that follows.
    fn put_steps(&self, first: u64, numbers: &[ClauseId], proof: &mut Proof) -> Result<u64, Memory>
        requires within { self.now.count ≤ length self.now.book.now.entries }
        requires room { first + self.now.count < 2 ^ 64 }
        ensures steps { OnOk result (proof.new ≡ proof.old ++ derived_steps numbers.now first (take self.now.count self.now.book.now.entries)) }
        ensures next { IfOk result (λ next. next ≡ first + length (derived_of (take self.now.count self.now.book.now.entries))) }
    {
        let mut next = first;
        for place in 0..self.count {
            if let Entry::Learnt(id) | Entry::Final(id) = self.book.entry(place) {
                proof.push(self.step(id, next, numbers)?)?;
                next += 1;
            }
        }
        Ok(next)
    }

    // The step that derives a clause by its new number.
    fn step(&self, id: ClauseId, number: u64, numbers: &[ClauseId]) -> Result<ProofStep, Memory>
        requires from_one { 1 ≤ id }
        requires in_range { id ≤ length (clauses_of self.now.book.now.entries) }
        ensures { IfOk result (IsStepOf self.now.book.now.entries id number numbers.now) }
    {
        Ok(ProofStep::Add {
            line: 0,
            id: number,
            clause: copy_of(self.alloc, self.book.clauses().clause(id))?,
            hints: renumbered(self.alloc, self.book.hints(id), numbers)?,
        })
    }

    // The numbers of the assumptions' clauses, and then that of the last clause.
    fn last_hints(
        &self,
        axioms: u64,
        clauses: u64,
        last: ClauseId,
    ) -> Result<ListOf<ClauseId>, Memory>
        requires units { axioms ≤ clauses }
        requires room { clauses < 2 ^ 64 - 1 }
        ensures { IfOk result (λ hints. hints ≡ range_with_len (axioms + 1) (clauses - axioms) ++ last ∷ []) }
    {
        let mut hints = ListOf::new(self.alloc);
        for before in axioms..clauses {
            hints.push(ClauseId(before + 1))?;
        }
        hints.push(last)?;
        Ok(hints)
    }
}

// The new number of a clause. A number beyond the last clause becomes 1, and 0 becomes what 1 does: no derivation looks at either.
fn new_number(numbers: &[ClauseId], id: ClauseId) -> ClauseId
    ensures { result ≡ new_number numbers.now id }
{
    let place = id.0.saturating_sub(1);
    match numbers.get(place as usize) {
        Some(number) => *number,
        None => ClauseId(1),
    }
}

// The new numbers of the clauses.
fn renumbered(
    alloc: Global,
    hints: &[ClauseId],
    numbers: &[ClauseId],
) -> Result<ListOf<ClauseId>, Memory>
    ensures { IfOk result (λ list. list ≡ map (new_number numbers.now) hints.now) }
{
    let mut list = ListOf::new(alloc);
    for hint in hints {
        list.push(new_number(numbers, *hint))?;
    }
    Ok(list)
}

// A copy of a clause.
fn copy_of(alloc: Global, clause: &[Lit]) -> Result<ListOf<Lit>, Memory>
    ensures { IfOk result (λ copy. copy ≡ clause.now) }
{
    let mut copy = ListOf::new(alloc);
    for lit in clause {
        copy.push(*lit)?;
    }
    Ok(copy)
}

/// A law: the refutation that a valid book holds checks.
pub fn refutations_check()
    ensures { RefutationsCheck }
{}
