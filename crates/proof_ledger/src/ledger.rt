// The book of derived clauses.
ghost use Rattle.std.specs.Prelude.{◌≡◌, ◌<◌, ◌≤◌, ◌+◌, ◌-◌, ◌^◌, ◌++◌, ◌∷◌, [], length, map, max, slice_get, Some, OnOk, OnErr, IfOk, IfErr};
ghost use Rattle.prop_core.specs.Derivation.{derive, clause_numbered};
ghost use Rattle.proof_ledger.specs.Book.{axiomatic, learnt, final, mark, clauses_of, hints_of, DerivesFrom, IsValidBook, IsEntryAt};
ghost use Rattle.proof_ledger.specs.Kept.{kept, made};
ghost use Rattle.proof_ledger.specs.Following.{derivation_of, IsPlaceWithin, IsFaultOf};

use crate::entry::{DeriveFault, Entry, KeptEntry, shown_entry};
use crate::follow::{Outcome, derive_by};
use crate::truths::Truths;
use des_base::Memory;
use prop_core::{ClauseId, Clauses, Lit, Pieces};
use std::alloc::Global;
use std::marker::Model;

// How a clause comes into the book that is derived.
#[derive(Clone, Copy)]
pub enum Origin {
    Learnt,
    Final,
}

/// A valid book, with room that was reserved for more clauses.
pub struct Ledger {
    pub(crate) alloc: Global,
    clauses: Clauses,
    // With so many axioms the book begins. They have no hints and are numbered from 1, so that nothing more is kept of them.
    first: u32,
    hints: Pieces<ClauseId>,
    entries: Vec<KeptEntry>,
    truths: Truths,
}

impl Model for Ledger {
    ghost use Rattle.std.specs.Prelude.{◌+◌, ◌≤◌, vec_len, vec_capacity};
    ghost use Rattle.proof_ledger.specs.Kept.{LedgerState, book_of, IsKeptBook, all_entries, all_hints};

    ghost Value = { LedgerState };

    ghost view = { λ a. record { entries = book_of (all_entries a.first a.entries.items) a.clauses.clauses (all_hints a.first a.hints.pieces); spare_clauses = a.clauses.spare_clauses; spare_literals = a.clauses.spare_literals } };

    ghost invariant = { λ a. record {
      kept : IsKeptBook (all_entries a.first a.entries.items) a.clauses.clauses (all_hints a.first a.hints.pieces);
      hints : a.clauses.spare_clauses ≤ a.hints.spare_pieces;
      entries : vec_len a.entries + a.clauses.spare_clauses ≤ vec_capacity a.entries;
    } };
}

// (Written out, so that it is proved once: a derived one is proved again in each crate that lets such a value go.)
impl Drop for Ledger {
    fn drop(self) {
        let Self {
            alloc: _,
            clauses: _,
            first: _,
            hints: _,
            entries: _,
            truths: _,
        } = self;
    }
}

impl Ledger {
    /// An empty book, and no room.
    pub fn new(alloc: Global) -> Ledger
        ensures { result ≡ record { entries = []; spare_clauses = 0; spare_literals = 0 } }
    {
        Ledger {
            alloc,
            clauses: Clauses::new(alloc),
            first: 0,
            hints: Pieces::new(alloc),
            entries: Vec::new(alloc),
            truths: Truths::new(alloc),
        }
    }

    /// The book that has these clauses as axioms. It keeps the list itself, so that no clause is held twice.
    pub fn of_axioms(alloc: Global, clauses: Clauses) -> Result<Ledger, Memory>
        ensures { IfOk result (λ book. book.entries ≡ map axiomatic clauses.clauses) }
    {
        let room = clauses.spare_clauses();
        let mut hints = Pieces::new(alloc);
        let mut entries = Vec::new(alloc);
        hints.reserve(room, 0)?;
        entries.reserve(room)?;
        Ok(Ledger {
            alloc,
            first: clauses.number(ClauseId(clauses.len())),
            clauses,
            hints,
            entries,
            truths: Truths::new(alloc),
        })
    }

    /// Begins an empty book, with no room.
    pub fn clear(&mut self)
        ensures { self.new ≡ record { entries = []; spare_clauses = 0; spare_literals = 0 } }
    {
        *self = Ledger::new(self.alloc);
    }

    /// How many entries the book has.
    pub fn entries(&self) -> u64
        ensures count { result ≡ length self.now.entries }
        ensures valid { IsValidBook self.now.entries }
    {
        self.first as u64 + self.entries.len() as u64
    }

    /// A law: each learnt and each final clause of the book derives from the clauses before it.
    pub fn is_valid(&self)
        ensures { IsValidBook self.now.entries }
    {
        self.entries();
    }

    /// The entry at a place, from 0.
    pub fn entry(&self, place: u64) -> Entry
        requires { place < length self.now.entries }
        ensures { IsEntryAt self.now.entries place result }
    {
        if place < self.first as u64 {
            return Entry::Axiom(ClauseId(place + 1));
        }
        shown_entry(self.entries[(place - self.first as u64) as usize])
    }

    /// The clauses of the book.
    pub fn clauses(&self) -> &Clauses
        ensures clauses { result.now.clauses ≡ clauses_of self.now.entries }
        ensures spare_clauses { result.now.spare_clauses ≡ self.now.spare_clauses }
        ensures spare_literals { result.now.spare_literals ≡ self.now.spare_literals }
    {
        &self.clauses
    }

    /// The hints that derive the clause of a number. An axiom has none.
    pub fn hints(&self, id: ClauseId) -> &[ClauseId]
        requires from_one { 1 ≤ id }
        requires in_range { id ≤ length (clauses_of self.now.entries) }
        ensures { slice_get (hints_of self.now.entries) (id - 1) ≡ Some result.now }
    {
        if id.0 <= self.first as u64 {
            return &[];
        }
        self.hints.piece((id.0 - 1 - self.first as u64) as usize)
    }

    /// Makes sure that there is room for this many more clauses with this many literals together.
    pub fn reserve(&mut self, clauses: usize, lits: usize) -> Result<(), Memory>
        ensures same { self.new.entries ≡ self.old.entries }
        ensures ok_clauses { OnOk result (self.new.spare_clauses ≡ max self.old.spare_clauses clauses) }
        ensures ok_literals { OnOk result (self.new.spare_literals ≡ max self.old.spare_literals lits) }
        ensures err { OnErr result (self.new ≡ self.old) }
    {
        let room = self.clauses.spare_clauses().max(clauses);
        self.hints.reserve(room, 0)?;
        self.entries.reserve(room)?;
        self.clauses.reserve(clauses, lits)
    }

    /// Adds an axiom in the room that was reserved.
    pub fn push_axiom(&mut self, clause: &[Lit]) -> ClauseId
        requires one { 1 ≤ self.old.spare_clauses }
        requires enough { length clause.now ≤ self.old.spare_literals }
        ensures added { self.new.entries ≡ self.old.entries ++ axiomatic clause.now ∷ [] }
        ensures id { result ≡ length (clauses_of self.new.entries) }
        ensures spare_clauses { self.new.spare_clauses + 1 ≡ self.old.spare_clauses }
        ensures spare_literals { self.new.spare_literals + length clause.now ≡ self.old.spare_literals }
    {
        let id = self.clauses.push_reserved(clause);
        self.hints.push_reserved(&[]);
        let number = self.clauses.number(id);
        self.entries.push(KeptEntry::Axiom(number)).unwrap();
        id
    }

    /// Adds an axiom. Like every call that adds a clause, it uses up reserved room.
    pub fn add_axiom(&mut self, clause: &[Lit]) -> Result<ClauseId, Memory>
        ensures added { OnOk result (self.new.entries ≡ self.old.entries ++ axiomatic clause.now ∷ []) }
        ensures id { IfOk result (λ id. id ≡ length (clauses_of self.new.entries)) }
        ensures spare_clauses { OnOk result (self.new.spare_clauses ≡ self.old.spare_clauses - 1) }
        ensures spare_literals { OnOk result (self.new.spare_literals ≡ self.old.spare_literals - length clause.now) }
        ensures err { OnErr result (self.new ≡ self.old) }
    {
        self.reserve(1, clause.len())?;
        Ok(self.push_axiom(clause))
    }

    /// Adds a clause that the hints derive.
    pub fn put_learnt(&mut self, clause: &[Lit], hints: &[ClauseId]) -> Result<ClauseId, Memory>
        requires { DerivesFrom self.old.entries clause.now hints.now }
        ensures added { OnOk result (self.new.entries ≡ self.old.entries ++ learnt clause.now hints.now ∷ []) }
        ensures id { IfOk result (λ id. id ≡ length (clauses_of self.new.entries)) }
        ensures spare_clauses { OnOk result (self.new.spare_clauses ≡ self.old.spare_clauses - 1) }
        ensures spare_literals { OnOk result (self.new.spare_literals ≡ self.old.spare_literals - length clause.now) }
        ensures err { OnErr result (self.new ≡ self.old) }
    {
        self.put(Origin::Learnt, clause, hints)
    }

    /// Adds a clause that the hints derive and that ends a search.
    pub fn put_final(&mut self, clause: &[Lit], hints: &[ClauseId]) -> Result<ClauseId, Memory>
        requires { DerivesFrom self.old.entries clause.now hints.now }
        ensures added { OnOk result (self.new.entries ≡ self.old.entries ++ final clause.now hints.now ∷ []) }
        ensures id { IfOk result (λ id. id ≡ length (clauses_of self.new.entries)) }
        ensures spare_clauses { OnOk result (self.new.spare_clauses ≡ self.old.spare_clauses - 1) }
        ensures spare_literals { OnOk result (self.new.spare_literals ≡ self.old.spare_literals - length clause.now) }
        ensures err { OnErr result (self.new ≡ self.old) }
    {
        self.put(Origin::Final, clause, hints)
    }

    /// Adds a mark. Clauses keep their numbers, and the room that was reserved stays.
    pub fn put_mark(&mut self, number: u32) -> Result<(), Memory>
        ensures added { OnOk result (self.new ≡ record self.old { entries = self.old.entries ++ mark number ∷ [] }) }
        ensures err { OnErr result (self.new ≡ self.old) }
    {
        let Some(room) = self.clauses.spare_clauses().checked_add(1) else {
            return Err(Memory);
        };
        self.entries.reserve(room)?;
        self.entries.push(KeptEntry::Mark(number)).unwrap();
        Ok(())
    }

    /// Adds a learnt clause if the hints derive it, and otherwise says which hint doesn't lead on, and why.
    pub fn try_derive(
        &mut self,
        clause: &[Lit],
        hints: &[ClauseId],
    ) -> Result<ClauseId, DeriveFault>
        requires { length hints.now < 2 ^ 32 }
        ensures derives { OnOk result (DerivesFrom self.old.entries clause.now hints.now) }
        ensures fault { IfErr result (IsFaultOf (derive (clause_numbered (clauses_of self.old.entries)) clause.now hints.now)) }
        ensures added { OnOk result (self.new.entries ≡ self.old.entries ++ learnt clause.now hints.now ∷ []) }
        ensures id { IfOk result (λ id. id ≡ length (clauses_of self.new.entries)) }
        ensures spare_clauses { OnOk result (self.new.spare_clauses ≡ self.old.spare_clauses - 1) }
        ensures spare_literals { OnOk result (self.new.spare_literals ≡ self.old.spare_literals - length clause.now) }
        ensures err { OnErr result (self.new ≡ self.old) }
    {
        match self.derivation(clause, hints)? {
            Outcome::Derives => Ok(self.put_learnt(clause, hints)?),
            Outcome::Fails { hint_at, kind } => Err(DeriveFault::Hint {
                hint_at: hint_at as u32,
                kind,
            }),
        }
    }

    fn derivation(&mut self, clause: &[Lit], hints: &[ClauseId]) -> Result<Outcome, Memory>
        ensures outcome { IfOk result (λ outcome. derivation_of outcome ≡ derive (clause_numbered (clauses_of self.old.entries)) clause.now hints.now) }
        ensures place { IfOk result (IsPlaceWithin (length hints.now)) }
        ensures same { self.new ≡ self.old }
    {
        derive_by(&mut self.truths, &self.clauses, clause, hints)
    }

    // Puts a clause that its hints derive.
    fn put(
        &mut self,
        origin: Origin,
        clause: &[Lit],
        hints: &[ClauseId],
    ) -> Result<ClauseId, Memory>
        requires { DerivesFrom self.old.entries clause.now hints.now }
        ensures added { OnOk result (self.new.entries ≡ self.old.entries ++ made origin clause.now hints.now ∷ []) }
        ensures id { IfOk result (λ id. id ≡ length (clauses_of self.new.entries)) }
        ensures spare_clauses { OnOk result (self.new.spare_clauses ≡ self.old.spare_clauses - 1) }
        ensures spare_literals { OnOk result (self.new.spare_literals ≡ self.old.spare_literals - length clause.now) }
        ensures err { OnErr result (self.new ≡ self.old) }
    {
        let room = self.clauses.spare_clauses().max(1);
        self.hints.reserve(room, hints.len())?;
        self.entries.reserve(room)?;
        self.clauses.reserve(1, clause.len())?;
        let id = self.clauses.push_reserved(clause);
        self.hints.push_reserved(hints);
        let number = self.clauses.number(id);
        self.entries.push(kept_as(origin, number)).unwrap();
        Ok(id)
    }
}

fn kept_as(origin: Origin, number: u32) -> KeptEntry
    ensures { result ≡ kept number (made origin [] []) }
{
    match origin {
        Origin::Learnt => KeptEntry::Learnt(number),
        Origin::Final => KeptEntry::Final(number),
    }
}
