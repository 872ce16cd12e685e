// A list of clauses.
ghost use Rattle.std.specs.Prelude.{◌≡◌, ◌≤◌, ◌+◌, ◌-◌, ◌++◌, ◌∷◌, [], length, max, OnOk, OnErr, IfOk, Some};
ghost use Rattle.prop_core.specs.Derivation.{clause_numbered};

use crate::lit::Lit;
use crate::pieces::Pieces;
use des_base::Memory;
use std::alloc::Global;
use std::marker::Model;

/// The number of a clause, from 1.
#[derive(Clone, Copy, PartialEq, Eq)]
pub struct ClauseId(pub u64);

impl Model for ClauseId {
    ghost use Rattle.std.specs.Prelude.{ℕ};

    ghost Value = { ℕ };

    ghost view = { λ a. a.0 };

    ghost inverse = { λ n. record { 0 = n } };
}

/// Clauses by their numbers, with room that was reserved for more of them. There are fewer than 2^32, and so are their literals.
#[derive(Drop)]
pub struct Clauses {
    pieces: Pieces<Lit>,
}

impl Model for Clauses {
    ghost use Rattle.prop_core.specs.ClauseStore.{ClauseStore};

    ghost Value = { ClauseStore };

    ghost view = { λ a. record { clauses = a.pieces.pieces; spare_clauses = a.pieces.spare_pieces; spare_literals = a.pieces.spare_items } };
}

impl Clauses {
    /// No clauses, and no room.
    pub fn new(alloc: Global) -> Clauses
        ensures { result ≡ record { clauses = []; spare_clauses = 0; spare_literals = 0 } }
    {
        Clauses {
            pieces: Pieces::new(alloc),
        }
    }

    /// How many clauses there are, which is the number of the last one.
    pub fn len(&self) -> u64
        ensures { result ≡ length self.now.clauses }
    {
        self.pieces.len() as u64
    }

    /// The number of a clause, in four bytes.
    pub fn number(&self, id: ClauseId) -> u32
        requires { id ≤ length self.now.clauses }
        ensures { result ≡ id }
    {
        let _count = self.pieces.len();
        id.0 as u32
    }

    /// For how many more clauses there is room.
    pub fn spare_clauses(&self) -> usize
        ensures { result ≡ self.now.spare_clauses }
    {
        self.pieces.spare_pieces()
    }

    /// For how many more literals there is room.
    pub fn spare_lits(&self) -> usize
        ensures { result ≡ self.now.spare_literals }
    {
        self.pieces.spare_items()
    }

    /// The clause of a number.
    pub fn clause(&self, id: ClauseId) -> &[Lit]
        requires from_one { 1 ≤ id }
        requires in_range { id ≤ length self.now.clauses }
        ensures { clause_numbered self.now.clauses id ≡ Some result.now }
    {
        self.pieces.piece(id.0 as usize - 1)
    }

    /// Makes sure that there is room for this many more clauses with this many literals together.
    pub fn reserve(&mut self, clauses: usize, lits: usize) -> Result<(), Memory>
        ensures same { self.new.clauses ≡ self.old.clauses }
        ensures ok_clauses { OnOk result (self.new.spare_clauses ≡ max self.old.spare_clauses clauses) }
        ensures ok_literals { OnOk result (self.new.spare_literals ≡ max self.old.spare_literals lits) }
        ensures err { OnErr result (self.new ≡ self.old) }
    {
        self.pieces.reserve(clauses, lits)
    }

    /// Adds a clause in the room that was reserved.
    pub fn push_reserved(&mut self, clause: &[Lit]) -> ClauseId
        requires one { 1 ≤ self.old.spare_clauses }
        requires enough { length clause.now ≤ self.old.spare_literals }
        ensures added { self.new.clauses ≡ self.old.clauses ++ clause.now ∷ [] }
        ensures id { result ≡ length self.new.clauses }
        ensures spare_clauses { self.new.spare_clauses + 1 ≡ self.old.spare_clauses }
        ensures spare_literals { self.new.spare_literals + length clause.now ≡ self.old.spare_literals }
    {
        self.pieces.push_reserved(clause);
        ClauseId(self.pieces.len() as u64)
    }

    /// Adds a clause. It uses up reserved room.
    pub fn push(&mut self, clause: &[Lit]) -> Result<ClauseId, Memory>
        ensures added { OnOk result (self.new.clauses ≡ self.old.clauses ++ clause.now ∷ []) }
        ensures id { IfOk result (λ id. id ≡ length self.new.clauses) }
        ensures spare_clauses { OnOk result (self.new.spare_clauses ≡ self.old.spare_clauses - 1) }
        ensures spare_literals { OnOk result (self.new.spare_literals ≡ self.old.spare_literals - length clause.now) }
        ensures err { OnErr result (self.new ≡ self.old) }
    {
        self.reserve(1, clause.len())?;
        Ok(self.push_reserved(clause))
    }

    /// Adds all clauses of another list behind these. The room that was reserved stays.
    pub fn append(&mut self, more: &Clauses) -> Result<(), Memory>
        ensures added { OnOk result (self.new.clauses ≡ self.old.clauses ++ more.now.clauses) }
        ensures spare_clauses { self.new.spare_clauses ≡ self.old.spare_clauses }
        ensures spare_literals { self.new.spare_literals ≡ self.old.spare_literals }
        ensures err { OnErr result (self.new ≡ self.old) }
    {
        self.pieces.append(&more.pieces)
    }

    /// Adds all clauses of another list behind these, and lets the list go. Without clauses and without room it takes the
    /// list itself, so that no clause is copied. The room that was reserved stays.
    pub fn absorb(&mut self, more: Clauses) -> Result<(), Memory>
        ensures added { OnOk result (self.new.clauses ≡ self.old.clauses ++ more.clauses) }
        ensures spare_clauses { self.new.spare_clauses ≡ self.old.spare_clauses }
        ensures spare_literals { self.new.spare_literals ≡ self.old.spare_literals }
        ensures err { OnErr result (self.new ≡ self.old) }
    {
        self.pieces.absorb(more.pieces)
    }
}
