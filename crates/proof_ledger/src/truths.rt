// The truths of literals while hints are followed.
ghost use Rattle.std.specs.Prelude.{◌≡◌, ℕ, ◌++◌, ◌∷◌, [], map, IfOk, OnOk, OnErr};
ghost use Rattle.std.specs.Option.{option_copied};
ghost use Rattle.prop_core.specs.Clauses.{negation, is_true, is_false};
ghost use Rattle.prop_core.specs.Derivation.{standing, after_hint};
ghost use Rattle.proof_ledger.specs.Following.{standing_of, progress_of};
ghost use Rattle.proof_ledger.specs.Fronts.{front_with, front_standing};

use crate::marks::{MarkPair, grow, mark, mark_pair, place, unmark_all};
use des_base::Memory;
use prop_core::Lit;
use std::alloc::Global;
use std::marker::Model;

// The literals that are taken as true, in the order in which they were. Each is marked, so that it is found at once.
#[derive(Drop)]
pub struct Truths {
    marks: Vec<bool>,
    taken: Vec<Lit>,
}

impl Model for Truths {
    ghost use Rattle.std.specs.Prelude.{List};
    ghost use Rattle.prop_core.specs.declared.lit.Lit.{Lit};

    ghost Value = { List Lit };

    ghost view = { λ a. a.taken.items };

    ghost use Rattle.proof_ledger.specs.Marks.{AreMarked};

    ghost invariant = { λ a. AreMarked a.marks.items a.taken.items };
}

// How a clause stands.
#[derive(Clone, Copy)]
pub enum HintStands {
    Falsified,
    Satisfied,
    Unit(Lit),
    Wide,
}

// What is known of the first literals of a clause: whether all are false, whether one is true, which is the first that is neither, and whether
// another one is neither.
#[derive(Clone, Copy)]
pub struct Front {
    pub all_false: bool,
    pub any_true: bool,
    pub first: Option<Lit>,
    pub wide: bool,
}

impl Front {
    // The same with one more literal.
    fn with(self, lit: Lit, is_false: bool, is_true: bool) -> Front
        ensures { result ≡ front_with self lit is_false is_true }
    {
        // (Most literals are false, and change nothing of what is known.)
        if is_false && !is_true {
            return self;
        }
        let mut front = self;
        front.all_false = self.all_false && is_false;
        front.any_true = self.any_true || is_true;
        if !is_false && !is_true {
            match self.first {
                None => {
                    front.first = Some(lit);
                    front.wide = false;
                }
                Some(first) => front.wide = self.wide || first != lit,
            }
        }
        front
    }

    // How a clause stands of which this is known.
    fn stands(self) -> HintStands
        ensures { standing_of result ≡ front_standing self }
    {
        if self.all_false {
            return HintStands::Falsified;
        }
        if self.any_true {
            return HintStands::Satisfied;
        }
        match self.first {
            Some(lit) if !self.wide => HintStands::Unit(lit),
            _ => HintStands::Wide,
        }
    }
}

// What a hint leads to. A fault has its kind.
#[derive(Clone, Copy)]
pub enum HintStep {
    Derives,
    Fails(u8),
    GoesOn,
}

impl Truths {
    pub fn new(alloc: Global) -> Truths
        ensures { result ≡ [] }
    {
        Truths {
            marks: Vec::new(alloc),
            taken: Vec::new(alloc),
        }
    }

    // Whether the literal is true, and whether its negation is.
    fn marks_of(&self, lit: Lit) -> MarkPair
        ensures itself { result.itself ≡ is_true self.now lit }
        ensures negation { result.negation ≡ is_false self.now lit }
    {
        mark_pair(&self.marks, lit)
    }

    fn take(&mut self, lit: Lit) -> Result<(), Memory>
        ensures ok { OnOk result (self.new ≡ self.old ++ lit ∷ []) }
        ensures err { OnErr result (self.new ≡ self.old) }
    {
        let place = place(lit);
        grow(&mut self.marks, place)?;
        self.taken.push(lit)?;
        mark(&mut self.marks, place);
        Ok(())
    }

    // Takes the negations of the clause's literals, and nothing else.
    pub fn negate(&mut self, clause: &[Lit]) -> Result<(), Memory>
        ensures { OnOk result (self.new ≡ map negation clause.now) }
    {
        self.forget();
        for lit in clause {
            self.take(lit.negated())?;
        }
        Ok(())
    }

    fn forget(&mut self)
        ensures { self.new ≡ [] }
    {
        unmark_all(&mut self.marks, &self.taken);
        self.taken.clear();
    }

    // The clause's literals are looked at once, from the first on.
    fn standing(&self, clause: &[Lit]) -> HintStands
        ensures { standing_of result ≡ standing self.now clause.now }
    {
        let mut front = Front {
            all_false: true,
            any_true: false,
            first: None,
            wide: false,
        };
        for lit in clause {
            let marks = self.marks_of(*lit);
            front = front.with(*lit, marks.negation, marks.itself);
        }
        front.stands()
    }

    // Follows a hint, given the clause that it names.
    pub fn follow(&mut self, hinted: Option<&[Lit]>) -> Result<HintStep, Memory>
        ensures { IfOk result (λ step. (at : ℕ) → after_hint self.old at (option_copied hinted.entry) ≡ progress_of at self.new step) }
    {
        let clause = match hinted {
            None => return Ok(HintStep::Fails(1)),
            Some(clause) => clause,
        };
        match self.standing(clause) {
            HintStands::Falsified => Ok(HintStep::Derives),
            HintStands::Satisfied => Ok(HintStep::GoesOn),
            HintStands::Wide => Ok(HintStep::Fails(2)),
            HintStands::Unit(lit) => {
                self.take(lit)?;
                Ok(HintStep::GoesOn)
            }
        }
    }
}
