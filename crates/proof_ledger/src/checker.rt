// The checker of proofs.
ghost use Rattle.std.specs.Prelude.{◌≡◌, [], IfOk, OnErr, OnOk};
ghost use Rattle.prop_core.specs.Derivation.{clause_numbered};
ghost use Rattle.proof_ledger.specs.declared.checker.ProofStep.TheVariants as steps;
ghost use Rattle.proof_ledger.specs.Checking.{IsLeftBy, IsUnsatisfiable, holds, after_next, check_proof, rest_gives};
ghost use Rattle.proof_ledger.specs.Checkers.{reached};

use crate::follow::{Outcome, derive_by};
use crate::held::HeldClauses;
use crate::truths::Truths;
use des_base::{ListOf, Memory};
use prop_core::{ClauseId, Clauses, Lit};
use std::alloc::Global;

/// A step of a proof, with the line that it stands in.
#[derive(Drop)]
pub enum ProofStep {
    /// The clause is held by this number from now on; the hints derive it.
    Add {
        line: u32,
        id: u64,
        clause: ListOf<Lit>,
        hints: ListOf<ClauseId>,
    },
    /// The clauses of these numbers are held no longer.
    Delete {
        ids: ListOf<ClauseId>,
    },
}

/// The outcome of a proof.
#[derive(Clone, Copy)]
pub enum Checked {
    /// No assignment makes all axioms true.
    Verified,
    /// The step of this line doesn't derive: a hint names no clause that is held (kind 1) or has two or more open literals
    /// (kind 2), or the hints end (kind 3). Or all steps derive and none has the empty clause (line 0, kind 4).
    Rejected { line: u32, kind: u8 },
}

/// Checks a proof. The axioms are held by their numbers from 1.
///
/// Steps after the first with the empty clause aren't looked at.
pub fn check(alloc: Global, axioms: &Clauses, steps: &[ProofStep]) -> Result<Checked, Memory>
    ensures checked { IfOk result (λ checked. checked ≡ check_proof axioms.now.clauses steps.now) }
    ensures sound { IfOk result (λ checked. checked ≡ Checked.Verified → IsUnsatisfiable axioms.now.clauses) }
{
    let mut checker = Checker::new(alloc, axioms)?;
    for step in steps {
        checker.take(step)?;
    }
    Ok(checker.outcome())
}

/// A checker of a proof. It takes the steps one after another, and looks at none behind one that ends the proof.
#[derive(Drop)]
pub struct Checker<'a> {
    held: HeldClauses<'a>,
    truths: Truths,
    // the outcome, if a step has ended the proof
    outcome: Option<Checked>,
}

impl<'a> Checker<'a> {
    /// Before the first step: the axioms are held by their numbers from 1.
    pub fn new(alloc: Global, axioms: &'a Clauses) -> Result<Checker<'a>, Memory>
        ensures { IfOk result (λ checker. reached checker ≡ holds (clause_numbered axioms.now.clauses)) }
    {
        Ok(Checker {
            held: HeldClauses::of_axioms(alloc, axioms)?,
            truths: Truths::new(alloc),
            outcome: None,
        })
    }

    /// Takes an addition. It ends the proof if the hints don't derive the clause, or if the clause is empty.
    ///
    /// If memory runs out, the clause that was held by this number may be held no longer; all else is as it was.
    pub fn add(
        &mut self,
        line: u32,
        id: u64,
        clause: &[Lit],
        hints: &[ClauseId],
    ) -> Result<(), Memory>
        ensures failed { OnErr result (IsLeftBy id (reached self.old) (reached self.new)) }
        ensures taken { OnOk result (reached self.new ≡ after_next (reached self.old) (steps.Add line id clause.now hints.now)) }
    {
        if self.outcome.is_some() {
            return Ok(());
        }
        match derive_by(&mut self.truths, &self.held, clause, hints)? {
            Outcome::Fails { kind, .. } => self.outcome = Some(Checked::Rejected { line, kind }),
            Outcome::Derives => {
                if clause.is_empty() {
                    self.outcome = Some(Checked::Verified);
                } else {
                    self.held.add(id, clause)?;
                }
            }
        }
        Ok(())
    }

    /// Takes a deletion.
    pub fn delete(&mut self, ids: &[ClauseId])
        ensures { reached self.new ≡ after_next (reached self.old) (steps.Delete ids.now) }
    {
        if self.outcome.is_none() {
            self.held.delete(ids);
        }
    }

    // Takes a step.
    fn take(&mut self, step: &ProofStep) -> Result<(), Memory>
        ensures { OnOk result (reached self.new ≡ after_next (reached self.old) step.now) }
    {
        match step {
            ProofStep::Add {
                line,
                id,
                clause,
                hints,
            } => self.add(*line, *id, clause.as_slice(), hints.as_slice()),
            ProofStep::Delete { ids } => {
                self.delete(ids.as_slice());
                Ok(())
            }
        }
    }

    /// The outcome of the steps so far, if no other is to come.
    pub fn outcome(&self) -> Checked
        ensures { result ≡ rest_gives (reached self.now) [] }
    {
        match self.outcome {
            Some(outcome) => outcome,
            None => Checked::Rejected { line: 0, kind: 4 },
        }
    }
}
