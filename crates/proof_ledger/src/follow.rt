// Following the hints of a step.
ghost use Rattle.std.specs.Prelude.{◌≡◌, ℕ, List, Option, length, IfOk};
ghost use Rattle.std.specs.Option.{option_copied};
ghost use Rattle.prop_core.specs.declared.lit.Lit.{Lit};
ghost use Rattle.prop_core.specs.Derivation.{derive, clause_numbered};
ghost use Rattle.proof_ledger.specs.Following.{derivation_of, IsPlaceWithin};

use crate::truths::{HintStep, Truths};
use des_base::Memory;
use prop_core::{ClauseId, Clauses, Lit};

// The outcome of a step.
#[derive(Clone, Copy)]
pub enum Outcome {
    Derives,
    Fails { hint_at: usize, kind: u8 },
}

// What holds clauses by their numbers.
pub trait Holds {
    ghost held: { Self → ℕ → Option (List Lit) };

    fn find(&self, id: ClauseId) -> Option<&[Lit]>
        ensures { option_copied result ≡ held self.now id };
}

impl Holds for Clauses {
    ghost held = { λ clauses. clause_numbered clauses.clauses };

    fn find(&self, id: ClauseId) -> Option<&[Lit]> {
        if id.0 == 0 || id.0 > self.len() {
            return None;
        }
        Some(self.clause(id))
    }
}

// Follows the hints from the clause's negation.
#[tactic(auto, using(crate::proofs::Hints::hints_from))]
pub fn derive_by<H: Holds>(
    truths: &mut Truths,
    holds: &H,
    clause: &[Lit],
    hints: &[ClauseId],
) -> Result<Outcome, Memory>
    ensures outcome { IfOk result (λ outcome. derivation_of outcome ≡ derive (H.held holds.now) clause.now hints.now) }
    ensures place { IfOk result (IsPlaceWithin (length hints.now)) }
{
    truths.negate(clause)?;
    for (hint_at, hint) in hints.iter().enumerate() {
        match truths.follow(holds.find(*hint))? {
            HintStep::Derives => return Ok(Outcome::Derives),
            HintStep::Fails(kind) => return Ok(Outcome::Fails { hint_at, kind }),
            HintStep::GoesOn => {}
        }
    }
    Ok(Outcome::Fails {
        hint_at: hints.len(),
        kind: 3,
    })
}
