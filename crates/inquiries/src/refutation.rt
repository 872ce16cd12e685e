// The refutation of the bound below the least number of faults, as an inquiry.
ghost use Rattle.std.specs.Prelude.{◌≡◌, ◌≤◌, ℕ, suc, Some, IfOk};
ghost use Rattle.inquiries.specs.Begun.{ArePartsOf, HasQuestion, MayLearn};
ghost use Rattle.least_faults.specs.Parts.{IsWithinLimits};
ghost use Rattle.inquiries.specs.Refuted.{HasEvidence, HasEvidenceFor, IsRefutedBelow, IsRefutedFor, IsRefutedWithin, IsRefuting};
ghost use Rattle.replay.specs.declared.TheConstants.{MOST_FAULTS};

use crate::least::find_least;
use crate::question::{Case, Inquiry};
use crate::refuting::refuting_proof;
use des_base::Memory;
use least_faults::{Found, Parts};
use proof_ledger::Ledger;
use proof_text::Proof;
use replay::MOST_FAULTS;
use std::alloc::Global;

/// Asks for the proof that fewer faults than the least number won't do, which is searched for as by `LeastFaults`.
#[derive(Drop)]
pub struct Refutation {
    pub budget: u64,
}

/// What comes of asking for a refutation.
#[derive(Drop)]
pub enum Refuted {
    /// The proof that nothing explains the log within the bound, or at all if there is none.
    Within { bound: Option<u8>, proof: Proof },
    /// A run without faults explains the log: there is nothing to refute.
    Nothing,
    /// The budget was spent, and this was found.
    Undecided(Found),
}

impl Inquiry for Refutation {
    type Answer = Refuted;

    ghost may = { λ s net log n. IsWithinLimits net log n };

    ghost says = { λ s net log n book refuted. IsRefuting net log n s.budget book refuted };

    ghost leaves = { λ s net log n book. HasQuestion net log n (MayLearn (Some s.budget)) book };

    ghost fits = { λ s net log n within. within };

    fn ask<R: Fn(u32) -> u64>(
        &self,
        alloc: Global,
        case: &Case,
        parts: &mut Parts<R>,
        book: &mut Ledger,
    ) -> Result<Refuted, Memory> {
        let found = find_least(alloc, case, parts, book, self.budget)?;
        refuted_for(alloc, case, parts, book, found)
    }
}

// What is refuted if this was found.
fn refuted_for<R: Fn(u32) -> u64>(
    alloc: Global,
    case: &Case,
    parts: &Parts<R>,
    book: &Ledger,
    found: Found,
) -> Result<Refuted, Memory>
    requires parts { ArePartsOf R.pre R.post case.now.net case.now.log parts.now book.now.entries }
    requires evidence { HasEvidenceFor case.now.net case.now.log parts.now book.now.entries found }
    ensures { IfOk result (IsRefutedFor case.now.net case.now.log parts.now.step.steps book.now.entries found) }
{
    match found {
        Found::Explained(best) => below(alloc, case, parts, book, best.faults),
        Found::Absent => within(alloc, case, parts, book, None),
        Found::Many(_) => within(alloc, case, parts, book, Some(MOST_FAULTS as u8)),
        Found::Undecided { lo, best } => Ok(Refuted::Undecided(Found::Undecided { lo, best })),
    }
}

// The refutation of one fault fewer, if there is one.
fn below<R: Fn(u32) -> u64>(
    alloc: Global,
    case: &Case,
    parts: &Parts<R>,
    book: &Ledger,
    faults: u32,
) -> Result<Refuted, Memory>
    requires parts { ArePartsOf R.pre R.post case.now.net case.now.log parts.now book.now.entries }
    requires evidence { (k : ℕ) → faults ≡ suc k → HasEvidence case.now.net case.now.log parts.now book.now.entries (Some k) }
    requires few { faults ≤ MOST_FAULTS }
    ensures { IfOk result (IsRefutedBelow case.now.net case.now.log parts.now.step.steps faults book.now.entries) }
{
    if faults == 0 {
        return Ok(Refuted::Nothing);
    }
    within(alloc, case, parts, book, Some((faults - 1) as u8))
}

// The refutation of a bound.
fn within<R: Fn(u32) -> u64>(
    alloc: Global,
    case: &Case,
    parts: &Parts<R>,
    book: &Ledger,
    bound: Option<u8>,
) -> Result<Refuted, Memory>
    requires parts { ArePartsOf R.pre R.post case.now.net case.now.log parts.now book.now.entries }
    requires evidence { HasEvidence case.now.net case.now.log parts.now book.now.entries bound }
    ensures { IfOk result (IsRefutedWithin case.now.net case.now.log parts.now.step.steps bound book.now.entries) }
{
    let proof = refuting_proof(alloc, case, parts, book, bound)?;
    Ok(Refuted::Within { bound, proof })
}
