// The refutation that a search leaves in its book, as a proof of its own.
ghost use Rattle.std.specs.Prelude.{◌≡◌, true, All, IfOk};
ghost use Rattle.std.specs.List.{list_any};
ghost use Rattle.inquiries.specs.Begun.{ArePartsOf};
ghost use Rattle.inquiries.specs.Formula.{counted_bound};
ghost use Rattle.inquiries.specs.Refuted.{HasBoundColumn, HasEvidence, IsLastFinal, IsVerifiedRefutation};
ghost use Rattle.least_faults.specs.Asking.{AreAssumed};
ghost use Rattle.least_faults.specs.Evidence.{is_final};
ghost use Rattle.proof_text.specs.ProofNumbers.{NumbersAscend, HasNoZero};

use crate::formula::counted;
use crate::question::Case;
use des_base::Memory;
use least_faults::Parts;
use proof_ledger::{Entry, Ledger};
use proof_text::{Proof, refutation_proof};
use prop_core::{ClauseId, Lit};
use std::alloc::Global;

/// The proof that nothing explains the log within a bound, by the last final clause of the book.
pub fn refuting_proof<R: Fn(u32) -> u64>(
    alloc: Global,
    case: &Case,
    parts: &Parts<R>,
    book: &Ledger,
    bound: Option<u8>,
) -> Result<Proof, Memory>
    requires parts { ArePartsOf R.pre R.post case.now.net case.now.log parts.now book.now.entries }
    requires evidence { HasEvidence case.now.net case.now.log parts.now book.now.entries bound }
    ensures refuted { IfOk result (λ proof. IsVerifiedRefutation case.now.net case.now.log parts.now.step.steps bound book.now.entries proof) }
    ensures ascend { IfOk result (λ proof. NumbersAscend 0 proof) }
    ensures above { IfOk result (λ proof. All HasNoZero proof) }
{
    case.net.is_built();
    case.log.is_whole();
    let assumed = assumed_within(alloc, parts, bound)?;
    let last = last_final(book);
    refutation_proof(alloc, book, assumed.as_slice(), last)
}

// What is assumed within a bound: the guards of the log, and the counter's literal if there is a fault to count.
fn assumed_within<R: Fn(u32) -> u64>(
    alloc: Global,
    parts: &Parts<R>,
    bound: Option<u8>,
) -> Result<Vec<Lit>, Memory>
    requires { HasBoundColumn parts.now.counter bound }
    ensures { IfOk result (λ assumed. AreAssumed parts.now.counter parts.now (counted_bound parts.now.counter bound) assumed.items) }
{
    let mut assumed = Vec::new(alloc);
    assumed.extend_from_slice(parts.code.guards())?;
    if let Some(k) = counted(&parts.counter, bound) {
        assumed.push(parts.counter.bound_lit(k))?;
    }
    Ok(assumed)
}

// The number of the last final clause, if there is one.
fn last_final(book: &Ledger) -> ClauseId
    ensures { list_any is_final book.now.entries ≡ true → IsLastFinal book.now.entries result }
{
    let mut last = ClauseId(0);
    for place in 0..book.entries() {
        if let Entry::Final(id) = book.entry(place) {
            last = id;
        }
    }
    last
}
