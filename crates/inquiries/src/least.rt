// The least number of faults, as an inquiry.
ghost use Rattle.std.specs.Prelude.{IfOk, Some};
ghost use Rattle.inquiries.specs.Begun.{HasAskedWithin, HasBegun, HasQuestion, MayLearn};
ghost use Rattle.inquiries.specs.Diagnosed.{IsDiagnosed};
ghost use Rattle.inquiries.specs.Refuted.{HasEvidenceFor};
ghost use Rattle.least_faults.specs.Growing.{KeepsQuestion};
ghost use Rattle.least_faults.specs.Parts.{AreReady, IsWithinLimits};

use crate::question::{Case, Inquiry};
use des_base::Memory;
use least_faults::{Found, Parts, least};
use proof_ledger::Ledger;
use std::alloc::Global;

/// Asks for the least number of faults, by a search that may learn as many clauses as the budget says.
#[derive(Drop)]
pub struct LeastFaults {
    pub budget: u64,
}

impl Inquiry for LeastFaults {
    type Answer = Found;

    ghost may = { λ s net log n. IsWithinLimits net log n };

    ghost says = { λ s net log n book found. IsDiagnosed net log n s.budget book found };

    ghost leaves = { λ s net log n book. HasQuestion net log n (MayLearn (Some s.budget)) book };

    ghost fits = { λ s net log n within. within };

    fn ask<R: Fn(u32) -> u64>(
        &self,
        alloc: Global,
        case: &Case,
        parts: &mut Parts<R>,
        book: &mut Ledger,
    ) -> Result<Found, Memory> {
        find_least(alloc, case, parts, book, self.budget)
    }
}

/// Searches for the least number of faults, if nothing has been asked yet of the question in the book. The book then has evidence
/// for what is found.
pub fn find_least<R: Fn(u32) -> u64>(
    alloc: Global,
    case: &Case,
    parts: &mut Parts<R>,
    book: &mut Ledger,
    budget: u64,
) -> Result<Found, Memory>
    requires begun { HasBegun R.pre R.post case.now.net case.now.log parts.old book.old.entries }
    ensures diagnosed { IfOk result (IsDiagnosed case.now.net case.now.log parts.old.step.steps budget book.new.entries) }
    ensures evidence { IfOk result (HasEvidenceFor case.now.net case.now.log parts.new book.new.entries) }
    ensures kept { KeepsQuestion parts.old parts.new book.old.entries book.new.entries }
    ensures ready { AreReady R.pre R.post parts.new book.new.entries }
    ensures left { HasQuestion case.now.net case.now.log parts.old.step.steps (HasAskedWithin budget) book.new.entries }
{
    let found = least(alloc, &case.net, &case.log, parts, book, budget);
    book.is_valid();
    found
}
