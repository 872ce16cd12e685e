// A question as a formula: its axioms, and a unit clause for each assumption.
ghost use Rattle.std.specs.Prelude.{◌≡◌, ◌++◌, IfOk, IfSome, None};
ghost use Rattle.inquiries.specs.Begun.{HasQuestion, MayLearn};
ghost use Rattle.inquiries.specs.Formula.{IsFormulaOf, counted_bound};
ghost use Rattle.least_faults.specs.Asking.{IsBoundable};
ghost use Rattle.least_faults.specs.Parts.{IsWithinLimits};
ghost use Rattle.proof_ledger.specs.Book.{clauses_of};
ghost use Rattle.proof_text.specs.CnfText.{formula};
ghost use Rattle.proof_text.specs.Refutation.{unit_clauses};

use crate::question::{Case, Inquiry};
use card_counter::Counter;
use des_base::Memory;
use least_faults::{Parts, assumptions};
use proof_ledger::Ledger;
use proof_text::Cnf;
use prop_core::{Clauses, Lit};
use std::alloc::Global;

/// Asks for the formula of the question, with at most as many faults as the bound if one is set.
#[derive(Drop)]
pub struct FormulaWithin {
    pub bound: Option<u8>,
}

impl Inquiry for FormulaWithin {
    type Answer = Cnf;

    ghost may = { λ s net log n. IsWithinLimits net log n };

    ghost says = { λ s net log n book cnf. IsFormulaOf net log n s.bound book (formula cnf.vars cnf.clauses.clauses) };

    ghost leaves = { λ s net log n book. HasQuestion net log n (MayLearn None) book };

    ghost fits = { λ s net log n within. within };

    fn ask<R: Fn(u32) -> u64>(
        &self,
        alloc: Global,
        case: &Case,
        parts: &mut Parts<R>,
        book: &mut Ledger,
    ) -> Result<Cnf, Memory> {
        let bound = counted(&parts.counter, self.bound);
        let assumed = assumptions(alloc, bound, parts, book)?;
        case.net.is_built();
        case.log.is_whole();
        formula_under(alloc, book, parts.vars.count(), assumed.as_slice())
    }
}

/// The bound, if there is a fault to count.
pub fn counted(counter: &Counter, bound: Option<u8>) -> Option<u32>
    ensures bound { result ≡ counted_bound counter.now bound }
    ensures boundable { IfSome result (IsBoundable counter.now) }
{
    if counter.inputs() == 0 {
        return None;
    }
    let k = bound?;
    Some(u32::from(k))
}

// The clauses of the book, and then a unit clause for each assumption.
fn formula_under(alloc: Global, book: &Ledger, vars: u32, assumed: &[Lit]) -> Result<Cnf, Memory>
    ensures { IfOk result (λ cnf. formula cnf.vars cnf.clauses.clauses ≡ formula vars (clauses_of book.now.entries ++ unit_clauses assumed.now)) }
{
    let mut clauses = Clauses::new(alloc);
    clauses.append(book.clauses())?;
    for lit in assumed {
        clauses.push(&[*lit])?;
    }
    Ok(Cnf { vars, clauses })
}
