// A question is written into a book once, and an inquiry says what is asked of it.
ghost use Rattle.std.specs.Prelude.{◌≡◌, ℕ, List, [], IfOk};
ghost use Rattle.des_net.specs.Network.{Net};
ghost use Rattle.indep.specs.StoredTest.{IsTest};
ghost use Rattle.inquiries.specs.Begun.{HasBegun, IsEmptyOr};
ghost use Rattle.least_faults.specs.Building.{IsUnused};
ghost use Rattle.least_faults.specs.Parts.{IsWithinLimits};
ghost use Rattle.log_order.specs.Log.{Log};
ghost use Rattle.proof_ledger.specs.Book.{BookEntry};

use crate::setting_up::{NetworkSearch, set_up};
use des_base::Memory;
use des_net::Network;
use indep::Indep;
use least_faults::{Parts, build};
use log_order::AlarmLog;
use proof_ledger::Ledger;
use sat_order::Order;
use sat_solve::Solver;
use std::alloc::Global;

/// A network, and a log of what was seen of it.
#[derive(Drop)]
pub struct Case {
    pub net: Network,
    pub log: AlarmLog,
}

/// What is asked of a question that is written into a book.
pub trait Inquiry {
    /// What comes of it.
    type Answer;

    /// What has to hold of network, log and steps.
    ghost may: { Self → Net → Log → ℕ → Type 0 };

    /// What the answer means beside the book that is left.
    ghost says: { Self → Net → Log → ℕ → List BookEntry → Self.Answer → Type 0 };

    /// What is left in the book, even if memory runs out.
    ghost leaves: { Self → Net → Log → ℕ → List BookEntry → Type 0 };

    /// Asks it. The book has the axioms of the question alone, and the parts are theirs.
    fn ask<R: Fn(u32) -> u64>(
        &self,
        alloc: Global,
        case: &Case,
        parts: &mut Parts<R>,
        book: &mut Ledger,
    ) -> Result<Self::Answer, Memory>
        requires begun { HasBegun R.pre R.post case.now.net case.now.log parts.old book.old.entries }
        requires may { may self.now case.now.net case.now.log parts.old.step.steps }
        ensures says { IfOk result (says self.now case.now.net case.now.log parts.old.step.steps book.new.entries) }
        ensures left { leaves self.now case.now.net case.now.log parts.old.step.steps book.new.entries };

    ghost fits: { (s : Self) (net : Net) (log : Log) (n : ℕ) → may s net log n → IsWithinLimits net log n };
}

/// Writes the question which runs within `steps` parallel steps explain the log into an empty book, and makes the inquiry.
///
/// If memory runs out before the question is written whole, the book stays empty.
pub fn pose<Q: Inquiry>(
    alloc: Global,
    case: &Case,
    steps: u32,
    inquiry: &Q,
    book: &mut Ledger,
) -> Result<Q::Answer, Memory>
    requires may { Q.may inquiry.now case.now.net case.now.log steps }
    requires empty { book.old.entries ≡ [] }
    ensures says { IfOk result (Q.says inquiry.now case.now.net case.now.log steps book.new.entries) }
    ensures left { IsEmptyOr (Q.leaves inquiry.now case.now.net case.now.log steps) book.new.entries }
{
    let posing = Posing {
        case,
        steps,
        inquiry,
    };
    match set_up(alloc, &case.net, steps, &posing, book, &mut ()) {
        Ok(answer) => answer,
        Err(Memory) => Err(Memory),
    }
}

// An inquiry, and the case that it is about.
#[derive(Drop)]
struct Posing<'a, Q> {
    case: &'a Case,
    steps: u32,
    inquiry: &'a Q,
}

impl<Q: Inquiry> NetworkSearch<()> for Posing<'_, Q> {
    type Answer = Result<Q::Answer, Memory>;

    ghost about = { λ s. s.case.now.net };

    ghost may = { λ s. Q.may s.inquiry.now s.case.now.net s.case.now.log s.steps };

    ghost says = { λ s before now book answer. IfOk answer (Q.says s.inquiry.now s.case.now.net s.case.now.log s.steps book) × IsEmptyOr (Q.leaves s.inquiry.now s.case.now.net s.case.now.log s.steps) book };

    fn begin<T: Fn(u32, u32) -> bool, R: Fn(u32) -> u64>(
        &self,
        alloc: Global,
        test: &Indep<T>,
        order: Order<R>,
        book: &mut Ledger,
        _out: &mut (),
    ) -> Result<Q::Answer, Memory> {
        let solver = Solver::new(alloc, order);
        pose_by_solver(
            alloc,
            self.case,
            self.steps,
            test,
            solver,
            self.inquiry,
            book,
        )
    }
}

// Makes the inquiry with a test and a solver that are given.
fn pose_by_solver<T: Fn(u32, u32) -> bool, R: Fn(u32) -> u64, Q: Inquiry>(
    alloc: Global,
    case: &Case,
    steps: u32,
    test: &Indep<T>,
    solver: Solver<R>,
    inquiry: &Q,
    book: &mut Ledger,
) -> Result<Q::Answer, Memory>
    requires right { IsTest T.pre T.post test.now.test test.now.net }
    requires net { test.now.net ≡ case.now.net }
    requires unused { IsUnused R.pre R.post solver }
    requires may { Q.may inquiry.now case.now.net case.now.log steps }
    requires empty { book.old.entries ≡ [] }
    ensures says { IfOk result (Q.says inquiry.now case.now.net case.now.log steps book.new.entries) }
    ensures left { IsEmptyOr (Q.leaves inquiry.now case.now.net case.now.log steps) book.new.entries }
{
    match begin(alloc, case, steps, test, solver, book) {
        Ok(parts) => {
            let mut parts = parts;
            let answer = inquiry.ask(alloc, case, &mut parts, book);
            drop(parts);
            answer
        }
        Err(Memory) => {
            *book = Ledger::new(alloc);
            Err(Memory)
        }
    }
}

/// Writes the question which runs within `steps` parallel steps explain the log into an empty book, with a test and a solver that
/// are given. If memory runs out, the book may hold what was put so far.
pub fn begin<T: Fn(u32, u32) -> bool, R: Fn(u32) -> u64>(
    alloc: Global,
    case: &Case,
    steps: u32,
    test: &Indep<T>,
    solver: Solver<R>,
    book: &mut Ledger,
) -> Result<Parts<R>, Memory>
    requires right { IsTest T.pre T.post test.now.test test.now.net }
    requires net { test.now.net ≡ case.now.net }
    requires unused { IsUnused R.pre R.post solver }
    requires limits { IsWithinLimits case.now.net case.now.log steps }
    requires empty { book.old.entries ≡ [] }
    ensures begun { IfOk result (λ parts. HasBegun R.pre R.post case.now.net case.now.log parts book.new.entries) }
    ensures steps { IfOk result (λ parts. parts.step.steps ≡ steps) }
{
    match build(alloc, &case.net, &case.log, steps, test, solver, book).ok() {
        Some(parts) => Ok(parts),
        None => Err(Memory),
    }
}
