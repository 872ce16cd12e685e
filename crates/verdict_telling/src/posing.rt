// The question of a log is written, and all of it is told.
ghost use Rattle.std.specs.Prelude.{◌≡◌, [], IsErrOf};
ghost use Rattle.des_base.specs.Outside.{Rose};
ghost use Rattle.indep.specs.StoredTest.{IsTest};
ghost use Rattle.least_faults.specs.Building.{IsUnused};
ghost use Rattle.least_faults.specs.Parts.{IsWithinLimits};
ghost use Rattle.verdict_telling.specs.Left.{LeavesVerdicts};
ghost use Rattle.verdict_telling.specs.Whole.{TellsCase, TellsWhole};
ghost use Rattle.telling.specs.Telling.{RisesExactlyIf};

use crate::whole::{Told, tell_whole};
use des_base::{Memory, Sink};
use indep::Indep;
use inquiries::{Case, NetworkSearch, begin, set_up};
use proof_ledger::Ledger;
use sat_order::Order;
use sat_solve::Solver;
use std::alloc::Global;
use telling::Broken;

/// Tells of a case: what explains its log with the fewest faults within `steps` parallel steps, and then, where there is a least number,
/// the verdict on each fault event. Each reply is put before the next question is asked.
pub fn tell_case<S: Sink>(
    alloc: Global,
    case: &Case,
    steps: u32,
    budget: u64,
    book: &mut Ledger,
    out: &mut S,
) -> Result<Told, Broken>
    requires limits { IsWithinLimits case.now.net case.now.log steps }
    requires empty { book.old.entries ≡ [] }
    ensures tells { TellsWhole case.now.net case.now.log steps budget book.new.entries (S.taken out.old) (S.taken out.new) (Rose (S.faults out.old) (S.faults out.new)) result }
    ensures left { LeavesVerdicts case.now.net case.now.log steps budget book.new.entries }
    ensures failures { RisesExactlyIf (IsErrOf result Broken.Put) (S.failures out.old) (S.failures out.new) }
{
    let telling = Telling {
        case,
        steps,
        budget,
    };
    match set_up(alloc, &case.net, steps, &telling, book, out) {
        Ok(told) => told,
        Err(Memory) => Err(Broken::Memory),
    }
}

// A case that is told of.
#[derive(Clone, Copy)]
struct Telling<'a> {
    case: &'a Case,
    steps: u32,
    budget: u64,
}

impl<S: Sink> NetworkSearch<S> for Telling<'_> {
    type Answer = Result<Told, Broken>;

    ghost about = { λ s. s.case.now.net };

    ghost may = { λ s. IsWithinLimits s.case.now.net s.case.now.log s.steps };

    ghost says = { λ s before now book told. TellsCase s.case.now.net s.case.now.log s.steps s.budget book (S.taken before) (S.taken now) (Rose (S.faults before) (S.faults now)) (S.failures before) (S.failures now) told };

    fn begin<T: Fn(u32, u32) -> bool, R: Fn(u32) -> u64>(
        &self,
        alloc: Global,
        test: &Indep<T>,
        order: Order<R>,
        book: &mut Ledger,
        out: &mut S,
    ) -> Result<Told, Broken> {
        let solver = Solver::new(alloc, order);
        tell_by_solver(
            alloc,
            self.case,
            self.steps,
            self.budget,
            test,
            solver,
            book,
            out,
        )
    }
}

// Tells of a case with a test and a solver that are given.
fn tell_by_solver<T: Fn(u32, u32) -> bool, R: Fn(u32) -> u64, S: Sink>(
    alloc: Global,
    case: &Case,
    steps: u32,
    budget: u64,
    test: &Indep<T>,
    solver: Solver<R>,
    book: &mut Ledger,
    out: &mut S,
) -> Result<Told, Broken>
    requires right { IsTest T.pre T.post test.now.test test.now.net }
    requires net { test.now.net ≡ case.now.net }
    requires unused { IsUnused R.pre R.post solver }
    requires limits { IsWithinLimits case.now.net case.now.log steps }
    requires empty { book.old.entries ≡ [] }
    ensures tells { TellsWhole case.now.net case.now.log steps budget book.new.entries (S.taken out.old) (S.taken out.new) (Rose (S.faults out.old) (S.faults out.new)) result }
    ensures left { LeavesVerdicts case.now.net case.now.log steps budget book.new.entries }
    ensures failures { RisesExactlyIf (IsErrOf result Broken.Put) (S.failures out.old) (S.failures out.new) }
{
    match begin(alloc, case, steps, test, solver, book) {
        Ok(parts) => tell_whole(alloc, case, steps, budget, parts, book, out),
        Err(Memory) => {
            *book = Ledger::new(alloc);
            Err(Broken::Memory)
        }
    }
}
