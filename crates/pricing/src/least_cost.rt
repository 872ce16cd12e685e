// The least total cost of what explains a log, when fault events have costs, as an inquiry.
ghost use Rattle.std.specs.Prelude.{◌≡◌, ℕ, List, length, IfOk, Option};
ghost use Rattle.event_costs.specs.StoredCosts.{IsCost};
ghost use Rattle.inquiries.specs.Begun.{HasBegun};
ghost use Rattle.pricing.specs.LeastCost.{AnswersTable, IsPricedBy, IsWithinCosts, LeavesCosts, MayPrice, fault_costs};

use cost_least::{Cheap, cheapest};
use des_base::Memory;
use event_costs::{CostTable, Costs};
use inquiries::{Case, Inquiry};
use least_faults::Parts;
use proof_ledger::Ledger;
use std::alloc::Global;

/// Asks for the least total cost of a run that explains the log, by a search that may learn as many clauses as the budget says. Fault
/// events cost what the table says, and a false alarm costs 1. The clauses that weigh them stand behind those of the question. If
/// memory runs out, the book has the axioms of the question, and what was put behind them so far.
#[derive(Clone, Copy)]
pub struct LeastCost<'a> {
    pub table: &'a CostTable,
    pub budget: u64,
}

impl Inquiry for LeastCost<'_> {
    type Answer = Cheap;

    ghost may = { λ s net log n. MayPrice s.table.now net log n };

    ghost says = { λ s net log n book cheap. IsPricedBy net (fault_costs net s.table.now) log n s.budget book cheap };

    ghost leaves = { λ s net log n book. LeavesCosts net (fault_costs net s.table.now) log n s.budget book };

    ghost fits = { λ s net log n may. may.limits };

    fn ask<R: Fn(u32) -> u64>(
        &self,
        alloc: Global,
        case: &Case,
        parts: &mut Parts<R>,
        book: &mut Ledger,
    ) -> Result<Cheap, Memory> {
        price(alloc, case, parts, self.table, self.budget, book)
    }
}

// Asks by the costs of a table.
fn price<R: Fn(u32) -> u64>(
    alloc: Global,
    case: &Case,
    parts: &mut Parts<R>,
    table: &CostTable,
    budget: u64,
    book: &mut Ledger,
) -> Result<Cheap, Memory>
    requires begun { HasBegun R.pre R.post case.now.net case.now.log parts.old book.old.entries }
    requires limits { IsWithinCosts case.now.net case.now.log parts.old.step.steps }
    requires long { length table.now ≡ length case.now.net.events }
    ensures priced { IfOk result (IsPricedBy case.now.net (fault_costs case.now.net table.now) case.now.log parts.old.step.steps budget book.new.entries) }
    ensures left { LeavesCosts case.now.net (fault_costs case.now.net table.now) case.now.log parts.old.step.steps budget book.new.entries }
{
    let costs = Costs::new(&case.net, |event: u32| table.cost(event));
    price_by(alloc, case, parts, &costs, budget, book)
}

// Asks by costs that are stored, whichever table they are those of.
fn price_by<C: Fn(u32) -> u32, R: Fn(u32) -> u64>(
    alloc: Global,
    case: &Case,
    parts: &mut Parts<R>,
    costs: &Costs<C>,
    budget: u64,
    book: &mut Ledger,
) -> Result<Cheap, Memory>
    requires cost { IsCost C.pre C.post costs.now.cost costs.now.net }
    requires net { costs.now.net ≡ case.now.net }
    requires begun { HasBegun R.pre R.post case.now.net case.now.log parts.old book.old.entries }
    requires limits { IsWithinCosts case.now.net case.now.log parts.old.step.steps }
    ensures priced { (table : List (Option ℕ)) → AnswersTable C.post costs.now.cost case.now.net table → IfOk result (IsPricedBy case.now.net (fault_costs case.now.net table) case.now.log parts.old.step.steps budget book.new.entries) }
    ensures left { (table : List (Option ℕ)) → AnswersTable C.post costs.now.cost case.now.net table → LeavesCosts case.now.net (fault_costs case.now.net table) case.now.log parts.old.step.steps budget book.new.entries }
{
    let cheap = cheapest(alloc, &case.net, &case.log, parts, costs, book, budget);
    book.is_valid();
    cheap
}
