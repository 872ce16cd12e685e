// The search for the least total, by halving: each bound is an assumption of an incremental solver.
ghost use Rattle.std.specs.Prelude.{◌≡◌, ℕ, ◌<◌, ◌≤◌, min, ◌+◌, None, IfOk, OnErr};
ghost use Rattle.des_base.specs.declared.TheConstants.{MOST_STEPS};
ghost use Rattle.event_costs.specs.StoredCosts.{IsCost, GivesCosts};
ghost use Rattle.event_costs.specs.declared.TheConstants.{MOST_COST};
ghost use Rattle.least_faults.specs.Growing.{HasGrownWithin};
ghost use Rattle.least_faults.specs.Parts.{AreReady, BelongTo};
ghost use Rattle.least_faults.specs.declared.TheConstants.{MOST_SIZE};
ghost use Rattle.cost_least.specs.Answers.{IsPriced, IsHalfway};
ghost use Rattle.cost_least.specs.Costs.{cost_size};
ghost use Rattle.cost_least.specs.Searching.{AreAsked, GoesOnWeighed, HasAnsweredCosts, asked_of, HasFoundCost, HasRefusedCosts, LeavesUnpriced};
ghost use Rattle.cost_least.specs.Weighed.{AreWeighed, KeepsCode};

use crate::asking::{CostAnswer, ask};
use crate::question::CostQuestion;
use crate::weighing::weigh;
use answers::{Cheap, Priced};
use des_base::Memory;
use des_net::Network;
use event_costs::{Costs, MOST_COST};
use least_faults::Parts;
use log_order::AlarmLog;
use proof_ledger::Ledger;
use std::alloc::Global;

/// The least total cost of a run that explains the log, by a search that may learn as many clauses as the budget says.
///
/// It asks first without a bound, and then by halving what is left between a total that is refuted and the total of a run that is
/// known, up to 1,000. The book gets a mark 0 first, then the clauses that weigh the faults, and a mark 1 before each answer but
/// `Memory`.
pub fn cheapest<C: Fn(u32) -> u32, R: Fn(u32) -> u64>(
    alloc: Global,
    net: &Network,
    log: &AlarmLog,
    parts: &mut Parts<R>,
    costs: &Costs<C>,
    book: &mut Ledger,
    budget: u64,
) -> Result<Cheap, Memory>
    requires cost { IsCost C.pre C.post costs.now.cost costs.now.net }
    requires net { costs.now.net ≡ net.now }
    requires belong { BelongTo net.now log.now parts.old }
    requires steps { parts.old.step.steps ≤ MOST_STEPS }
    requires ready { AreReady R.pre R.post parts.old book.old.entries }
    requires size { cost_size net.now log.now parts.old.step.steps ≤ MOST_SIZE }
    ensures kept { KeepsCode parts.old parts.new }
    ensures grown { HasGrownWithin budget book.old.entries book.new.entries }
    ensures answered { IfOk result (HasAnsweredCosts C.post costs.now.cost net.now log.now parts.new budget book.old.entries book.new.entries) }
    ensures unanswered { OnErr result (LeavesUnpriced C.post costs.now.cost net.now log.now parts.new budget book.old.entries book.new.entries) }
{
    let mut left = budget;
    book.put_mark(0)?;
    let scale = weigh(alloc, net, log, parts, costs, book)?;
    let question = CostQuestion {
        net,
        log,
        scale,
        alloc,
    };
    let cheap = search(question, costs, parts, book, &mut left)?;
    book.put_mark(1)?;
    Ok(cheap)
}

// Asks without a bound, and then by halving.
fn search<C: Fn(u32) -> u32, R: Fn(u32) -> u64>(
    question: CostQuestion<'_>,
    costs: &Costs<C>,
    parts: &mut Parts<R>,
    book: &mut Ledger,
    budget: &mut u64,
) -> Result<Cheap, Memory>
    requires cost { IsCost C.pre C.post costs.now.cost costs.now.net }
    requires net { costs.now.net ≡ question.net.now }
    requires belong { BelongTo question.net.now question.log.now parts.old }
    requires steps { parts.old.step.steps ≤ MOST_STEPS }
    requires asked { AreAsked R.pre R.post C.post costs.now.cost question.net.now parts.old question.scale book.old.entries }
    ensures goes_on { GoesOnWeighed R.pre R.post parts.old parts.new question.entry.scale book.old.entries book.new.entries budget.old budget.new }
    ensures found { IfOk result (λ cheap. (cost : ℕ → ℕ) → GivesCosts C.post costs.now.cost question.entry.net.now cost → AreWeighed R.pre R.post cost parts.old question.entry.scale book.old.entries → HasFoundCost (asked_of question.entry.net.now cost question.entry.log.now parts.new) budget.old book.old.entries book.new.entries cheap) }
    ensures quit { OnErr result ((cost : ℕ → ℕ) → GivesCosts C.post costs.now.cost question.entry.net.now cost → AreWeighed R.pre R.post cost parts.old question.entry.scale book.old.entries → HasRefusedCosts (asked_of question.entry.net.now cost question.entry.log.now parts.new) book.old.entries book.new.entries) }
{
    question.net.is_built();
    question.log.is_whole();
    parts.code.has_guards();
    match ask(question, costs, None, parts, book, budget)? {
        CostAnswer::Refuted => Ok(Cheap::Absent),
        CostAnswer::Spent => Ok(Cheap::Undecided { lo: 0, best: None }),
        CostAnswer::Explained(known) => halve(question, costs, known, parts, book, budget),
    }
}

// Asks by halving what is left below the total of a run that is known.
fn halve<C: Fn(u32) -> u32, R: Fn(u32) -> u64>(
    question: CostQuestion<'_>,
    costs: &Costs<C>,
    known: Priced,
    parts: &mut Parts<R>,
    book: &mut Ledger,
    budget: &mut u64,
) -> Result<Cheap, Memory>
    requires cost { IsCost C.pre C.post costs.now.cost costs.now.net }
    requires net { costs.now.net ≡ question.net.now }
    requires belong { BelongTo question.net.now question.log.now parts.old }
    requires steps { parts.old.step.steps ≤ MOST_STEPS }
    requires asked { AreAsked R.pre R.post C.post costs.now.cost question.net.now parts.old question.scale book.old.entries }
    requires known { (cost : ℕ → ℕ) → GivesCosts C.post costs.now.cost question.net.now cost → IsPriced (asked_of question.net.now cost question.log.now parts.old) known }
    requires counted { 0 < known.cost → 0 < question.scale.inputs }
    ensures goes_on { GoesOnWeighed R.pre R.post parts.old parts.new question.entry.scale book.old.entries book.new.entries budget.old budget.new }
    ensures found { IfOk result (λ cheap. (cost : ℕ → ℕ) → GivesCosts C.post costs.now.cost question.entry.net.now cost → AreWeighed R.pre R.post cost parts.old question.entry.scale book.old.entries → HasFoundCost (asked_of question.entry.net.now cost question.entry.log.now parts.new) budget.old book.old.entries book.new.entries cheap) }
    ensures quit { OnErr result ((cost : ℕ → ℕ) → GivesCosts C.post costs.now.cost question.entry.net.now cost → AreWeighed R.pre R.post cost parts.old question.entry.scale book.old.entries → HasRefusedCosts (asked_of question.entry.net.now cost question.entry.log.now parts.new) book.old.entries book.new.entries) }
{
    question.net.is_built();
    question.log.is_whole();
    parts.code.has_guards();
    let mut best = known;
    let mut lo = 0;
    while lo < ceiling(best.cost) {
        let b = middle(lo, best.cost);
        let asked = ask(question, costs, Some(b), parts, book, budget)?;
        book.is_valid();
        match asked {
            CostAnswer::Explained(better) => best = better,
            CostAnswer::Refuted => lo = b + 1,
            CostAnswer::Spent => {
                return Ok(Cheap::Undecided {
                    lo,
                    best: Some(best),
                });
            }
        }
    }
    if best.cost > MOST_COST {
        Ok(Cheap::Dear(best.run))
    } else {
        Ok(Cheap::Found(best))
    }
}

// The most that the search can find: the known total, or one more than the greatest that is asked for.
fn ceiling(hi: u32) -> u32
    ensures { result ≡ min hi (1 + MOST_COST) }
{
    hi.min(MOST_COST + 1)
}

// The total halfway between both.
fn middle(lo: u32, hi: u32) -> u32
    requires left { lo < min hi (1 + MOST_COST) }
    ensures { IsHalfway lo hi result }
{
    lo + (ceiling(hi) - lo - 1) / 2
}
