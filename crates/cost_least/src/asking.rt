// One question of the search, without a bound on the total or within one.
ghost use Rattle.std.specs.Prelude.{◌≡◌, ℕ, ◌≤◌, ◌++◌, IfOk, OnErr, OnOk, IfSome};
ghost use Rattle.des_base.specs.declared.TheConstants.{MOST_STEPS};
ghost use Rattle.event_costs.specs.StoredCosts.{IsCost, GivesCosts};
ghost use Rattle.sat_solve.specs.Leaving.{PutsNoFinal};
ghost use Rattle.least_faults.specs.Parts.{BelongTo};
ghost use Rattle.prop_core.specs.Clauses.{value_in};
ghost use Rattle.run_decode.specs.Decoding.{IsTrueRun};
ghost use Rattle.weight_counter.specs.Scales.{IsWithinVars};
ghost use Rattle.cost_least.specs.Answers.{IsPriced};
ghost use Rattle.cost_least.specs.Asking.{HasAskedCost, IsGiven};
ghost use Rattle.cost_least.specs.Pricing.{cost_limit};
ghost use Rattle.cost_least.specs.Searching.{MayBound, GoesOnWeighed, IsSolvedUnder, asked_of, AreAsked, IsTotalOf};
ghost use Rattle.cost_least.specs.Weighed.{AreWeighed, assumed_at};

use crate::question::CostQuestion;
use crate::run_costs::run_cost;
use answers::Priced;
use des_base::Memory;
use event_costs::Costs;
use least_faults::Parts;
use log_encode::LogCode;
use proof_ledger::Ledger;
use prop_core::Lit;
use run_decode::decode;
use sat_solve::Answer;
use weight_counter::Scale;

// The outcome of a question.
#[derive(Drop)]
pub enum CostAnswer {
    Explained(Priced),
    Refuted,
    Spent,
}

// Asks what explains the log, with a total within the bound if one is given.
pub fn ask<C: Fn(u32) -> u32, R: Fn(u32) -> u64>(
    question: CostQuestion<'_>,
    costs: &Costs<C>,
    within: Option<u32>,
    parts: &mut Parts<R>,
    book: &mut Ledger,
    budget: &mut u64,
) -> Result<CostAnswer, Memory>
    requires cost { IsCost C.pre C.post costs.now.cost costs.now.net }
    requires net { costs.now.net ≡ question.net.now }
    requires belong { BelongTo question.net.now question.log.now parts.old }
    requires steps { parts.old.step.steps ≤ MOST_STEPS }
    requires asked { AreAsked R.pre R.post C.post costs.now.cost question.net.now parts.old question.scale book.old.entries }
    requires bound { IfSome within (MayBound question.scale) }
    ensures goes_on { GoesOnWeighed R.pre R.post parts.old parts.new question.entry.scale book.old.entries book.new.entries budget.old budget.new }
    ensures given { IfOk result (λ asked. (cost : ℕ → ℕ) → GivesCosts C.post costs.now.cost question.entry.net.now cost → IsGiven (asked_of question.entry.net.now cost question.entry.log.now parts.new) asked) }
    ensures asked { IfOk result (λ asked. (cost : ℕ → ℕ) → GivesCosts C.post costs.now.cost question.entry.net.now cost → AreWeighed R.pre R.post cost parts.old question.entry.scale book.old.entries → HasAskedCost (asked_of question.entry.net.now cost question.entry.log.now parts.new) parts.new.code.coded question.entry.scale within book.old.entries book.new.entries budget.old budget.new asked) }
    ensures quit { OnErr result (PutsNoFinal book.old.entries book.new.entries) }
{
    question.net.is_built();
    question.log.is_whole();
    let answer = solve(question, within, parts, book, budget)?;
    parts.code.has_guards();
    book.is_valid();
    match answer {
        Answer::Unsat(_) => Ok(CostAnswer::Refuted),
        Answer::Spent => Ok(CostAnswer::Spent),
        Answer::Sat => Ok(CostAnswer::Explained(found_run(question, costs, parts)?)),
    }
}

// Asks the solver, under what is assumed.
fn solve<R: Fn(u32) -> u64>(
    question: CostQuestion<'_>,
    within: Option<u32>,
    parts: &mut Parts<R>,
    book: &mut Ledger,
    budget: &mut u64,
) -> Result<Answer, Memory>
    requires belong { BelongTo question.net.now question.log.now parts.old }
    requires weighed { (cost : ℕ → ℕ) × AreWeighed R.pre R.post cost parts.old question.scale book.old.entries }
    requires bound { IfSome within (MayBound question.scale) }
    ensures goes_on { GoesOnWeighed R.pre R.post parts.old parts.new question.entry.scale book.old.entries book.new.entries budget.old budget.new }
    ensures solved { IfOk result (IsSolvedUnder (assumed_at parts.new.code.coded question.entry.scale within) parts.new.solver.assignment book.old.entries book.new.entries budget.old budget.new) }
    ensures quit { OnErr result (PutsNoFinal book.old.entries book.new.entries) }
{
    question.net.is_built();
    question.log.is_whole();
    parts.code.has_guards();
    let assumed = assumptions(question, within, &parts.code)?;
    parts.solver.solve(book, assumed.as_slice(), budget)
}

// What is assumed: the guards of the log, and the literal for the bound.
fn assumptions(
    question: CostQuestion<'_>,
    within: Option<u32>,
    code: &LogCode,
) -> Result<Vec<Lit>, Memory>
    requires bound { IfSome within (MayBound question.scale) }
    requires within { IsWithinVars question.scale }
    ensures { IfOk result (λ assumed. assumed.items ≡ assumed_at code.now.coded question.entry.scale within) }
{
    let mut assumed = Vec::new(question.alloc);
    let guards = code.guards();
    assumed.extend_from_slice(guards)?;
    push_limit(question.scale, within, &mut assumed)?;
    Ok(assumed)
}

// Appends the literal for the bound, if there is one.
fn push_limit(scale: Scale, within: Option<u32>, into: &mut Vec<Lit>) -> Result<(), Memory>
    requires bound { IfSome within (MayBound scale) }
    requires within { IsWithinVars scale }
    ensures { OnOk result (into.new.items ≡ into.old.items ++ cost_limit scale within) }
{
    match within {
        None => Ok(()),
        Some(b) => {
            into.push(scale.bound_lit(b))?;
            Ok(())
        }
    }
}

// The run that the solver's assignment gives, with its total: that of the true inputs.
fn found_run<C: Fn(u32) -> u32, R: Fn(u32) -> u64>(
    question: CostQuestion<'_>,
    costs: &Costs<C>,
    parts: &Parts<R>,
) -> Result<Priced, Memory>
    requires cost { IsCost C.pre C.post costs.now.cost costs.now.net }
    requires net { costs.now.net ≡ question.net.now }
    requires belong { BelongTo question.net.now question.log.now parts.now }
    requires steps { parts.now.step.steps ≤ MOST_STEPS }
    requires values { parts.now.code.coded.vars ≤ parts.now.solver.vars }
    requires true_there { IsTrueRun parts.now.step parts.now.code.coded (value_in parts.now.solver.assignment) }
    ensures given { IfOk result (λ priced. (cost : ℕ → ℕ) → GivesCosts C.post costs.now.cost question.entry.net.now cost → IsPriced (asked_of question.entry.net.now cost question.entry.log.now parts.now) priced) }
    ensures total { IfOk result (λ priced. (cost : ℕ → ℕ) → GivesCosts C.post costs.now.cost question.entry.net.now cost → IsTotalOf cost parts.now priced.cost) }
{
    question.net.is_built();
    question.log.is_whole();
    let run = decode(
        question.alloc,
        parts.solver.assignment(),
        question.net,
        question.log,
        &parts.step,
        &parts.code,
    )?;
    let cost = run_cost(question.net, costs, run.steps());
    Ok(Priced { cost, run })
}
