// The clauses that weigh the faults of a question, put into its book.
ghost use Rattle.std.specs.Prelude.{◌≡◌, ◌<◌, ◌≤◌, ◌+◌, ◌*◌, ◌++◌, ℕ, length, map, IfOk, OnErr, OnOk};
ghost use Rattle.std.specs.List.{AllByRecursion};
ghost use Rattle.des_base.specs.declared.TheConstants.{MOST_STEPS, VAR_LIMIT};
ghost use Rattle.event_costs.specs.StoredCosts.{IsCost};
ghost use Rattle.sat_solve.specs.Leaving.{AddsAxioms};
ghost use Rattle.least_faults.specs.Parts.{AreReady, BelongTo};
ghost use Rattle.least_faults.specs.declared.TheConstants.{MOST_SIZE};
ghost use Rattle.cost_least.specs.Costs.{cost_size};
ghost use Rattle.cost_least.specs.Searching.{AreAsked};
ghost use Rattle.cost_least.specs.Weighed.{AreWeighed, AreWeightedInputs, HasInputs, HasPushed, KeepsCode, event_weights, weighs_one};

use des_base::{EventId, Memory};
use des_net::Network;
use event_costs::{Costs, MOST_COST};
use least_faults::Parts;
use log_encode::LogCode;
use log_order::AlarmLog;
use proof_ledger::Ledger;
use prop_core::{Clauses, Grid, Lit};
use std::alloc::Global;
use step_encode::StepCode;
use weight_counter::{Scale, Weighted};

// How many amounts are distinguished: each total that is asked for, and one above.
const AMOUNTS: u32 = MOST_COST + 1;

/// Puts clauses into the book of a question that weigh its faults, each by its cost. The solver adopts them.
///
/// The scale is put into parts, book and solver whole or not at all.
pub fn weigh<C: Fn(u32) -> u32, R: Fn(u32) -> u64>(
    alloc: Global,
    net: &Network,
    log: &AlarmLog,
    parts: &mut Parts<R>,
    costs: &Costs<C>,
    book: &mut Ledger,
) -> Result<Scale, Memory>
    requires cost { IsCost C.pre C.post costs.now.cost costs.now.net }
    requires net { costs.now.net ≡ net.now }
    requires belong { BelongTo net.now log.now parts.old }
    requires steps { parts.old.step.steps ≤ MOST_STEPS }
    requires ready { AreReady R.pre R.post parts.old book.old.entries }
    requires size { cost_size net.now log.now parts.old.step.steps ≤ MOST_SIZE }
    ensures kept { KeepsCode parts.old parts.new }
    ensures axioms { AddsAxioms book.old.entries book.new.entries }
    ensures unweighed { OnErr result (book.new.entries ≡ book.old.entries) }
    ensures weighed { IfOk result (λ scale. AreAsked R.pre R.post C.post costs.now.cost net.now parts.new scale book.new.entries) }
{
    net.is_built();
    log.is_whole();
    let inputs = weighted_inputs(alloc, net, &parts.step, &parts.code, costs)?;
    write_scale(alloc, inputs.as_slice(), parts, book)
}

// Writes the scale, in room that is reserved first.
fn write_scale<R: Fn(u32) -> u64>(
    alloc: Global,
    inputs: &[Weighted],
    parts: &mut Parts<R>,
    book: &mut Ledger,
) -> Result<Scale, Memory>
    requires ready { AreReady R.pre R.post parts.old book.old.entries }
    requires room { parts.old.vars + length inputs.now * AMOUNTS ≤ VAR_LIMIT }
    requires below { AllByRecursion (λ x. x.input.var < parts.old.vars) inputs.now }
    ensures kept { KeepsCode parts.old parts.new }
    ensures axioms { AddsAxioms book.old.entries book.new.entries }
    ensures unweighed { OnErr result (book.new.entries ≡ book.old.entries) }
    ensures weighed { IfOk result (λ scale. (cost : ℕ → ℕ) → AreWeightedInputs parts.old.step parts.old.code.coded cost inputs.now → AreWeighed R.pre R.post cost parts.new scale book.new.entries) }
{
    let places = inputs.len() * AMOUNTS as usize;
    book.reserve(2 * places, 5 * places)?;
    parts
        .solver
        .reserve(parts.vars.count() + places as u32, 2 * places)?;
    let mut clauses = Clauses::new(alloc);
    let scale = Scale::new(inputs, AMOUNTS, &mut parts.vars, &mut clauses)?;
    book.push_axioms(&clauses);
    // (The book has them now, so the list leaves its room to the watches.)
    drop(clauses);
    parts.solver.adopt(book);
    Ok(scale)
}

// The inputs of the scale: the faults of the steps, each with its cost, and then that alarms are false.
fn weighted_inputs<C: Fn(u32) -> u32>(
    alloc: Global,
    net: &Network,
    step: &StepCode,
    code: &LogCode,
    costs: &Costs<C>,
) -> Result<Vec<Weighted>, Memory>
    requires cost { IsCost C.pre C.post costs.now.cost costs.now.net }
    requires net { costs.now.net ≡ net.now }
    requires of_step { step.now.net ≡ net.now }
    ensures { IfOk result (λ inputs. HasInputs C.post costs.now.cost net.now step.now code.now.coded inputs.items) }
{
    let mut inputs = Vec::new(alloc);
    push_faults(net, step.grid(), costs, &mut inputs)?;
    push_false(code.false_lits(), &mut inputs)?;
    Ok(inputs)
}

// Appends the fault events in all steps, each with its cost.
fn push_faults<C: Fn(u32) -> u32>(
    net: &Network,
    grid: Grid,
    costs: &Costs<C>,
    into: &mut Vec<Weighted>,
) -> Result<(), Memory>
    requires cost { IsCost C.pre C.post costs.now.cost costs.now.net }
    requires net { costs.now.net ≡ net.now }
    requires events { grid.events ≡ length net.now.events }
    requires few { grid.first + grid.events * grid.steps ≤ VAR_LIMIT }
    ensures { OnOk result (HasPushed C.post costs.now.cost net.now grid (length net.now.events) into.old.items into.new.items) }
{
    for number in 0..grid.events {
        if net.is_fault(EventId(number)) {
            push_steps(grid, number, costs.cost(EventId(number)), into)?;
        }
    }
    Ok(())
}

// Appends an event in all steps, with what it costs.
fn push_steps(grid: Grid, event: u32, cost: u32, into: &mut Vec<Weighted>) -> Result<(), Memory>
    requires event { event < grid.events }
    requires few { grid.first + grid.events * grid.steps ≤ VAR_LIMIT }
    ensures { OnOk result (into.new.items ≡ into.old.items ++ event_weights grid cost event) }
{
    for step in 0..grid.steps {
        into.push(Weighted {
            input: Lit::new(grid.var(event, step + 1), true),
            weight: cost,
        })?;
    }
    Ok(())
}

// Appends that alarms are false, each of which weighs 1.
fn push_false(false_lits: &[Lit], into: &mut Vec<Weighted>) -> Result<(), Memory>
    ensures { OnOk result (into.new.items ≡ into.old.items ++ map weighs_one false_lits.now) }
{
    for lit in false_lits {
        into.push(Weighted {
            input: *lit,
            weight: 1,
        })?;
    }
    Ok(())
}
