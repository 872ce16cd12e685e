// Literals about an event: that it happens in no step, or in some.
ghost use Rattle.std.specs.Prelude.{◌≡◌, ◌+◌, ◌*◌, ◌<◌, ◌≤◌, ◌++◌, [], ◌∷◌, true, length, IfOk, OnErr, OnOk};
ghost use Rattle.des_net.specs.Network.{is_fault};
ghost use Rattle.fault_verdicts.specs.Asked.{some_step_clause};
ghost use Rattle.fault_verdicts.specs.Judging.{KeepsStepsAndLog, HasMade, event_signed};
ghost use Rattle.fault_verdicts.specs.Ready.{AreReadyForVerdicts};
ghost use Rattle.sat_solve.specs.Leaving.{AddsAxioms};
ghost use Rattle.proof_ledger.specs.Book.{axiomatic, clauses_of};
ghost use Rattle.prop_core.specs.Clauses.{HasValues};
ghost use Rattle.step_encode.specs.Coded.{code_grid};

use des_base::{EventId, Memory, VAR_LIMIT};
use least_faults::Parts;
use proof_ledger::Ledger;
use prop_core::{Grid, Lit};
use sat_solve::Solver;
use std::alloc::Global;

// Appends the literals of an event, step by step, all with this sign.
pub fn push_event(
    grid: &Grid,
    sign: bool,
    event: EventId,
    into: &mut Vec<Lit>,
) -> Result<(), Memory>
    requires event { event < grid.now.events }
    requires few { grid.now.first + grid.now.events * grid.now.steps ≤ VAR_LIMIT }
    ensures { OnOk result (into.new.items ≡ into.old.items ++ event_signed grid.now sign event) }
{
    for step in 0..grid.steps {
        into.push(Lit::new(grid.var(event.0, step + 1), sign))?;
    }
    Ok(())
}

// The clause of the next variable: if that is true, the event happens in some step.
fn some_step<R: Fn(u32) -> u64>(
    alloc: Global,
    parts: &Parts<R>,
    event: EventId,
) -> Result<Vec<Lit>, Memory>
    requires known { event < length parts.now.step.net.events }
    requires room { parts.now.vars ≤ 1000000000 }
    ensures { IfOk result (λ clause. clause.items ≡ some_step_clause (code_grid parts.now.step) (parts.now.vars, event)) }
{
    let mut clause = Vec::new(alloc);
    clause.push(Lit::new(parts.vars.count(), false))?;
    push_event(&parts.step.grid(), true, event, &mut clause)?;
    Ok(clause)
}

// Adds a clause as an axiom, which the solver adopts, in room that was reserved.
fn add_clause<R: Fn(u32) -> u64>(solver: &mut Solver<R>, book: &mut Ledger, clause: &[Lit])
    requires adopted { solver.old.adopted ≡ clauses_of book.old.entries }
    requires below { HasValues solver.old.vars clause.now }
    requires spare { 1 ≤ solver.old.spare }
    requires one { 1 ≤ book.old.spare_clauses }
    requires enough { length clause.now ≤ book.old.spare_literals }
    ensures added { book.new.entries ≡ book.old.entries ++ axiomatic clause.now ∷ [] }
    ensures adopted { solver.new.adopted ≡ clauses_of book.new.entries }
    ensures vars { solver.new.vars ≡ solver.old.vars }
    ensures order { solver.new.order ≡ solver.old.order }
{
    book.push_axiom(clause);
    solver.adopt(book);
}

// Makes a literal for the event, and adds the axiom that gives the event in some step if it holds.
pub fn in_some_step<R: Fn(u32) -> u64>(
    alloc: Global,
    parts: &mut Parts<R>,
    book: &mut Ledger,
    event: EventId,
) -> Result<Lit, Memory>
    requires ready { AreReadyForVerdicts R.pre R.post parts.old book.old.entries }
    requires known { event < length parts.old.step.net.events }
    requires fault { is_fault parts.old.step.net event ≡ true }
    requires room { parts.old.vars ≤ 1000000000 }
    ensures ready { OnErr result (AreReadyForVerdicts R.pre R.post parts.new book.new.entries) }
    ensures goes_on { KeepsStepsAndLog 1 parts.old parts.new }
    ensures axioms { AddsAxioms book.old.entries book.new.entries }
    ensures made { IfOk result (HasMade R.pre R.post parts.new book.new.entries event) }
{
    let clause = some_step(alloc, parts, event)?;
    book.reserve(1, clause.len())?;
    parts.solver.reserve(parts.vars.count() + 1, 1)?;
    let var = parts.vars.fresh(1);
    add_clause(&mut parts.solver, book, clause.as_slice());
    Ok(Lit::new(var, true))
}
