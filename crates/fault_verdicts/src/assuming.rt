// What is assumed of an event beside the guards and the bound.
ghost use Rattle.std.specs.Prelude.{◌≡◌, ℕ, ◌<◌, ◌≤◌, List, true, false, length, IfOk};
ghost use Rattle.des_net.specs.Network.{is_fault};
ghost use Rattle.fault_verdicts.specs.Judging.{AreAssumedOf, KeepsStepsAndLog, bound_for};
ghost use Rattle.fault_verdicts.specs.Ready.{AreReadyForVerdicts, AreReadyWith};
ghost use Rattle.least_faults.specs.Asking.{AreAssumptions};
ghost use Rattle.sat_solve.specs.Leaving.{AddsAxioms};
ghost use Rattle.replay.specs.declared.TheConstants.{MOST_FAULTS};

use crate::literals::{in_some_step, push_event};
use des_base::{EventId, Memory};
use least_faults::{Parts, bound};
use proof_ledger::Ledger;
use prop_core::Lit;
use std::alloc::Global;

// The guards, and, if there is something to count, the literal for at most k faults. The counter gets the columns that it lacks.
pub fn guards_within<R: Fn(u32) -> u64>(
    alloc: Global,
    parts: &mut Parts<R>,
    book: &mut Ledger,
    k: u32,
) -> Result<Vec<Lit>, Memory>
    requires ready { AreReadyForVerdicts R.pre R.post parts.old book.old.entries }
    requires few { k ≤ MOST_FAULTS }
    ensures ready { (made : List (ℕ × ℕ)) → AreReadyWith R.pre R.post parts.old book.old.entries made → AreReadyWith R.pre R.post parts.new book.new.entries made }
    ensures goes_on { KeepsStepsAndLog 0 parts.old parts.new }
    ensures axioms { AddsAxioms book.old.entries book.new.entries }
    ensures within { IfOk result (λ assumed. AreAssumptions parts.new.code.coded parts.new.counter (bound_for parts.new.counter k) assumed.items) }
{
    let mut assumed = Vec::new(alloc);
    assumed.extend_from_slice(parts.code.guards())?;
    if parts.counter.inputs() > 0 {
        assumed.push(bound(alloc, parts, book, k)?)?;
    }
    Ok(assumed)
}

// What is assumed if the known run has the event: that it happens in no step.
pub fn assume_none<R: Fn(u32) -> u64>(
    alloc: Global,
    parts: &mut Parts<R>,
    book: &mut Ledger,
    k: u32,
    event: EventId,
) -> Result<Vec<Lit>, Memory>
    requires ready { AreReadyForVerdicts R.pre R.post parts.old book.old.entries }
    requires few { k ≤ MOST_FAULTS }
    requires known { event < length parts.old.step.net.events }
    ensures ready { AreReadyForVerdicts R.pre R.post parts.new book.new.entries }
    ensures goes_on { KeepsStepsAndLog 0 parts.old parts.new }
    ensures axioms { AddsAxioms book.old.entries book.new.entries }
    ensures assumed { IfOk result (λ assumed. AreAssumedOf R.pre R.post parts.new book.new.entries k event true assumed.items) }
{
    let mut assumed = guards_within(alloc, parts, book, k)?;
    push_event(&parts.step.grid(), false, event, &mut assumed)?;
    Ok(assumed)
}

// What is assumed if it doesn't: a literal that gives the event in some step.
pub fn assume_some<R: Fn(u32) -> u64>(
    alloc: Global,
    parts: &mut Parts<R>,
    book: &mut Ledger,
    k: u32,
    event: EventId,
) -> Result<Vec<Lit>, Memory>
    requires ready { AreReadyForVerdicts R.pre R.post parts.old book.old.entries }
    requires few { k ≤ MOST_FAULTS }
    requires known { event < length parts.old.step.net.events }
    requires fault { is_fault parts.old.step.net event ≡ true }
    requires room { parts.old.vars ≤ 1000000000 }
    ensures ready { AreReadyForVerdicts R.pre R.post parts.new book.new.entries }
    ensures goes_on { KeepsStepsAndLog 1 parts.old parts.new }
    ensures axioms { AddsAxioms book.old.entries book.new.entries }
    ensures assumed { IfOk result (λ assumed. AreAssumedOf R.pre R.post parts.new book.new.entries k event false assumed.items) }
{
    let literal = in_some_step(alloc, parts, book, event)?;
    let mut assumed = guards_within(alloc, parts, book, k)?;
    assumed.push(literal)?;
    Ok(assumed)
}
