// One question about one fault event.
ghost use Rattle.std.specs.Prelude.{◌≡◌, ◌<◌, ◌≤◌, ◌↔◌, Contains, true, length, IfOk, OnErr};
ghost use Rattle.des_base.specs.declared.TheConstants.{MOST_STEPS};
ghost use Rattle.des_net.specs.Network.{is_fault};
ghost use Rattle.fault_verdicts.specs.Judged.{IsBestRun, IsJudged, IsVerdictOpenAtMost};
ghost use Rattle.fault_verdicts.specs.Judging.{AreAssumedOf, IsSolvedAbout, EndsWithoutVerdict, KeepsStepsAndLog, IsVerdictShown, has_this, verdict_of};
ghost use Rattle.fault_verdicts.specs.Ready.{AreReadyForVerdicts};
ghost use Rattle.sat_solve.specs.Leaving.{IsSearching, PutsNoFinal, AddsAxioms};
ghost use Rattle.least_faults.specs.Growing.{HasGrownWithin};
ghost use Rattle.least_faults.specs.Parts.{BelongTo};
ghost use Rattle.replay.specs.Traced.{event_of, word_of};
ghost use Rattle.replay.specs.declared.TheConstants.{MOST_FAULTS};

use crate::assuming::{assume_none, assume_some};
use answers::Verdict;
use des_base::{EventId, Memory};
use des_net::Network;
use least_faults::{Parts, Question};
use log_order::AlarmLog;
use proof_ledger::Ledger;
use prop_core::Lit;
use replay::{Run, RunStep};
use run_decode::decode;
use sat_solve::Answer;
use std::alloc::Global;

/// What all explanations with the least number of faults say of a fault event, by one question that may learn as many clauses
/// as the budget says.
///
/// A run with the least number of faults is known. If it has the event, the question is for one without it, and otherwise for one
/// with it. For the latter a variable is made, and the axiom added that gives the event in some step where it is true; for the
/// former none is. The book gets a mark 0 first, and a mark 1 before each answer but `Memory`; after that the next call is still
/// allowed.
pub fn verdict<R: Fn(u32) -> u64>(
    alloc: Global,
    net: &Network,
    log: &AlarmLog,
    parts: &mut Parts<R>,
    book: &mut Ledger,
    k: u32,
    first: &Run,
    event: EventId,
    budget: u64,
) -> Result<Verdict, Memory>
    requires belong { BelongTo net.now log.now parts.old }
    requires steps { parts.old.step.steps ≤ MOST_STEPS }
    requires ready { AreReadyForVerdicts R.pre R.post parts.old book.old.entries }
    requires few { k ≤ MOST_FAULTS }
    requires best { IsBestRun net.now log.now parts.old.step.steps k first.now }
    requires known { event < length net.now.events }
    requires fault { is_fault net.now event ≡ true }
    requires room { parts.old.vars ≤ 1000000000 }
    ensures ready { AreReadyForVerdicts R.pre R.post parts.new book.new.entries }
    ensures goes_on { KeepsStepsAndLog 1 parts.old parts.new }
    ensures unmade { Contains (word_of first.now) event → KeepsStepsAndLog 0 parts.old parts.new }
    ensures grown { HasGrownWithin budget book.old.entries book.new.entries }
    ensures judged { IfOk result (IsJudged net.now log.now parts.new.step.steps k event budget first.now book.old.entries book.new.entries) }
    ensures unanswered { OnErr result (IsVerdictOpenAtMost net.now log.now parts.new.step.steps k event budget first.now book.old.entries book.new.entries) }
{
    let question = Question { net, log, alloc };
    let mut left = budget;
    book.put_mark(0)?;
    let verdict = ask(question, parts, book, k, first.steps(), event, &mut left)?;
    book.put_mark(1)?;
    Ok(verdict)
}

// Asks for a best explanation that differs from the known one in this event.
fn ask<R: Fn(u32) -> u64>(
    question: Question<'_>,
    parts: &mut Parts<R>,
    book: &mut Ledger,
    k: u32,
    first: &[RunStep],
    event: EventId,
    left: &mut u64,
) -> Result<Verdict, Memory>
    requires belong { BelongTo question.net.now question.log.now parts.old }
    requires steps { parts.old.step.steps ≤ MOST_STEPS }
    requires ready { AreReadyForVerdicts R.pre R.post parts.old book.old.entries }
    requires few { k ≤ MOST_FAULTS }
    requires best { IsBestRun question.net.now question.log.now parts.old.step.steps k first.now }
    requires known { event < length question.net.now.events }
    requires fault { is_fault question.net.now event ≡ true }
    requires room { parts.old.vars ≤ 1000000000 }
    ensures ready { AreReadyForVerdicts R.pre R.post parts.new book.new.entries }
    ensures goes_on { KeepsStepsAndLog 1 parts.old parts.new }
    ensures unmade { Contains (word_of first.now) event → KeepsStepsAndLog 0 parts.old parts.new }
    ensures searching { IsSearching book.old.entries book.new.entries left.old left.new }
    ensures asked { IfOk result (IsVerdictShown question.entry.net.now question.entry.log.now parts.new.step.steps k event first.now left.old book.old.entries book.new.entries) }
    ensures quit { OnErr result (EndsWithoutVerdict question.entry.net.now question.entry.log.now parts.new.step.steps k event first.now book.old.entries book.new.entries) }
{
    question.net.is_built();
    question.log.is_whole();
    let there = has_event(first, event);
    let answer = solve(question, parts, book, k, there, event, left)?;
    book.is_valid();
    match answer {
        Answer::Unsat(_) => Ok(refuted(there)),
        Answer::Spent => Ok(Verdict::Open),
        Answer::Sat => Ok(Verdict::Possible(decode(
            question.alloc,
            parts.solver.assignment(),
            question.net,
            question.log,
            &parts.step,
            &parts.code,
        )?)),
    }
}

// Asks the solver, under what is assumed of the event.
fn solve<R: Fn(u32) -> u64>(
    question: Question<'_>,
    parts: &mut Parts<R>,
    book: &mut Ledger,
    k: u32,
    there: bool,
    event: EventId,
    left: &mut u64,
) -> Result<Answer, Memory>
    requires belong { BelongTo question.net.now question.log.now parts.old }
    requires ready { AreReadyForVerdicts R.pre R.post parts.old book.old.entries }
    requires few { k ≤ MOST_FAULTS }
    requires known { event < length question.net.now.events }
    requires fault { is_fault question.net.now event ≡ true }
    requires room { parts.old.vars ≤ 1000000000 }
    ensures ready { AreReadyForVerdicts R.pre R.post parts.new book.new.entries }
    ensures goes_on { KeepsStepsAndLog 1 parts.old parts.new }
    ensures unmade { there ≡ true → KeepsStepsAndLog 0 parts.old parts.new }
    ensures searching { IsSearching book.old.entries book.new.entries left.old left.new }
    ensures solved { IfOk result (IsSolvedAbout R.pre R.post parts.new k event there book.old.entries book.new.entries left.old left.new) }
    ensures quit { OnErr result (PutsNoFinal book.old.entries book.new.entries) }
{
    question.net.is_built();
    question.log.is_whole();
    let assumed = assume(question.alloc, parts, book, k, there, event)?;
    parts.solver.solve(book, assumed.as_slice(), left)
}

// What is assumed of the event: that it happens in no step if the known run has it, and otherwise a literal that makes it happen in some.
fn assume<R: Fn(u32) -> u64>(
    alloc: Global,
    parts: &mut Parts<R>,
    book: &mut Ledger,
    k: u32,
    there: bool,
    event: EventId,
) -> Result<Vec<Lit>, Memory>
    requires ready { AreReadyForVerdicts R.pre R.post parts.old book.old.entries }
    requires few { k ≤ MOST_FAULTS }
    requires known { event < length parts.old.step.net.events }
    requires fault { is_fault parts.old.step.net event ≡ true }
    requires room { parts.old.vars ≤ 1000000000 }
    ensures ready { AreReadyForVerdicts R.pre R.post parts.new book.new.entries }
    ensures goes_on { KeepsStepsAndLog 1 parts.old parts.new }
    ensures unmade { there ≡ true → KeepsStepsAndLog 0 parts.old parts.new }
    ensures axioms { AddsAxioms book.old.entries book.new.entries }
    ensures assumed { IfOk result (λ assumed. AreAssumedOf R.pre R.post parts.new book.new.entries k event there assumed.items) }
{
    if there {
        assume_none(alloc, parts, book, k, event)
    } else {
        assume_some(alloc, parts, book, k, event)
    }
}

// Whether the event is among those of the steps.
pub fn has_event(steps: &[RunStep], event: EventId) -> bool
    ensures { result ≡ true ↔ Contains (word_of steps.now) event }
{
    for step in steps {
        if is_of(step, event) {
            return true;
        }
    }
    false
}

// Whether the step has this event.
fn is_of(step: &RunStep, event: EventId) -> bool
    ensures { result ≡ has_this event (event_of step.now) }
{
    match step {
        RunStep::Happens { event: other, .. } => other.0 == event.0,
        RunStep::Dropped { .. } => false,
    }
}

// The verdict of a question that is refuted.
fn refuted(there: bool) -> Verdict
    ensures { result ≡ verdict_of there }
{
    if there {
        Verdict::Certain
    } else {
        Verdict::Excluded
    }
}
