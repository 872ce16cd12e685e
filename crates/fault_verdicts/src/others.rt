// An event is judged by a run that was found before, or by a question.
ghost use Rattle.std.specs.Prelude.{◌≡◌, ◌<◌, Contains, length, true, IfOk, IfSome, OnErr};
ghost use Rattle.des_net.specs.Network.{is_fault};
ghost use Rattle.fault_verdicts.specs.Judged.{IsPossibleFound};
ghost use Rattle.fault_verdicts.specs.Judges.{AddsPossible, DiffersIn, IsEventJudged, IsJudgeOf, IsLeftUnjudged, IsReadyToJudge, matter_of};
ghost use Rattle.fault_verdicts.specs.Judging.{KeepsStepsAndLog};
ghost use Rattle.least_faults.specs.Growing.{HasGrownWithin};

use crate::judging::{has_event, verdict};
use crate::kept::{About, Carried};
use answers::Verdict;
use des_base::{EventId, Memory, Name};
use replay::{Run, RunStep};
use std::alloc::Global;

// The most variables with which a further event may be asked about.
const MOST_VARIABLES: u32 = 1_000_000_000;

// Judges an event: by a run that was found before, or by a question.
pub fn judge_kept<R: Fn(u32) -> u64>(
    about: About<'_>,
    kept: &mut Carried<R>,
    event: EventId,
) -> Result<Verdict, Memory>
    requires ready { IsReadyToJudge R.pre R.post about.net.now about.log.now about.best.now kept.old }
    requires known { event < length about.net.now.events }
    requires fault { is_fault about.net.now event ≡ true }
    ensures ready { IsReadyToJudge R.pre R.post about.entry.net.now about.entry.log.now about.entry.best.now kept.new }
    ensures goes_on { KeepsStepsAndLog 1 kept.old.parts kept.new.parts }
    ensures grown { HasGrownWithin about.entry.budget kept.old.book.entries kept.new.book.entries }
    ensures judged { IfOk result (IsEventJudged (matter_of about.entry.net.now about.entry.log.now about.entry.best.now about.entry.budget kept.old) event kept.old.book.entries kept.new.book.entries) }
    ensures unjudged { OnErr result (IsLeftUnjudged (matter_of about.entry.net.now about.entry.log.now about.entry.best.now about.entry.budget kept.old) event kept.old.book.entries kept.new.book.entries) }
{
    let witness = shown(about, kept, event)?;
    match witness {
        Some(other) => Ok(Verdict::Possible(other)),
        None => ask_kept(about, kept, event),
    }
}

// A best run that was found before and differs from the known one in this event, if there is one.
fn shown<R>(about: About<'_>, kept: &Carried<R>, event: EventId) -> Result<Option<Run>, Memory>
    requires { IsJudgeOf about.net.now about.log.now about.best.now kept.now }
    ensures { IfOk result (λ shown. IfSome shown (IsPossibleFound about.entry.net.now about.entry.log.now kept.now.parts.step.steps about.entry.best.now.faults event about.entry.best.now.run)) }
{
    match other_than(&about.best.run, kept.others.as_slice(), event) {
        Some(other) => Ok(Some(copy_of(about.alloc, other)?)),
        None => Ok(None),
    }
}

// The first of the others that differs from this run in the event.
fn other_than<'r>(first: &Run, others: &'r [Run], event: EventId) -> Option<&'r Run>
    ensures { IfSome result (λ other. Contains others.now other.now × DiffersIn event first.now other.now) }
{
    let known = first.steps();
    let there = has_event(known, event);
    for other in others {
        let found = other.steps();
        let here = has_event(found, event);
        if here != there {
            return Some(other);
        }
    }
    None
}

// Asks about the event, and keeps the run that is found.
fn ask_kept<R: Fn(u32) -> u64>(
    about: About<'_>,
    kept: &mut Carried<R>,
    event: EventId,
) -> Result<Verdict, Memory>
    requires ready { IsReadyToJudge R.pre R.post about.net.now about.log.now about.best.now kept.old }
    requires known { event < length about.net.now.events }
    requires fault { is_fault about.net.now event ≡ true }
    ensures ready { IsReadyToJudge R.pre R.post about.entry.net.now about.entry.log.now about.entry.best.now kept.new }
    ensures goes_on { KeepsStepsAndLog 1 kept.old.parts kept.new.parts }
    ensures grown { HasGrownWithin about.entry.budget kept.old.book.entries kept.new.book.entries }
    ensures judged { IfOk result (IsEventJudged (matter_of about.entry.net.now about.entry.log.now about.entry.best.now about.entry.budget kept.old) event kept.old.book.entries kept.new.book.entries) }
    ensures unjudged { OnErr result (IsLeftUnjudged (matter_of about.entry.net.now about.entry.log.now about.entry.best.now about.entry.budget kept.old) event kept.old.book.entries kept.new.book.entries) }
{
    if kept.parts.vars.count() > MOST_VARIABLES {
        return Err(Memory);
    }
    let found = verdict(
        about.alloc,
        about.net,
        about.log,
        &mut kept.parts,
        &mut kept.book,
        about.best.faults,
        &about.best.run,
        event,
        about.budget,
    )?;
    keep(about.alloc, &found, &mut kept.others)?;
    Ok(found)
}

// Keeps the run of a verdict that has one.
fn keep(alloc: Global, found: &Verdict, others: &mut Vec<Run>) -> Result<(), Memory>
    ensures { AddsPossible found.now others.old.items others.new.items }
{
    match found {
        Verdict::Possible(other) => {
            others.push(copy_of(alloc, other)?)?;
            Ok(())
        }
        _ => Ok(()),
    }
}

// A copy of a run.
fn copy_of(alloc: Global, run: &Run) -> Result<Run, Memory>
    ensures { IfOk result (λ copy. copy ≡ run.now) }
{
    let mut copy = Run::new(alloc);
    let steps = run.steps();
    for step in steps {
        copy.push(copy_of_step(step)?)?;
    }
    Ok(copy)
}

fn copy_of_step(step: &RunStep) -> Result<RunStep, Memory>
    ensures { IfOk result (λ copy. copy ≡ step.now) }
{
    match step {
        RunStep::Happens { event, alarm } => Ok(RunStep::Happens {
            event: *event,
            alarm: copy_of_name(alarm)?,
        }),
        RunStep::Dropped { alarm } => Ok(RunStep::Dropped {
            alarm: alarm.copy()?,
        }),
    }
}

fn copy_of_name(name: &Option<Name>) -> Result<Option<Name>, Memory>
    ensures { IfOk result (λ copy. copy ≡ name.now) }
{
    match name {
        Some(name) => Ok(Some(name.copy()?)),
        None => Ok(None),
    }
}
