// What is found of a log, and then the verdicts.
ghost use Rattle.std.specs.Prelude.{◌≡◌, ◌≤◌, IsErrOf};
ghost use Rattle.des_base.specs.Outside.{Rose};
ghost use Rattle.inquiries.specs.Begun.{HasAskedWithin, HasBegun, HasQuestion};
ghost use Rattle.least_faults.specs.declared.TheConstants.{MOST_SIZE};
ghost use Rattle.replay.specs.QuestionSize.{question_size};
ghost use Rattle.report.specs.Replies.{EventsKnown, text_of_found};
ghost use Rattle.verdict_telling.specs.Left.{BeginsWithQuestion, StandsInOrder, StaysReady};
ghost use Rattle.verdict_telling.specs.Whole.{HasJudged, PutsFound, TellsFound, TellsWhole};
ghost use Rattle.telling.specs.Telling.{RisesExactlyIf};

use crate::verdicts::tell_verdicts;
use des_base::{Memory, Sink};
use inquiries::{Case, find_least};
use least_faults::{Found, Parts};
use proof_ledger::Ledger;
use report::found_text;
use std::alloc::Global;
use telling::Broken;

/// What was told of a log.
#[derive(Clone, Copy)]
pub enum Told {
    /// The least number of faults, and a verdict on each fault event. Whether some event was left open.
    Judged(bool),
    /// That nothing explains the log.
    NotExplained,
    /// That all that explains it has more than `MOST_FAULTS` faults.
    TooMany,
    /// That the budget was spent.
    NotDecided,
}

/// Asks what explains the log with the fewest faults and puts the reply, and then, where a least number is found, judges all fault
/// events and puts the reply on each. Each question may learn as many clauses as the budget says.
pub fn tell_whole<R: Fn(u32) -> u64, S: Sink>(
    alloc: Global,
    case: &Case,
    steps: u32,
    budget: u64,
    parts: Parts<R>,
    book: &mut Ledger,
    out: &mut S,
) -> Result<Told, Broken>
    requires begun { HasBegun R.pre R.post case.now.net case.now.log parts book.old.entries }
    requires time { parts.step.steps ≡ steps }
    requires size { question_size case.now.net case.now.log steps ≤ MOST_SIZE }
    ensures tells { TellsWhole case.now.net case.now.log steps budget book.new.entries (S.taken out.old) (S.taken out.new) (Rose (S.faults out.old) (S.faults out.new)) result }
    ensures left { BeginsWithQuestion case.now.net case.now.log steps budget book.new.entries }
    ensures in_order { StandsInOrder case.now.net case.now.log steps budget book.new.entries }
    ensures failures { RisesExactlyIf (IsErrOf result Broken.Put) (S.failures out.old) (S.failures out.new) }
{
    // (The parts are dropped by a call: implicit drops at an exit are expensive to prove.)
    let mut parts = parts;
    match tell_found(alloc, case, steps, budget, &mut parts, book, out) {
        Ok(Found::Explained(best)) => {
            let told = tell_verdicts(alloc, &case.net, &case.log, &best, budget, parts, book, out);
            judged(told)
        }
        Ok(Found::Absent) => {
            drop(parts);
            Ok(Told::NotExplained)
        }
        Ok(Found::Many(_)) => {
            drop(parts);
            Ok(Told::TooMany)
        }
        Ok(Found::Undecided { .. }) => {
            drop(parts);
            Ok(Told::NotDecided)
        }
        Err(broken) => {
            drop(parts);
            Err(broken)
        }
    }
}

// What was told, if the verdicts were.
fn judged(told: Result<bool, Broken>) -> Result<Told, Broken>
    ensures { HasJudged told result }
{
    match told {
        Ok(open_left) => Ok(Told::Judged(open_left)),
        Err(broken) => Err(broken),
    }
}

// Asks what explains the log with the fewest faults, and puts the reply.
fn tell_found<R: Fn(u32) -> u64, S: Sink>(
    alloc: Global,
    case: &Case,
    steps: u32,
    budget: u64,
    parts: &mut Parts<R>,
    book: &mut Ledger,
    out: &mut S,
) -> Result<Found, Broken>
    requires begun { HasBegun R.pre R.post case.now.net case.now.log parts.old book.old.entries }
    requires time { parts.old.step.steps ≡ steps }
    requires size { question_size case.now.net case.now.log steps ≤ MOST_SIZE }
    ensures stays { StaysReady R.pre R.post parts.old parts.new book.new.entries }
    ensures left { HasQuestion case.now.net case.now.log steps (HasAskedWithin budget) book.new.entries }
    ensures tells { TellsFound case.now.net case.now.log steps budget book.new.entries (S.taken out.old) (S.taken out.new) (Rose (S.faults out.old) (S.faults out.new)) result }
    ensures never_falls { S.faults out.old ≤ S.faults out.new }
    ensures failures { RisesExactlyIf (IsErrOf result Broken.Put) (S.failures out.old) (S.failures out.new) }
{
    match find_least(alloc, case, parts, book, budget) {
        Ok(found) => put_found(alloc, case, steps, found, out),
        Err(Memory) => Err(Broken::Memory),
    }
}

// Puts the reply that tells what was found.
fn put_found<S: Sink>(
    alloc: Global,
    case: &Case,
    steps: u32,
    found: Found,
    out: &mut S,
) -> Result<Found, Broken>
    requires { EventsKnown case.now.net found }
    ensures puts { PutsFound (text_of_found case.now.net steps found) found (S.taken out.old) (S.taken out.new) (Rose (S.faults out.old) (S.faults out.new)) result }
    ensures never_falls { S.faults out.old ≤ S.faults out.new }
    ensures failures { RisesExactlyIf (IsErrOf result Broken.Put) (S.failures out.old) (S.failures out.new) }
{
    match found_text(alloc, &case.net, steps, &found) {
        Ok(text) => match out.put(text.as_slice()) {
            Ok(()) => Ok(found),
            Err(_) => Err(Broken::Put),
        },
        Err(Memory) => Err(Broken::Memory),
    }
}
