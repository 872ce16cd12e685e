// All that the program does, except for where its words, files and output come from.
ghost use Rattle.std.specs.Prelude.{◌≡◌, ◌≤◌, [], IfSome};
ghost use Rattle.des_base.specs.CommandWords.{word_at};
ghost use Rattle.des_base.specs.Outside.{Rose};
ghost use Rattle.diagnose_cli.specs.Commands.{session};
ghost use Rattle.diagnose_cli.specs.Tasks.{AreWords, one, read_words};
ghost use Rattle.des_base.specs.declared.TheConstants.{MOST_STEPS};
ghost use Rattle.endings.specs.Files.{loads};
ghost use Rattle.diagnose_cli.specs.Outcomes.{outcome};
ghost use Rattle.diagnose_cli.specs.Rows.{TraceRow, ShowRow, ReplayRow, CheckRows, AskedRow, DiagnoseRows, GenerateRows, BenchRow, SessionRow, LeftRow};
ghost use Rattle.diagnose_cli.specs.CheapRows.{CheapRows};
ghost use Rattle.diagnose_cli.specs.TwinRows.{TwinRows};
ghost use Rattle.diagnose_cli.specs.VerdictRows.{VerdictRows};
ghost use Rattle.diagnose_cli.specs.Run.{CallsNone, LeavesAlone, Ran, Responds};
ghost use Rattle.telling.specs.Telling.{RisesExactlyIf};

use crate::answering::{Answering, answer_over, read_command};
use crate::asking::CommandQuestion;
use crate::bench_command::BenchCommand;
use crate::cheapest_command::CheapestCommand;
use crate::check_command::CheckCommand;
use crate::command::{Limits, limits_of};
use crate::generate_command::GenerateCommand;
use crate::replay_command::ReplayCommand;
use crate::session_command::SessionCommand;
use crate::show_command::ShowCommand;
use crate::speaking::{Speaking, speak};
use crate::trace_command::TraceCommand;
use crate::twin_command::TwinCommand;
use crate::verdicts_command::VerdictsCommand;
use des_base::{Shelf, Sink, WordList};
use endings::{Stop, put_once};
use inquiries::{FormulaWithin, LeastFaults, Refutation};
use proof_ledger::Ledger;
use std::alloc::Global;

/// Does what the words say, and answers the exit status.
///
/// A clause that speaks of what the shelf holds or of what the sink took holds wherever these tell it. The book gets the
/// axioms and the derivations of a question that is asked. What explains a log is as in Grastien et al., "Diagnosis of
/// discrete-event systems using satisfiability algorithms" (2007), with faults as in Sampath et al., "Diagnosability of
/// discrete-event systems" (1995).
pub fn run<F: Shelf, S: Sink>(
    alloc: Global,
    words: &WordList,
    shelf: &mut F,
    out: &mut S,
    book: &mut Ledger,
) -> u8
    requires { book.old.entries ≡ [] }
    ensures asked { AskedRow (outcome (loads F.held F.faults shelf.old shelf.new) words.now (S.taken out.old) (S.taken out.new) book.new.entries result) }
    ensures diagnosed { DiagnoseRows (outcome (loads F.held F.faults shelf.old shelf.new) words.now (S.taken out.old) (S.taken out.new) book.new.entries result) }
    ensures replayed { ReplayRow (outcome (loads F.held F.faults shelf.old shelf.new) words.now (S.taken out.old) (S.taken out.new) book.new.entries result) }
    ensures checked { CheckRows (outcome (loads F.held F.faults shelf.old shelf.new) words.now (S.taken out.old) (S.taken out.new) book.new.entries result) }
    ensures traced { TraceRow (outcome (loads F.held F.faults shelf.old shelf.new) words.now (S.taken out.old) (S.taken out.new) book.new.entries result) }
    ensures shown { ShowRow (outcome (loads F.held F.faults shelf.old shelf.new) words.now (S.taken out.old) (S.taken out.new) book.new.entries result) }
    ensures generated { GenerateRows (outcome (loads F.held F.faults shelf.old shelf.new) words.now (S.taken out.old) (S.taken out.new) book.new.entries result) }
    ensures benched { BenchRow (outcome (loads F.held F.faults shelf.old shelf.new) words.now (S.taken out.old) (S.taken out.new) book.new.entries result) }
    ensures carried_out { SessionRow (outcome (loads F.held F.faults shelf.old shelf.new) words.now (S.taken out.old) (S.taken out.new) book.new.entries result) }
    ensures twinned { TwinRows (outcome (loads F.held F.faults shelf.old shelf.new) words.now (S.taken out.old) (S.taken out.new) book.new.entries result) }
    ensures priced { CheapRows (outcome (loads F.held F.faults shelf.old shelf.new) words.now (S.taken out.old) (S.taken out.new) book.new.entries result) }
    ensures judged { VerdictRows (outcome (loads F.held F.faults shelf.old shelf.new) words.now (S.taken out.old) (S.taken out.new) book.new.entries result) }
    ensures ran { Ran (outcome (loads F.held F.faults shelf.old shelf.new) words.now (S.taken out.old) (S.taken out.new) book.new.entries result) (Rose (S.faults out.old) (S.faults out.new)) }
    ensures left_alone { LeavesAlone words.now result shelf.old shelf.new book.old book.new }
    ensures left { LeftRow (outcome (loads F.held F.faults shelf.old shelf.new) words.now (S.taken out.old) (S.taken out.new) book.new.entries result) }
    ensures failures { RisesExactlyIf (result ≡ 4) (S.failures out.old) (S.failures out.new) }
{
    respond(alloc, words, shelf, out, book)
}

// Runs the command that the first word names, and puts what it says.
fn respond<F: Shelf, S: Sink>(
    alloc: Global,
    words: &WordList,
    shelf: &mut F,
    out: &mut S,
    book: &mut Ledger,
) -> u8
    requires { book.old.entries ≡ [] }
    ensures { Responds (outcome (loads F.held F.faults shelf.old shelf.new) words.now (S.taken out.old) (S.taken out.new) book.new.entries result) (Rose (S.faults out.old) (S.faults out.new)) shelf.old shelf.new book.old book.new (S.failures out.old) (S.failures out.new) }
{
    if words.len() == 0 {
        return put_usage(alloc, words, shelf, out, book);
    }
    match words.word(0) {
        "trace" => put_reply::<TraceCommand, F, S>(alloc, words, shelf, out, book),
        "show" => put_reply::<ShowCommand, F, S>(alloc, words, shelf, out, book),
        "replay" => put_reply::<ReplayCommand, F, S>(alloc, words, shelf, out, book),
        "check" => put_reply::<CheckCommand, F, S>(alloc, words, shelf, out, book),
        "generate" => put_reply::<GenerateCommand, F, S>(alloc, words, shelf, out, book),
        "bench" => put_reply::<BenchCommand, F, S>(alloc, words, shelf, out, book),
        "twin" => put_reply::<TwinCommand, F, S>(alloc, words, shelf, out, book),
        "cheapest" => put_reply::<CheapestCommand, F, S>(alloc, words, shelf, out, book),
        "diagnose" => put_reply::<CommandQuestion<LeastFaults>, F, S>(
            alloc, words, shelf, out, book,
        ),
        "cnf" => put_reply::<CommandQuestion<FormulaWithin>, F, S>(alloc, words, shelf, out, book),
        "proof" => put_reply::<CommandQuestion<Refutation>, F, S>(alloc, words, shelf, out, book),
        "session" => put_replies::<SessionCommand, F, S>(alloc, words, shelf, out, book),
        "verdicts" => put_replies::<VerdictsCommand, F, S>(alloc, words, shelf, out, book),
        _ => put_usage(alloc, words, shelf, out, book),
    }
}

// Puts the usage: the words call no command.
fn put_usage<F: Shelf, S: Sink>(
    alloc: Global,
    _words: &WordList,
    _shelf: &mut F,
    out: &mut S,
    _book: &mut Ledger,
) -> u8
    requires none { CallsNone _words.now }
    requires empty { _book.old.entries ≡ [] }
    ensures { Responds (outcome (loads F.held F.faults _shelf.old _shelf.new) _words.now (S.taken out.old) (S.taken out.new) _book.new.entries result) (Rose (S.faults out.old) (S.faults out.new)) _shelf.old _shelf.new _book.old _book.new (S.failures out.old) (S.failures out.new) }
{
    put_once(alloc, Err(Stop::Usage), out)
}

// Runs a command with one reply, and puts that.
fn put_reply<C: Answering + Drop, F: Shelf, S: Sink>(
    alloc: Global,
    words: &WordList,
    shelf: &mut F,
    out: &mut S,
    book: &mut Ledger,
) -> u8
    requires name { word_at words.now 0 ≡ C.named.name }
    requires empty { book.old.entries ≡ [] }
    ensures { Responds (outcome (loads F.held F.faults shelf.old shelf.new) words.now (S.taken out.old) (S.taken out.new) book.new.entries result) (Rose (S.faults out.old) (S.faults out.new)) shelf.old shelf.new book.old book.new (S.failures out.old) (S.failures out.new) }
{
    match read_command::<C>(words) {
        Some(command) => put_answer(alloc, words, shelf, &command, out, book),
        None => put_usage(alloc, words, shelf, out, book),
    }
}

// Runs such a command, whose words have been read.
fn put_answer<C: Answering, F: Shelf, S: Sink>(
    alloc: Global,
    words: &WordList,
    shelf: &mut F,
    command: &C,
    out: &mut S,
    book: &mut Ledger,
) -> u8
    requires called { AreWords (one C.named) (C.word command.now) words.now }
    requires fits { C.fits command.now }
    requires empty { book.old.entries ≡ [] }
    ensures { Responds (outcome (loads F.held F.faults shelf.old shelf.new) words.now (S.taken out.old) (S.taken out.new) book.new.entries result) (Rose (S.faults out.old) (S.faults out.new)) shelf.old shelf.new book.old book.new (S.failures out.old) (S.failures out.new) }
{
    let ending = answer_over(alloc, words, shelf, command, book);
    put_once(alloc, ending, out)
}

// Runs a command with several replies, and puts each.
fn put_replies<C: Speaking, F: Shelf, S: Sink>(
    alloc: Global,
    words: &WordList,
    shelf: &mut F,
    out: &mut S,
    book: &mut Ledger,
) -> u8
    requires name { word_at words.now 0 ≡ C.name }
    requires empty { book.old.entries ≡ [] }
    ensures { Responds (outcome (loads F.held F.faults shelf.old shelf.new) words.now (S.taken out.old) (S.taken out.new) book.new.entries result) (Rose (S.faults out.old) (S.faults out.new)) shelf.old shelf.new book.old book.new (S.failures out.old) (S.failures out.new) }
{
    match read_limits(words) {
        Some(limits) => speak::<C, F, S>(alloc, words, shelf, limits, out, book),
        None => put_usage(alloc, words, shelf, out, book),
    }
}

// The steps and the budget that five words spell.
fn read_limits(words: &WordList) -> Option<Limits>
    ensures spelled { result ≡ read_words session words.now }
    ensures within { IfSome result (λ limits. limits.steps ≤ MOST_STEPS) }
{
    if words.len() == 5 {
        limits_of(words.word(3), words.word(4))
    } else {
        None
    }
}
