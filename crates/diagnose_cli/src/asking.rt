// A question about a model and a log: its words, its files, its size, what is asked of it, and the reply.
ghost use Rattle.std.specs.Prelude.{◌≡◌, ◌≤◌, ℕ, List, [], option_map, IfOk, refl};
ghost use Rattle.des_base.specs.declared.TheConstants.{MOST_STEPS};
ghost use Rattle.diagnose_cli.specs.Questions.{AnswersTo, NamedQuestion};
ghost use Rattle.diagnose_cli.specs.Commands.{IsInList, asking};
ghost use Rattle.diagnose_cli.specs.Tasks.{one};
ghost use Rattle.des_net.specs.Network.{Net};
ghost use Rattle.inquiries.specs.Begun.{HasQuestion, LeavesQuestion, MayLearn};
ghost use Rattle.least_faults.specs.Parts.{IsWithinLimits};
ghost use Rattle.log_order.specs.Log.{Log};
ghost use Rattle.proof_ledger.specs.Book.{BookEntry};

use crate::answering::Answering;
use crate::command::steps_of;
use des_base::{Memory, WordList};
use endings::{Reply, Stop};
use inquiries::{Case, Inquiry, pose};
use least_faults::MOST_SIZE;
use proof_ledger::Ledger;
use sizing::question_size;
use std::alloc::Global;

/// An inquiry that answers a question about a model and a log: which one it is (`question`), that it is listed whatever its last word
/// (`listed`), and what that word spells (`word`).
pub trait Replying: Inquiry {
    ghost question: { NamedQuestion };

    ghost listed: { (words : List (List ℕ)) → IsInList (one (asking question)) words };

    ghost word: { Self → question.Word };

    /// The inquiry that the last word of the question asks for.
    fn read(last: &str) -> Option<Self>
        ensures { option_map word result ≡ question.spelled last.now };

    /// The reply that tells the answer.
    fn reply(
        &self,
        alloc: Global,
        case: &Case,
        steps: u32,
        answer: Self::Answer,
    ) -> Result<Reply, Memory>
        requires steps { steps ≤ MOST_STEPS }
        requires answers { ((book : List BookEntry) × Self.says self.now case.now.net case.now.log steps book answer) }
        ensures { (book : List BookEntry) → Self.says self.now case.now.net case.now.log steps book answer → IfOk result (AnswersTo question (word self.now) case.now.net case.now.log steps book) };

    ghost may_always: { (s : Self) (net : Net) (log : Log) (n : ℕ) → IsWithinLimits net log n → Self.may s net log n };

    ghost leaves_question: { (s : Self) (net : Net) (log : Log) (n : ℕ) (book : List BookEntry) → Self.leaves s net log n book → HasQuestion net log n (MayLearn (question.budget (word s))) book };
}

/// A question by an inquiry, within this many parallel steps.
#[derive(Drop)]
pub struct CommandQuestion<Q> {
    steps: u32,
    inquiry: Q,
}

impl<Q: Replying> Answering for CommandQuestion<Q> {
    type Files = Case;

    ghost named = { asking Q.question };

    ghost listed = { Q.listed };

    ghost word = { λ s. (s.steps, Q.word s.inquiry) };

    ghost fits = { λ s. s.steps ≤ MOST_STEPS };

    fn word_count() -> usize {
        5
    }

    fn read(words: &WordList) -> Option<CommandQuestion<Q>> {
        let steps = steps_of(words.word(3))?;
        let inquiry = Q::read(words.word(4))?;
        Some(CommandQuestion { steps, inquiry })
    }

    fn answer(
        &self,
        alloc: Global,
        _words: &WordList,
        files: &Case,
        book: &mut Ledger,
    ) -> Result<Reply, Stop> {
        let size = question_size(&files.net, &files.log, self.steps);
        if size > MOST_SIZE {
            return Err(Stop::Large(size));
        }
        Ok(ask_by(alloc, files, self.steps, &self.inquiry, book)?)
    }

    ghost has_files = { λ w. refl };

    ghost has_words = { refl };
}

/// The reply by an inquiry about a question that is not too large.
pub fn ask_by<Q: Replying>(
    alloc: Global,
    case: &Case,
    steps: u32,
    inquiry: &Q,
    book: &mut Ledger,
) -> Result<Reply, Memory>
    requires limits { IsWithinLimits case.now.net case.now.log steps }
    requires empty { book.old.entries ≡ [] }
    ensures replies { IfOk result (AnswersTo Q.question (Q.word inquiry.now) case.now.net case.now.log steps book.new.entries) }
    ensures left { LeavesQuestion case.now.net case.now.log steps (MayLearn (Q.question.budget (Q.word inquiry.now))) book.new.entries }
{
    let answer = pose(alloc, case, steps, inquiry, book)?;
    inquiry.reply(alloc, case, steps, answer)
}
