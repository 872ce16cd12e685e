// The command `twin`: whether a run with a fault and a run without it look alike.
ghost use Rattle.std.specs.Prelude.{◌≡◌, ◌<◌, ◌≤◌, ℕ, List, [], length, IfOk, IfSome, refl};
ghost use Rattle.des_base.specs.CommandWords.{word_at};
ghost use Rattle.des_base.specs.declared.TheConstants.{MOST_STEPS};
ghost use Rattle.diagnose_cli.specs.Commands.{twin};
ghost use Rattle.diagnose_cli.specs.TwinReplies.{MayTest, SaysTwin, kind_of_twin, reply_of_twin};
ghost use Rattle.event_costs.specs.CostText.{fault_event_of};
ghost use Rattle.proof_ledger.specs.Book.{BookEntry};
ghost use Rattle.report.specs.Replies.{TwinEventsKnown};
ghost use Rattle.twin_test.specs.Tested.{IsTested, LeavesTwins};

use crate::answering::Answering;
use crate::command::{number_of, steps_of};
use des_base::{EventId, Memory, WordList};
use des_net::Network;
use endings::{Kind, Reply, Stop};
use event_costs::find_fault;
use indep::Indep;
use inquiries::{NetworkSearch, set_up};
use least_faults::MOST_SIZE;
use proof_ledger::Ledger;
use report::print_twin;
use sat_order::Order;
use sat_solve::Solver;
use std::alloc::Global;
use twin_test::{Twin, twin_size, twin_test};

/// Says whether a run with the fault event that the second word names, and a run without it, look alike: runs of at most this many
/// parallel steps, in how many of them at least something is seen after the fault, by a search that may learn as many clauses as the
/// budget says.
#[derive(Clone, Copy)]
pub struct TwinCommand {
    pub steps: u32,
    pub after: u32,
    pub budget: u64,
}

impl Answering for TwinCommand {
    type Files = Network;

    ghost named = { twin };

    ghost listed = { λ words. refl };

    ghost word = { λ s. s };

    ghost fits = { λ s. (s.steps ≤ MOST_STEPS) × (s.after ≤ MOST_STEPS) };

    fn word_count() -> usize {
        6
    }

    fn read(words: &WordList) -> Option<TwinCommand> {
        let steps = steps_of(words.word(3))?;
        let after = steps_of(words.word(4))?;
        let budget = number_of(words.word(5))?;
        Some(TwinCommand {
            steps,
            after,
            budget,
        })
    }

    fn answer(
        &self,
        alloc: Global,
        words: &WordList,
        files: &Network,
        book: &mut Ledger,
    ) -> Result<Reply, Stop> {
        let Some(fault) = named_fault(files, words) else {
            return Err(Stop::NoFault);
        };
        let size = twin_size(files, self.steps, self.after);
        if size > MOST_SIZE {
            return Err(Stop::Large(size));
        }
        Ok(reply_about(alloc, files, fault, *self, book)?)
    }

    ghost has_files = { λ w. refl };

    ghost has_words = { refl };
}

// The fault event that the second word behind the name spells.
fn named_fault(net: &Network, words: &WordList) -> Option<EventId>
    requires { 2 < length words.now }
    ensures event { result ≡ fault_event_of net.now (word_at words.now 2) }
    ensures known { IfSome result (λ fault. fault < length net.now.events) }
{
    find_fault(net, words.word(2).as_bytes())
}

// The reply to a twin question that is not too large.
#[tactic(auto, using(crate::proofs::TwinAnswers::twin_known))]
fn reply_about(
    alloc: Global,
    net: &Network,
    fault: EventId,
    limits: TwinCommand,
    book: &mut Ledger,
) -> Result<Reply, Memory>
    requires fault { fault < length net.now.events }
    requires steps { limits.steps ≤ MOST_STEPS }
    requires after { limits.after ≤ MOST_STEPS }
    requires empty { book.old.entries ≡ [] }
    ensures says { IfOk result (SaysTwin net.now fault limits.steps limits.after limits.budget book.new.entries) }
    ensures left { LeavesTwins net.now fault limits.steps limits.after limits.budget book.new.entries }
{
    let answer = test(alloc, net, fault, limits, book)?;
    tell(alloc, net, limits, &answer)
}

// The reply that gives the outcome of a test.
fn tell(alloc: Global, net: &Network, limits: TwinCommand, answer: &Twin) -> Result<Reply, Memory>
    requires steps { limits.steps ≤ MOST_STEPS }
    requires known { TwinEventsKnown net.now answer.now }
    ensures { (fault : ℕ) → (book : List BookEntry) → IsTested net.now fault limits.steps limits.after limits.budget book answer.now → IfOk result (SaysTwin net.now fault limits.steps limits.after limits.budget book) }
{
    net.is_built();
    reply_of_twin(alloc, net, limits.steps, answer)
}

// Makes the test.
fn test(
    alloc: Global,
    net: &Network,
    fault: EventId,
    limits: TwinCommand,
    book: &mut Ledger,
) -> Result<Twin, Memory>
    requires fault { fault < length net.now.events }
    requires steps { limits.steps ≤ MOST_STEPS }
    requires after { limits.after ≤ MOST_STEPS }
    requires empty { book.old.entries ≡ [] }
    ensures tested { IfOk result (IsTested net.now fault limits.steps limits.after limits.budget book.new.entries) }
    ensures left { LeavesTwins net.now fault limits.steps limits.after limits.budget book.new.entries }
{
    let test = TwinTest { net, fault, limits };
    set_up(alloc, net, limits.steps, &test, book, &mut ())?
}

// A test of a fault event.
#[derive(Clone, Copy)]
struct TwinTest<'a> {
    net: &'a Network,
    fault: EventId,
    limits: TwinCommand,
}

impl NetworkSearch<()> for TwinTest<'_> {
    type Answer = Result<Twin, Memory>;

    ghost about = { λ s. s.net.now };

    ghost may = { λ s. MayTest s.net.now s.fault s.limits.steps s.limits.after };

    ghost says = { λ s before now book answer. IfOk answer (IsTested s.net.now s.fault s.limits.steps s.limits.after s.limits.budget book) × LeavesTwins s.net.now s.fault s.limits.steps s.limits.after s.limits.budget book };

    fn begin<T: Fn(u32, u32) -> bool, R: Fn(u32) -> u64>(
        &self,
        alloc: Global,
        test: &Indep<T>,
        order: Order<R>,
        book: &mut Ledger,
        _out: &mut (),
    ) -> Result<Twin, Memory> {
        let solver = Solver::new(alloc, order);
        let TwinCommand {
            steps,
            after,
            budget,
        } = self.limits;
        twin_test(
            alloc, self.net, self.fault, steps, after, test, solver, book, budget,
        )
    }
}

// The reply that has the text of the answer.
fn reply_of_twin(alloc: Global, net: &Network, steps: u32, answer: &Twin) -> Result<Reply, Memory>
    requires { TwinEventsKnown net.now answer.now }
    ensures { IfOk result (λ reply. reply ≡ reply_of_twin net.now steps answer.now) }
{
    let mut text = Vec::new(alloc);
    print_twin(answer, net, steps, &mut text)?;
    Ok(Reply::new(kind_of_twin(answer), text))
}

fn kind_of_twin(answer: &Twin) -> Kind
    ensures { result ≡ kind_of_twin answer.now }
{
    match answer {
        Twin::Ambiguous { .. } => Kind::Ambiguous,
        Twin::Clear => Kind::Done,
        Twin::Undecided => Kind::Undecided,
    }
}
