// The command `cheapest`: the least total cost of what explains a log.
ghost use Rattle.std.specs.Prelude.{◌≡◌, ◌≤◌, ℕ, List, [], length, IfOk, refl};
ghost use Rattle.des_base.specs.declared.TheConstants.{MOST_STEPS};
ghost use Rattle.diagnose_cli.specs.CheapReplies.{SaysCheap, kind_of_cheap, reply_of_cheap};
ghost use Rattle.diagnose_cli.specs.Commands.{cheapest};
ghost use Rattle.pricing.specs.LeastCost.{IsPricedBy, IsWithinCosts, LeavesCosts, fault_costs};
ghost use Rattle.proof_ledger.specs.Book.{BookEntry};
ghost use Rattle.report.specs.Replies.{CheapEventsKnown};

use crate::answering::Answering;
use crate::command::{Limits, limits_of};
use crate::reading::CostedCase;
use cost_least::{Cheap, cost_size};
use des_base::{Memory, WordList};
use des_net::Network;
use endings::{Kind, Reply, Stop};
use event_costs::CostTable;
use inquiries::{Case, pose};
use least_faults::MOST_SIZE;
use pricing::LeastCost;
use proof_ledger::Ledger;
use report::print_cheap;
use std::alloc::Global;

/// Finds the least total cost of what explains a log within a number of parallel steps.
#[derive(Clone, Copy)]
pub struct CheapestCommand {
    pub limits: Limits,
}

impl Answering for CheapestCommand {
    type Files = CostedCase;

    ghost named = { cheapest };

    ghost listed = { λ words. refl };

    ghost word = { λ s. s.limits };

    ghost fits = { λ s. s.limits.steps ≤ MOST_STEPS };

    fn word_count() -> usize {
        6
    }

    fn read(words: &WordList) -> Option<CheapestCommand> {
        let limits = limits_of(words.word(4), words.word(5))?;
        Some(CheapestCommand { limits })
    }

    fn answer(
        &self,
        alloc: Global,
        _words: &WordList,
        files: &CostedCase,
        book: &mut Ledger,
    ) -> Result<Reply, Stop> {
        let case = &files.case;
        let size = cost_size(&case.net, &case.log, self.limits.steps);
        if size > MOST_SIZE {
            return Err(Stop::Large(size));
        }
        Ok(reply_to_costs(alloc, case, &files.table, self.limits, book)?)
    }

    ghost has_files = { λ w. refl };

    ghost has_words = { refl };
}

// The reply to a question of costs that is not too large.
fn reply_to_costs(
    alloc: Global,
    case: &Case,
    table: &CostTable,
    limits: Limits,
    book: &mut Ledger,
) -> Result<Reply, Memory>
    requires long { length table.now ≡ length case.now.net.events }
    requires within { IsWithinCosts case.now.net case.now.log limits.steps }
    requires empty { book.old.entries ≡ [] }
    ensures says { IfOk result (SaysCheap case.now.net (fault_costs case.now.net table.now) case.now.log limits.steps limits.budget book.new.entries) }
    ensures left { LeavesCosts case.now.net (fault_costs case.now.net table.now) case.now.log limits.steps limits.budget book.new.entries }
{
    let inquiry = LeastCost {
        table,
        budget: limits.budget,
    };
    let cheap = pose(alloc, case, limits.steps, &inquiry, book)?;
    tell(alloc, case, limits.steps, &cheap)
}

// The reply that tells what is found, by whatever costs, budget and book.
fn tell(alloc: Global, case: &Case, steps: u32, cheap: &Cheap) -> Result<Reply, Memory>
    requires steps { steps ≤ MOST_STEPS }
    requires known { CheapEventsKnown case.now.net cheap.now }
    ensures { (cost : ℕ → ℕ) (budget : ℕ) (book : List BookEntry) → IsPricedBy case.now.net cost case.now.log steps budget book cheap.now → IfOk result (SaysCheap case.now.net cost case.now.log steps budget book) }
{
    case.net.is_built();
    case.log.is_whole();
    reply_of_cheap(alloc, &case.net, steps, cheap)
}

// The reply that has the text of the answer.
fn reply_of_cheap(alloc: Global, net: &Network, steps: u32, cheap: &Cheap) -> Result<Reply, Memory>
    requires { CheapEventsKnown net.now cheap.now }
    ensures { IfOk result (λ reply. reply ≡ reply_of_cheap net.now steps cheap.now) }
{
    let mut text = Vec::new(alloc);
    print_cheap(cheap, net, steps, &mut text)?;
    Ok(Reply::new(kind_of_cheap(cheap), text))
}

fn kind_of_cheap(cheap: &Cheap) -> Kind
    ensures { result ≡ kind_of_cheap cheap.now }
{
    match cheap {
        Cheap::Found(_) => Kind::Done,
        Cheap::Absent => Kind::Absent,
        Cheap::Dear(_) => Kind::Many,
        Cheap::Undecided { .. } => Kind::Undecided,
    }
}
