// The command `trace`: whether the network of a model can perform a run.
ghost use Rattle.std.specs.Prelude.{◌≡◌, ◌<◌, All, length, IfOk, refl};
ghost use Rattle.diagnose_cli.specs.Commands.{trace};
ghost use Rattle.diagnose_cli.specs.Replies.{kind_of_traced, reply_of_traced};
ghost use Rattle.replay.specs.Traced.{IsTraced, word_of};
ghost use Rattle.replay.specs.declared.tracing.Traced.{Traced};

use crate::answering::Answering;
use crate::reading::RunOver;
use des_base::{Memory, WordList};
use des_net::Network;
use endings::{Kind, Reply, Stop};
use proof_ledger::Ledger;
use replay::{Run, Traced, trace};
use report::print_traced;
use std::alloc::Global;

/// Says whether the network of a model can perform a run.
#[derive(Clone, Copy)]
pub struct TraceCommand;

impl Answering for TraceCommand {
    type Files = RunOver;

    ghost named = { trace };

    ghost listed = { λ words. refl };

    ghost word = { λ s. tt };

    fn word_count() -> usize {
        3
    }

    fn read(_words: &WordList) -> Option<TraceCommand> {
        Some(TraceCommand)
    }

    fn answer(
        &self,
        alloc: Global,
        _words: &WordList,
        files: &RunOver,
        _book: &mut Ledger,
    ) -> Result<Reply, Stop> {
        Ok(trace_run(alloc, &files.net, &files.run)?)
    }

    ghost has_files = { λ w. refl };

    ghost has_words = { refl };
}

// The reply to a run of events of the network.
fn trace_run(alloc: Global, net: &Network, run: &Run) -> Result<Reply, Memory>
    requires { All (λ e. e < length net.now.events) (word_of run.now) }
    ensures { IfOk result (λ reply. (traced : Traced) × IsTraced net.now run.now traced × (reply ≡ reply_of_traced traced)) }
{
    let traced = trace(alloc, net, run)?;
    reply_of_traced(alloc, &traced)
}

// The reply that tells the answer.
fn reply_of_traced(alloc: Global, traced: &Traced) -> Result<Reply, Memory>
    ensures { IfOk result (λ reply. reply ≡ reply_of_traced traced.now) }
{
    let mut text = Vec::new(alloc);
    print_traced(traced, &mut text)?;
    Ok(Reply::new(kind_of_traced(traced), text))
}

fn kind_of_traced(traced: &Traced) -> Kind
    ensures { result ≡ kind_of_traced traced.now }
{
    match traced {
        Traced::Ran { .. } => Kind::Done,
        Traced::Stuck { .. } => Kind::Rejected,
    }
}
