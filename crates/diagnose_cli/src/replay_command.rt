// The command `replay`: whether a run explains a log.
ghost use Rattle.std.specs.Prelude.{◌≡◌, ◌<◌, All, length, IfOk, refl};
ghost use Rattle.diagnose_cli.specs.Commands.{replay};
ghost use Rattle.diagnose_cli.specs.Replies.{kind_of_replayed, reply_of_replayed};
ghost use Rattle.log_order.specs.Adding.{names_of};
ghost use Rattle.replay.specs.Replayed.{IsReplayed, NamesKnown};
ghost use Rattle.replay.specs.Traced.{word_of};
ghost use Rattle.replay.specs.declared.replaying.Replayed.{Replayed};

use crate::answering::Answering;
use crate::command::steps_of;
use crate::reading::CaseRun;
use des_base::{Memory, WordList};
use endings::{Kind, Reply, Stop};
use inquiries::Case;
use log_order::AlarmLog;
use proof_ledger::Ledger;
use replay::{Replayed, Run, replay};
use report::print_replayed;
use std::alloc::Global;

/// Says whether a run explains a log within a number of parallel steps.
#[derive(Clone, Copy)]
pub struct ReplayCommand {
    pub steps: u32,
}

impl Answering for ReplayCommand {
    type Files = CaseRun;

    ghost named = { replay };

    ghost listed = { λ words. refl };

    ghost word = { λ s. s.steps };

    fn word_count() -> usize {
        5
    }

    fn read(words: &WordList) -> Option<ReplayCommand> {
        let steps = steps_of(words.word(4))?;
        Some(ReplayCommand { steps })
    }

    fn answer(
        &self,
        alloc: Global,
        _words: &WordList,
        files: &CaseRun,
        _book: &mut Ledger,
    ) -> Result<Reply, Stop> {
        Ok(replay_run(alloc, &files.case, &files.run, self.steps)?)
    }

    ghost has_files = { λ w. refl };

    ghost has_words = { refl };
}

// The reply to a run of events of the network.
fn replay_run(alloc: Global, case: &Case, run: &Run, steps: u32) -> Result<Reply, Memory>
    requires { All (λ e. e < length case.now.net.events) (word_of run.now) }
    ensures { IfOk result (λ reply. (replayed : Replayed) × IsReplayed case.now.net case.now.log run.now steps replayed × (reply ≡ reply_of_replayed (names_of case.now.log.alarms) replayed)) }
{
    let replayed = replay(alloc, &case.net, &case.log, run, steps)?;
    reply_of_replayed(alloc, &case.log, &replayed)
}

// The reply that tells the answer.
fn reply_of_replayed(alloc: Global, log: &AlarmLog, replayed: &Replayed) -> Result<Reply, Memory>
    requires { NamesKnown (length log.now.alarms) replayed.now }
    ensures { IfOk result (λ reply. reply ≡ reply_of_replayed (names_of log.now.alarms) replayed.now) }
{
    let mut text = Vec::new(alloc);
    print_replayed(replayed, log, &mut text)?;
    Ok(Reply::new(kind_of_replayed(replayed), text))
}

fn kind_of_replayed(replayed: &Replayed) -> Kind
    ensures { result ≡ kind_of_replayed replayed.now }
{
    match replayed {
        Replayed::Accepted { .. } => Kind::Done,
        Replayed::Stuck { .. }
        | Replayed::BadAlarm { .. }
        | Replayed::Missing { .. }
        | Replayed::Order { .. }
        | Replayed::TooWide { .. } => Kind::Rejected,
    }
}
