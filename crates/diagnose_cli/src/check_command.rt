// The command `check`: whether a proof refutes a formula.
ghost use Rattle.std.specs.Prelude.{◌≡◌, IfOk, refl};
ghost use Rattle.diagnose_cli.specs.Commands.{check};
ghost use Rattle.diagnose_cli.specs.Replies.{kind_of_checked, reply_of_checked};

use crate::answering::Answering;
use des_base::{Memory, WordList};
use endings::{Kind, Reply, Stop};
use proof_ledger::{Checked, Ledger};
use report::print_checked;
use std::alloc::Global;

/// Says whether a proof refutes a formula.
#[derive(Clone, Copy)]
pub struct CheckCommand;

impl Answering for CheckCommand {
    type Files = Checked;

    ghost named = { check };

    ghost listed = { λ words. refl };

    ghost word = { λ s. tt };

    fn word_count() -> usize {
        3
    }

    fn read(_words: &WordList) -> Option<CheckCommand> {
        Some(CheckCommand)
    }

    fn answer(
        &self,
        alloc: Global,
        _words: &WordList,
        files: &Checked,
        _book: &mut Ledger,
    ) -> Result<Reply, Stop> {
        Ok(reply_of_checked(alloc, files)?)
    }

    ghost has_files = { λ w. refl };

    ghost has_words = { refl };
}

// The reply to a proof of this outcome.
fn reply_of_checked(alloc: Global, checked: &Checked) -> Result<Reply, Memory>
    ensures { IfOk result (λ reply. reply ≡ reply_of_checked checked.now) }
{
    let mut text = Vec::new(alloc);
    print_checked(checked, &mut text)?;
    Ok(Reply::new(kind_of_checked(checked), text))
}

fn kind_of_checked(checked: &Checked) -> Kind
    ensures { result ≡ kind_of_checked checked.now }
{
    match checked {
        Checked::Verified => Kind::Done,
        Checked::Rejected { .. } => Kind::Rejected,
    }
}
