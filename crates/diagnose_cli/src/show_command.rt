// The command `show`: a model in its plain form.
ghost use Rattle.std.specs.Prelude.{◌≡◌, IfOk, OnOk, refl};
ghost use Rattle.diagnose_cli.specs.Commands.{show};
ghost use Rattle.diagnose_cli.specs.Replies.{reply_of_model};
ghost use Rattle.model_text.specs.ReadBack.{IsAsRead, ReadsBack};

use crate::answering::Answering;
use des_base::{Memory, WordList};
use des_net::Network;
use endings::{Kind, Reply, Stop};
use model_text::print_model;
use proof_ledger::Ledger;
use std::alloc::Global;

/// Prints the network of a model in its plain form.
#[derive(Clone, Copy)]
pub struct ShowCommand;

impl Answering for ShowCommand {
    type Files = Network;

    ghost named = { show };

    ghost listed = { λ words. refl };

    ghost word = { λ s. tt };

    fn word_count() -> usize {
        2
    }

    fn read(_words: &WordList) -> Option<ShowCommand> {
        Some(ShowCommand)
    }

    fn answer(
        &self,
        alloc: Global,
        _words: &WordList,
        files: &Network,
        _book: &mut Ledger,
    ) -> Result<Reply, Stop> {
        Ok(reply_of_model(alloc, files)?)
    }

    ghost has_files = { λ w. refl };

    ghost has_words = { refl };
}

/// The reply that has the text of the network.
pub fn reply_of_model(alloc: Global, net: &Network) -> Result<Reply, Memory>
    ensures is { IfOk result (λ reply. reply ≡ reply_of_model net.now) }
    ensures again { OnOk result (IsAsRead net.now → ReadsBack net.now) }
{
    let mut text = Vec::new(alloc);
    print_model(net, &mut text)?;
    Ok(Reply::new(Kind::Done, text))
}
