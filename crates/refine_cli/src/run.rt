// All that the program does, except for where its words, files and output come from.
ghost use Rattle.std.specs.Prelude.{◌≡◌, ◌≢◌, ⊤, length, IfOk, OnOk};
ghost use Rattle.des_base.specs.Outside.{Rose};
ghost use Rattle.endings.specs.Files.{loads};
ghost use Rattle.endings.specs.Puts.{Speaks};
ghost use Rattle.model_text.specs.PrintedModel.{model_text};
ghost use Rattle.model_text.specs.ReadBack.{IsAsRead, ReadsBack};
ghost use Rattle.telling.specs.Telling.{RisesExactlyIf};
ghost use Rattle.refine_cli.specs.Due.{IsDue, MayEnd, SaysRefined};
ghost use Rattle.refine_cli.specs.Rows.{RefinedRow, StopRows, LoadRow, outcome};

use des_base::{Memory, Shelf, Sink, WordList};
use des_net::Network;
use endings::{Kind, Reply, Stop, fetch_model, put_once};
use model_text::{models_read_back, print_model};
use refinement::{MOST_BYTES, RarelyChanged, refine};
use std::alloc::Global;

// The place of the model's name among the words, and so its number.
const MODEL: u32 = 1;

/// Puts the refined text of the model that the words name, and answers the exit status. The words are those of the command
/// line, the program's own name first.
///
/// A clause that speaks of what the shelf holds or of what the sink took holds wherever these tell it.
pub fn run<F: Shelf, S: Sink>(alloc: Global, words: &WordList, shelf: &mut F, out: &mut S) -> u8
    ensures refined { RefinedRow (outcome (loads F.held F.faults shelf.old shelf.new) words.now (S.taken out.old) (S.taken out.new) result) }
    ensures stops { StopRows (outcome (loads F.held F.faults shelf.old shelf.new) words.now (S.taken out.old) (S.taken out.new) result) }
    ensures load_failed { LoadRow (outcome (loads F.held F.faults shelf.old shelf.new) words.now (S.taken out.old) (S.taken out.new) result) }
    ensures speaks { Speaks (MayEnd (loads F.held F.faults shelf.old shelf.new) words.now) ⊤ (S.taken out.old) (S.taken out.new) (Rose (S.faults out.old) (S.faults out.new)) result }
    ensures left_alone { length words.now ≢ 2 → shelf.new ≡ shelf.old }
    ensures failures { RisesExactlyIf (result ≡ 4) (S.failures out.old) (S.failures out.new) }
{
    let ending = answer(alloc, words, shelf);
    put_once(alloc, ending, out)
}

// The reply over the model that the words name, or why there is none.
fn answer<F: Shelf>(alloc: Global, words: &WordList, shelf: &mut F) -> Result<Reply, Stop>
    ensures due { IsDue (loads F.held F.faults shelf.old shelf.new) words.now result }
    ensures left_alone { length words.now ≢ 2 → shelf.new ≡ shelf.old }
{
    if words.len() != 2 {
        return Err(Stop::Usage);
    }
    let net = fetch_model(alloc, words, shelf, MODEL)?;
    models_read_back();
    Ok(refined_reply(alloc, &net)?)
}

// The reply that has the text of a network that refines this one: of a finer one if there is one and its text isn't too long.
fn refined_reply(alloc: Global, net: &Network) -> Result<Reply, Memory>
    ensures { IfOk result (λ reply. IsAsRead net.now → SaysRefined net.now reply) }
{
    if let Some(fine) = refine(alloc, net, &RarelyChanged)? {
        let text = text_of(alloc, &fine)?;
        if text.len() <= MOST_BYTES {
            return Ok(Reply::new(Kind::Done, text));
        }
    }
    Ok(Reply::new(Kind::Done, text_of(alloc, net)?))
}

// The text of the network.
fn text_of(alloc: Global, net: &Network) -> Result<Vec<u8>, Memory>
    ensures text { IfOk result (λ text. text.items ≡ model_text net.now) }
    ensures again { OnOk result (IsAsRead net.now → ReadsBack net.now) }
{
    let mut text = Vec::new(alloc);
    print_model(net, &mut text)?;
    Ok(text)
}
