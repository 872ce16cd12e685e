// The command `generate`: the texts of a generated plant.
ghost use Rattle.std.specs.Prelude.{◌≡◌, ◌≤◌, IfOk, refl};
ghost use Rattle.gen_plant.specs.Plant.{most_units};
ghost use Rattle.diagnose_cli.specs.Commands.{PrintsPlant, generate as generate_record, plant_text_of};
ghost use Rattle.diagnose_cli.specs.Replies.{reply_of_log};

use crate::answering::Answering;
use crate::command::{number_of, units_of};
use crate::show_command::reply_of_model;
use des_base::{Memory, WordList};
use des_net::Network;
use endings::{Kind, Reply, Stop};
use gen_plant::generate;
use log_csv::print_log;
use log_order::AlarmLog;
use proof_ledger::Ledger;
use std::alloc::Global;

/// One of the two texts of a plant.
#[derive(Clone, Copy)]
pub enum PlantText {
    Model,
    Log,
}

/// Prints the model or the log of a generated plant.
#[derive(Clone, Copy)]
pub struct GenerateCommand {
    pub text: PlantText,
    pub units: u32,
    pub start: u64,
}

impl Answering for GenerateCommand {
    type Files = ();

    ghost named = { generate_record };

    ghost listed = { λ words. refl };

    ghost word = { λ s. s };

    ghost fits = { λ s. s.units ≤ most_units };

    fn word_count() -> usize {
        4
    }

    fn read(words: &WordList) -> Option<GenerateCommand> {
        let text = plant_text_of(words.word(1))?;
        let units = units_of(words.word(2))?;
        let start = number_of(words.word(3))?;
        Some(GenerateCommand { text, units, start })
    }

    fn answer(
        &self,
        alloc: Global,
        _words: &WordList,
        _files: &(),
        _book: &mut Ledger,
    ) -> Result<Reply, Stop> {
        let plant = generate(alloc, self.units, self.start)?;
        let reply = reply_of_plant(alloc, self.text, &plant.net, &plant.log);
        drop(plant);
        Ok(reply?)
    }

    ghost has_files = { λ w. refl };

    ghost has_words = { refl };
}

// The text that a word names.
fn plant_text_of(text: &str) -> Option<PlantText>
    ensures { result ≡ plant_text_of text.now }
{
    if text == "model" {
        Some(PlantText::Model)
    } else if text == "log" {
        Some(PlantText::Log)
    } else {
        None
    }
}

// The reply that has one of the texts.
fn reply_of_plant(
    alloc: Global,
    text: PlantText,
    net: &Network,
    log: &AlarmLog,
) -> Result<Reply, Memory>
    ensures { IfOk result (PrintsPlant text net.now log.now) }
{
    match text {
        PlantText::Model => reply_of_model(alloc, net),
        PlantText::Log => reply_of_log(alloc, log),
    }
}

// The reply that has the text of the log.
fn reply_of_log(alloc: Global, log: &AlarmLog) -> Result<Reply, Memory>
    ensures { IfOk result (λ reply. reply ≡ reply_of_log log.now) }
{
    let mut text = Vec::new(alloc);
    print_log(log, &mut text)?;
    Ok(Reply::new(Kind::Done, text))
}
