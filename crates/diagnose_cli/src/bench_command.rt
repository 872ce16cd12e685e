// The command `bench`: what is found of a generated plant, summed up.
ghost use Rattle.std.specs.Prelude.{◌≡◌, ◌≢◌, ◌≤◌, ◌==◌, ◌++◌, List, [], IfErr, IfOk, codes, length, refl};
ghost use Rattle.std.specs.List.{position_or_len};
ghost use Rattle.des_base.specs.declared.TheConstants.{MOST_STEPS};
ghost use Rattle.diagnose_cli.specs.Commands.{bench as bench_record};
ghost use Rattle.gen_plant.specs.Plant.{most_units};
ghost use Rattle.diagnose_cli.specs.Due.{EndsBySize};
ghost use Rattle.diagnose_cli.specs.Replies.{SaysSummary, first_line};
ghost use Rattle.endings.specs.Transcripts.{UnlessMemory};
ghost use Rattle.inquiries.specs.Begun.{HasAskedWithin, LeavesQuestion};
ghost use Rattle.replay.specs.QuestionSize.{question_size};
ghost use Rattle.telling.specs.Lines.{line_with_number};

use crate::answering::Answering;
use crate::asking::ask_by;
use crate::command::{Limits, limits_of, number_of, units_of};
use des_base::{Memory, WordList};
use endings::{Reply, Stop};
use gen_plant::generate;
use inquiries::{Case, LeastFaults};
use least_faults::MOST_SIZE;
use proof_ledger::Ledger;
use sizing::question_size;
use std::alloc::Global;

/// Finds the least number of faults of a generated plant within a number of parallel steps, and says how large the question is.
#[derive(Clone, Copy)]
pub struct BenchCommand {
    pub units: u32,
    pub start: u64,
    pub limits: Limits,
}

impl Answering for BenchCommand {
    type Files = ();

    ghost named = { bench_record };

    ghost listed = { λ words. refl };

    ghost word = { λ s. s };

    ghost fits = { λ s. (s.units ≤ most_units) × (s.limits.steps ≤ MOST_STEPS) };

    fn word_count() -> usize {
        5
    }

    fn read(words: &WordList) -> Option<BenchCommand> {
        let units = units_of(words.word(1))?;
        let start = number_of(words.word(2))?;
        let limits = limits_of(words.word(3), words.word(4))?;
        Some(BenchCommand {
            units,
            start,
            limits,
        })
    }

    fn answer(
        &self,
        alloc: Global,
        _words: &WordList,
        _files: &(),
        book: &mut Ledger,
    ) -> Result<Reply, Stop> {
        let plant = generate(alloc, self.units, self.start)?;
        let case = Case {
            net: plant.net,
            log: plant.log,
        };
        let answer = bench(alloc, self.units, &case, self.limits, book);
        drop(case);
        answer
    }

    ghost has_files = { λ w. refl };

    ghost has_words = { refl };
}

// What is found of a plant.
fn bench(
    alloc: Global,
    units: u32,
    case: &Case,
    limits: Limits,
    book: &mut Ledger,
) -> Result<Reply, Stop>
    requires steps { limits.steps ≤ MOST_STEPS }
    requires empty { book.old.entries ≡ [] }
    ensures ends { UnlessMemory result (EndsBySize (question_size case.now.net case.now.log limits.steps) (SaysSummary units case.now.net case.now.log limits.steps limits.budget book.new.entries) result) }
    ensures stopped { IfErr result (λ stop. stop ≢ Stop.Memory → book.new ≡ book.old) }
    ensures left { LeavesQuestion case.now.net case.now.log limits.steps (HasAskedWithin limits.budget) book.new.entries }
{
    let size = question_size(&case.net, &case.log, limits.steps);
    if size > MOST_SIZE {
        return Err(Stop::Large(size));
    }
    let inquiry = LeastFaults {
        budget: limits.budget,
    };
    let reply = ask_by(alloc, case, limits.steps, &inquiry, book)?;
    Ok(sum_up(alloc, units, case.log.alarms(), size, &reply)?)
}

// The summary of a reply.
fn sum_up(alloc: Global, units: u32, alarms: u32, size: u64, reply: &Reply) -> Result<Reply, Memory>
    ensures { IfOk result (λ summary. summary ≡ (reply.now.0, line_with_number (codes "units ") units ++ line_with_number (codes "alarms ") alarms ++ line_with_number (codes "size ") size ++ first_line reply.now.1)) }
{
    let head = format!(in alloc; "units {units}\nalarms {alarms}\nsize {size}\n")?;
    let mut text = head.into_bytes();
    text.extend_from_slice(first_line(reply.text()))?;
    Ok(Reply::new(reply.kind(), text))
}

// The text up to the end of its first line.
#[tactic(auto, using(std::proofs::lemmas::List::take_all))]
fn first_line(text: &[u8]) -> &[u8]
    ensures { result.now ≡ first_line text.now }
{
    let len = line_len(text);
    if len < text.len() {
        &text[..len + 1]
    } else {
        text
    }
}

// How many bytes stand before the first line feed, or all if there is none.
fn line_len(text: &[u8]) -> usize
    ensures line { result ≡ position_or_len (λ byte. byte == 10) text.now }
    ensures within { result ≤ length text.now }
{
    text.iter().take_while(|byte| **byte != b'\n').count()
}
