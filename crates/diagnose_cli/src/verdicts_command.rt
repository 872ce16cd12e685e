// The command `verdicts`: what explains a log with the fewest faults, and the verdict on each fault event.
ghost use Rattle.std.specs.Prelude.{[], ◌∷◌, codes, refl};
ghost use Rattle.diagnose_cli.specs.Commands.{verdicts_speech};
ghost use Rattle.diagnose_cli.specs.VerdictReplies.{kind_of_told};
ghost use Rattle.endings.specs.Texts.{log, model};
ghost use Rattle.replay.specs.QuestionSize.{question_size};

use crate::command::Limits;
use crate::speaking::Speaking;
use des_base::Sink;
use endings::Kind;
use inquiries::Case;
use proof_ledger::Ledger;
use sizing::question_size;
use std::alloc::Global;
use telling::Broken;
use verdict_telling::{Told, tell_case};

/// Tells what explains a log with the fewest faults, and then the verdict on each fault event. Each reply is put before the next
/// question is asked.
pub struct VerdictsCommand;

impl Speaking for VerdictsCommand {
    type Files = Case;

    type Told = Told;

    ghost name = { codes "verdicts" };

    ghost kinds = { model ∷ log ∷ [] };

    ghost speech = { verdicts_speech };

    ghost listed = { λ words. refl };

    ghost sized = { λ case limits. question_size case.net case.log limits.steps };

    ghost kind = { kind_of_told };

    fn size(_alloc: Global, files: &Case, limits: Limits) -> u64 {
        question_size(&files.net, &files.log, limits.steps)
    }

    fn kind_of(told: Told) -> Kind {
        match told {
            Told::Judged(true) => Kind::Undecided,
            Told::Judged(false) => Kind::Done,
            Told::NotExplained => Kind::Absent,
            Told::TooMany => Kind::Many,
            Told::NotDecided => Kind::Undecided,
        }
    }

    fn tell<S: Sink>(
        alloc: Global,
        files: Case,
        limits: Limits,
        out: &mut S,
        book: &mut Ledger,
    ) -> Result<Told, Broken> {
        let told = tell_case(alloc, &files, limits.steps, limits.budget, book, out);
        drop(files);
        told
    }

    ghost has_files = { refl };

    ghost has_words = { refl };

    ghost begun = { λ limits. refl };
}
