// Fault events that are judged one after another, over one book.
ghost use Rattle.std.specs.Prelude.{◌≡◌, ◌<◌, ◌≤◌, length, true, IfOk, OnErr};
ghost use Rattle.des_base.specs.declared.TheConstants.{MOST_STEPS};
ghost use Rattle.des_net.specs.Network.{is_fault};
ghost use Rattle.fault_verdicts.specs.Judged.{IsBestRun};
ghost use Rattle.fault_verdicts.specs.Judges.{IsEventJudged, IsLeftUnjudged, KeepsMatter};
ghost use Rattle.fault_verdicts.specs.Ready.{AreReadyForVerdicts};
ghost use Rattle.least_faults.specs.Growing.{HasGrownWithin};
ghost use Rattle.least_faults.specs.Parts.{BelongTo};
ghost use Rattle.replay.specs.declared.TheConstants.{MOST_FAULTS};

use crate::counted::advise;
use crate::kept::{About, Carried};
use crate::others::judge_kept;
use answers::Verdict;
use des_base::{EventId, Memory};
use des_net::Network;
use least_faults::{Best, Parts};
use log_order::AlarmLog;
use proof_ledger::Ledger;
use std::alloc::Global;
use std::marker::Model;

/// Judges fault events one after another, over one book, beside a best run that is known.
///
/// Each question goes on with what earlier ones learnt. A run that was found for an earlier event is kept: if it differs
/// from the known one in a later event too, that event is possible, and nothing is asked.
#[derive(Drop)]
pub struct Judge<'a, R> {
    about: About<'a>,
    kept: Carried<R>,
}

impl<'a, R> Model for Judge<'a, R> {
    ghost use Rattle.fault_verdicts.specs.Judges.{IsJudgeOf, JudgeState, matter_of};

    ghost Value = { JudgeState R };

    ghost view = { λ a. record { matter = matter_of a.about.net.now a.about.log.now a.about.best.now a.about.budget a.kept; parts = a.kept.parts; book = a.kept.book.entries } };

    ghost invariant = { λ a. IsJudgeOf a.about.net.now a.about.log.now a.about.best.now a.kept };
}

impl<'a, R: Fn(u32) -> u64> Judge<'a, R> {
    /// Begins beside a best run, over the parts of the question and their book. It advises the solver on the questions to come.
    pub fn new(
        alloc: Global,
        net: &'a Network,
        log: &'a AlarmLog,
        best: &'a Best,
        budget: u64,
        parts: Parts<R>,
        book: Ledger,
    ) -> Judge<'a, R>
        requires belong { BelongTo net.now log.now parts }
        requires steps { parts.step.steps ≤ MOST_STEPS }
        requires few { best.now.faults ≤ MOST_FAULTS }
        requires known { IsBestRun net.now log.now parts.step.steps best.now.faults best.now.run }
        ensures { result ≡ record { matter = record { net = net.now; log = log.now; steps = parts.step.steps; best = best.now; budget = budget }; parts = parts; book = book.entries } }
    {
        let mut parts = parts;
        // Out of memory it goes on without advice.
        let _ = advise(alloc, net, &mut parts, best.faults);
        let about = About {
            net,
            log,
            best,
            budget,
            alloc,
        };
        let kept = Carried {
            parts,
            book,
            others: Vec::new(alloc),
        };
        Judge { about, kept }
    }

    /// What all best explanations say of a fault event.
    ///
    /// If memory runs out, the book may have grown, and the next event may still be judged. A question makes at most one
    /// variable. More than 1,000,000,000 variables count as out of memory.
    pub fn judge(&mut self, event: EventId) -> Result<Verdict, Memory>
        requires ready { AreReadyForVerdicts R.pre R.post self.old.parts self.old.book }
        requires event { event < length self.old.matter.net.events }
        requires fault { is_fault self.old.matter.net event ≡ true }
        ensures ready { AreReadyForVerdicts R.pre R.post self.new.parts self.new.book }
        ensures kept { KeepsMatter self.old self.new }
        ensures grown { HasGrownWithin self.old.matter.budget self.old.book self.new.book }
        ensures judged { IfOk result (IsEventJudged self.old.matter event self.old.book self.new.book) }
        ensures unjudged { OnErr result (IsLeftUnjudged self.old.matter event self.old.book self.new.book) }
    {
        judge_kept(self.about, &mut self.kept, event)
    }

    /// The network.
    pub fn net(&self) -> &'a Network
        ensures { result.now ≡ self.now.matter.net }
    {
        self.about.net
    }

    /// The book as it stands. The parts that were kept beside it are those of what is judged.
    pub fn into_book(self) -> Ledger
        ensures book { result.entries ≡ self.entry.book }
        ensures belong { BelongTo self.entry.matter.net self.entry.matter.log self.entry.parts }
        ensures steps { self.entry.parts.step.steps ≡ self.entry.matter.steps }
    {
        let Judge { about: _, kept } = self;
        let Carried {
            parts,
            book,
            others,
        } = kept;
        drop(parts);
        drop(others);
        book
    }
}
