// All fault events, judged and told in order.
ghost use Rattle.std.specs.Prelude.{◌≡◌, ◌≤◌, ◌*◌, false, length, IsErrOf};
ghost use Rattle.des_base.specs.Outside.{Rose};
ghost use Rattle.des_base.specs.declared.TheConstants.{MOST_STEPS};
ghost use Rattle.fault_verdicts.specs.Judged.{IsBestRun};
ghost use Rattle.fault_verdicts.specs.Ready.{AreReadyForVerdicts};
ghost use Rattle.inquiries.specs.Begun.{HasAskedWithin, HasQuestion};
ghost use Rattle.least_faults.specs.Growing.{HasGrownWithin};
ghost use Rattle.least_faults.specs.Parts.{BelongTo};
ghost use Rattle.step_encode.specs.FaultInputs.{fault_events};
ghost use Rattle.verdict_telling.specs.Left.{BeginsWithQuestion};
ghost use Rattle.verdict_telling.specs.Replied.{TellsVerdicts};
ghost use Rattle.verdict_telling.specs.Stages.{HasTold, TellsOfAll};
ghost use Rattle.telling.specs.Telling.{RisesExactlyIf};
ghost use Rattle.replay.specs.declared.TheConstants.{MOST_FAULTS};

use crate::teller::VerdictTeller;
use des_base::{Memory, Sink};
use des_net::Network;
use fault_verdicts::{Judge, fault_list};
use least_faults::{Best, Parts};
use log_order::AlarmLog;
use proof_ledger::Ledger;
use std::alloc::Global;
use std::mem;
use telling::{Broken, put_each};

/// Judges all fault events in order beside a best run that is known, and puts the reply on each before the next one is asked
/// about. It answers whether some event was left open. Each question may learn as many clauses as the budget says.
pub fn tell_verdicts<R: Fn(u32) -> u64, S: Sink>(
    alloc: Global,
    net: &Network,
    log: &AlarmLog,
    best: &Best,
    budget: u64,
    parts: Parts<R>,
    book: &mut Ledger,
    out: &mut S,
) -> Result<bool, Broken>
    requires belong { BelongTo net.now log.now parts }
    requires steps { parts.step.steps ≤ MOST_STEPS }
    requires few { best.now.faults ≤ MOST_FAULTS }
    requires known { IsBestRun net.now log.now parts.step.steps best.now.faults best.now.run }
    requires ready { AreReadyForVerdicts R.pre R.post parts book.old.entries }
    ensures tells { TellsVerdicts (record { net = net.now; log = log.now; steps = parts.step.steps; best = best.now; budget = budget }) book.old.entries book.new.entries (S.taken out.old) (S.taken out.new) (Rose (S.faults out.old) (S.faults out.new)) result }
    ensures left { HasQuestion net.now log.now parts.step.steps (HasAskedWithin budget) book.old.entries → BeginsWithQuestion net.now log.now parts.step.steps budget book.new.entries }
    ensures never_falls { S.faults out.old ≤ S.faults out.new }
    ensures failures { RisesExactlyIf (IsErrOf result Broken.Put) (S.failures out.old) (S.failures out.new) }
{
    let own = mem::replace(book, Ledger::new(alloc));
    let mut teller = VerdictTeller {
        judge: Judge::new(alloc, net, log, best, budget, parts, own),
        open_left: false,
    };
    let told = tell_all(alloc, net, &mut teller, out);
    let VerdictTeller { judge, open_left } = teller;
    *book = judge.into_book();
    book.is_valid();
    left_open(told, open_left)
}

// Whether some event was left open, where all were told.
fn left_open(told: Result<(), Broken>, open_left: bool) -> Result<bool, Broken>
    ensures { HasTold told open_left result }
{
    match told {
        Ok(()) => Ok(open_left),
        Err(broken) => Err(broken),
    }
}

// Tells of all fault events.
fn tell_all<R: Fn(u32) -> u64, S: Sink>(
    alloc: Global,
    net: &Network,
    teller: &mut VerdictTeller<'_, R>,
    out: &mut S,
) -> Result<(), Broken>
    requires net { teller.old.judge.matter.net ≡ net.now }
    requires none_left { teller.old.open_left ≡ false }
    requires ready { AreReadyForVerdicts R.pre R.post teller.old.judge.parts teller.old.judge.book }
    ensures tells { TellsOfAll teller.old teller.new (S.taken out.old) (S.taken out.new) (Rose (S.faults out.old) (S.faults out.new)) result }
    ensures ready { AreReadyForVerdicts R.pre R.post teller.new.judge.parts teller.new.judge.book }
    ensures stays { teller.new.judge.matter ≡ teller.old.judge.matter }
    ensures grown { HasGrownWithin (length (fault_events net.now) * teller.old.judge.matter.budget) teller.old.judge.book teller.new.judge.book }
    ensures never_falls { S.faults out.old ≤ S.faults out.new }
    ensures failures { RisesExactlyIf (IsErrOf result Broken.Put) (S.failures out.old) (S.failures out.new) }
{
    match fault_list(alloc, net) {
        Ok(events) => put_each(alloc, teller, events.as_slice(), out),
        Err(Memory) => Err(Broken::Memory),
    }
}
