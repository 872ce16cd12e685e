// A session begins, and questions are asked of what it keeps.
ghost use Rattle.std.specs.Prelude.{◌≡◌, ◌≤◌, [], IfOk, OnErr};
ghost use Rattle.alarm_session.specs.Refusals.{large_refusal};
ghost use Rattle.alarm_session.specs.Session.{KeepsLog, IsAtFirstStage, IsRankedKept, IsToldBy, IsUnanswered, stage_of};
ghost use Rattle.des_base.specs.declared.TheConstants.{MOST_STEPS};
ghost use Rattle.des_base.specs.Refusing.{SucceedsUnless};
ghost use Rattle.indep.specs.StoredTest.{IsTest};
ghost use Rattle.log_order.specs.Log.{no_log};
ghost use Rattle.replay.specs.QuestionSize.{question_size};
ghost use Rattle.sat_order.specs.Rank.{IsRanked};

use crate::kept::{Kept, Setting};
use crate::refusal::SessionRefusal;
use des_base::Memory;
use indep::Indep;
use least_faults::{Found, MOST_SIZE, advise, build, least};
use log_order::AlarmLog;
use proof_ledger::Ledger;
use sat_order::Order;
use sat_solve::Solver;
use sizing::question_size;

// Begins with an empty log, over an empty book.
pub fn begin<T: Fn(u32, u32) -> bool, R: Fn(u32) -> u64>(
    setting: Setting<'_>,
    test: &Indep<T>,
    rank: Order<R>,
    book: Ledger,
) -> Result<Kept<R>, SessionRefusal>
    requires right { IsTest T.pre T.post test.now.test test.now.net }
    requires net { test.now.net ≡ setting.net.now }
    requires ranked { IsRanked R.pre R.post rank }
    requires no_variables { rank.waiting ≡ [] }
    requires steps { setting.steps ≤ MOST_STEPS }
    requires empty { book.entries ≡ [] }
    ensures refused { SucceedsUnless (large_refusal (question_size setting.entry.net.now no_log setting.entry.steps)) SessionRefusal.Memory result }
    ensures kept { IfOk result (IsRankedKept R.pre R.post setting.entry.net.now setting.entry.steps) }
    ensures begun { IfOk result (IsAtFirstStage setting.entry.net.now setting.entry.steps rank.rank) }
{
    // (What isn't kept is dropped by calls: implicit drops at an exit are expensive to prove.)
    let log = AlarmLog::new(setting.alloc);
    let size = question_size(setting.net, &log, setting.steps);
    if size > MOST_SIZE {
        drop(log);
        drop(rank);
        drop(book);
        return Err(SessionRefusal::TooLarge { size });
    }
    let solver = Solver::for_passing_assumptions(setting.alloc, rank);
    let mut book = book;
    match build(
        setting.alloc,
        setting.net,
        &log,
        setting.steps,
        test,
        solver,
        &mut book,
    ) {
        Ok(parts) => Ok(Kept {
            log,
            size,
            parts,
            book,
        }),
        Err(unbuilt) => {
            drop(unbuilt);
            drop(log);
            drop(book);
            Err(SessionRefusal::Memory)
        }
    }
}

// Asks what explains the log as it stands, with the fewest faults.
pub fn ask_kept<R: Fn(u32) -> u64>(
    setting: Setting<'_>,
    kept: &mut Kept<R>,
    budget: u64,
) -> Result<Found, Memory>
    requires kept { IsRankedKept R.pre R.post setting.net.now setting.steps kept.old }
    ensures kept { IsRankedKept R.pre R.post setting.entry.net.now setting.entry.steps kept.new }
    ensures rank { kept.new.parts.solver.order.rank ≡ kept.old.parts.solver.order.rank }
    ensures goes_on { KeepsLog budget (stage_of kept.old) (stage_of kept.new) }
    ensures told { IfOk result (IsToldBy setting.entry.net.now setting.entry.steps budget (stage_of kept.old) (stage_of kept.new)) }
    ensures unanswered { OnErr result (IsUnanswered setting.entry.net.now setting.entry.steps budget (stage_of kept.old) (stage_of kept.new)) }
{
    advise(setting.alloc, setting.net, &kept.log, &mut kept.parts)?;
    let found = least(
        setting.alloc,
        setting.net,
        &kept.log,
        &mut kept.parts,
        &mut kept.book,
        budget,
    )?;
    // The contract of `entries` says that the book is valid.
    kept.book.is_valid();
    Ok(found)
}
