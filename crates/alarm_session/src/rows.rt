// The rows of a script: what comes of each, and how it is carried out.
ghost use Rattle.std.specs.Prelude.{◌≡◌, IfOk, OnOk, OnErr};
ghost use Rattle.des_base.specs.Refusing.{SucceedsUnless};
ghost use Rattle.alarm_session.specs.Rows.{IsLeftUndone, IsRowTold, row_addition, row_refusal, told_by, with_row};
ghost use Rattle.alarm_session.specs.Session.{Becomes, IsRankedKept, stage_of};

use crate::adding::{put_alarm, put_before};
use crate::asking::ask_kept;
use crate::kept::{Kept, Setting};
use crate::refusal::SessionRefusal;
use crate::whole::is_session_book;
use des_base::Memory;
use least_faults::Found;
use log_csv::Row;
use log_order::Certainty;

/// What came of a row of a script.
#[derive(Drop)]
pub enum RowTold {
    /// The addition was made.
    Made,
    /// The addition was refused for this, which isn't `Memory`.
    Refused(SessionRefusal),
    /// This was found for the log so far.
    Answered(Found),
}

// Carries out a row of a script: adds what it says, or asks.
pub fn carry_out_kept<R: Fn(u32) -> u64>(
    setting: Setting<'_>,
    row: &Row,
    kept: &mut Kept<R>,
    budget: u64,
) -> Result<RowTold, Memory>
    requires kept { IsRankedKept R.pre R.post setting.net.now setting.steps kept.old }
    ensures kept { IsRankedKept R.pre R.post setting.entry.net.now setting.entry.steps kept.new }
    ensures rank { kept.new.parts.solver.order.rank ≡ kept.old.parts.solver.order.rank }
    ensures told { IfOk result (IsRowTold setting.entry.net.now setting.entry.steps budget (stage_of kept.old) row.now (stage_of kept.new)) }
    ensures undone { OnErr result (IsLeftUndone setting.entry.net.now setting.entry.steps budget (stage_of kept.old) row.now (stage_of kept.new)) }
{
    match row {
        Row::Ask => {
            let found = ask_kept(setting, kept, budget);
            is_session_book(setting, kept);
            Ok(RowTold::Answered(found?))
        }
        _ => {
            let answer = put_row(setting, row, kept);
            is_session_book(setting, kept);
            told_by(answer)
        }
    }
}

// Adds what a row says; a question adds nothing.
fn put_row<R: Fn(u32) -> u64>(
    setting: Setting<'_>,
    row: &Row,
    kept: &mut Kept<R>,
) -> Result<(), SessionRefusal>
    requires kept { IsRankedKept R.pre R.post setting.net.now setting.steps kept.old }
    ensures kept { IsRankedKept R.pre R.post setting.entry.net.now setting.entry.steps kept.new }
    ensures rank { kept.new.parts.solver.order.rank ≡ kept.old.parts.solver.order.rank }
    ensures refused { SucceedsUnless (row_refusal setting.entry.net.now setting.entry.steps kept.old.log row.now) SessionRefusal.Memory result }
    ensures added { OnOk result (Becomes setting.entry.net.now setting.entry.steps (with_row kept.old.log row.now) (row_addition kept.old.log row.now) (stage_of kept.old) (stage_of kept.new)) }
    ensures again { OnOk result (with_row kept.old.log row.now ≡ kept.old.log → stage_of kept.new ≡ stage_of kept.old) }
    ensures same { OnErr result (stage_of kept.new ≡ stage_of kept.old) }
{
    match row {
        Row::Alarm { id, labels } => {
            put_alarm(
                setting,
                id.copy()?,
                labels.as_slice(),
                Certainty::Certain,
                kept,
            )?;
            Ok(())
        }
        Row::Maybe { id, labels } => {
            put_alarm(
                setting,
                id.copy()?,
                labels.as_slice(),
                Certainty::Doubtful,
                kept,
            )?;
            Ok(())
        }
        Row::Before { first, second } => {
            put_before(setting, first, second, kept)?;
            Ok(())
        }
        Row::Ask => Ok(()),
    }
}

// What came of an addition: it was made or refused.
fn told_by(answer: Result<(), SessionRefusal>) -> Result<RowTold, Memory>
    ensures { result ≡ told_by answer }
{
    match answer {
        Ok(()) => Ok(RowTold::Made),
        Err(SessionRefusal::Memory) => Err(Memory),
        Err(refusal) => Ok(RowTold::Refused(refusal)),
    }
}
