// The end of a coded log, where an alarm is drafted.
ghost use Rattle.std.specs.Prelude.{◌≡◌, ◌<◌, length, All, IfOk};
ghost use Rattle.question_clauses.specs.Additions.{alarm_added};
ghost use Rattle.log_encode.specs.AlarmVariables.{AreWithinLimit};
ghost use Rattle.log_encode.specs.Drafted.{IsDraftOf};
ghost use Rattle.log_encode.specs.LogEnds.{CanDraft, BringsAlarm};
ghost use Rattle.log_encode.specs.NotedId.{noted_id};
ghost use Rattle.log_order.specs.Log.{an_alarm};

use crate::alarm_code::{AlarmCode, noted_labels};
use crate::alarm_vars::AlarmVars;
use crate::chains::guards_of;
use crate::draft::{Change, Draft};
use crate::log_code::LogCode;
use crate::taken::{ChainEnd, Taken, ends_after, taken_by};
use crate::writing::{dropped_after, write_alarm};
use des_base::{Memory, Name, VAR_LIMIT};
use des_net::Network;
use prop_core::{Clauses, Grid, Lit};
use std::alloc::Global;
use std::snapshot::Snapshot;

// Where an alarm is added to a code: its network and the grid of its events, the variable that asks for the log, the ends of all
// chains, and what says that alarms are false.
#[derive(Clone, Copy)]
pub struct LogEnd<'a> {
    pub alloc: Global,
    pub net: &'a Network,
    pub grid: Grid,
    pub asked: u32,
    pub ends: &'a [ChainEnd],
    pub dropped: &'a [Lit],
}

// Drafts an alarm with this id, if there is one, and these labels at the end of the code.
pub fn draft_at(
    code: &LogCode,
    end: LogEnd<'_>,
    id: Option<Snapshot<Name>>,
    labels: &[Name],
    maybe: bool,
    first_var: u32,
) -> Result<Draft, Memory>
    requires { CanDraft code.now.coded end (an_alarm (noted_id id) labels.now maybe) first_var }
    ensures { IfOk result (IsDraftOf code.now.coded (alarm_added (an_alarm (noted_id id) labels.now maybe)) first_var) }
{
    let takes = taken_by(end.alloc, end.net, end.ends, labels)?;
    let vars = AlarmVars::new(first_var, takes.len(), end.grid.steps, maybe);
    let mut clauses = Clauses::new(end.alloc);
    write_alarm(
        end.alloc,
        end.grid,
        end.asked,
        vars,
        takes.as_slice(),
        &mut clauses,
    )?;
    let change = alarm_change(end, id, labels, takes, vars)?;
    Ok(Draft {
        code: Snapshot::of(code),
        change,
        first: first_var,
        vars: vars.count(),
        clauses,
    })
}

// What an alarm with this id, these labels and these variables brings that may stand for these events, with what then stands
// beside the code.
fn alarm_change(
    end: LogEnd<'_>,
    id: Option<Snapshot<Name>>,
    labels: &[Name],
    takes: Vec<Taken>,
    vars: AlarmVars,
) -> Result<Change, Memory>
    requires within { AreWithinLimit vars }
    requires links { vars.links ≡ length takes.items }
    requires asked { end.asked < VAR_LIMIT }
    requires closed { All (λ known. known.closed < VAR_LIMIT) end.ends.now }
    ensures { IfOk result (BringsAlarm end.entry (noted_id id) labels.now takes.items vars) }
{
    let ends = ends_after(end.alloc, end.ends, vars, takes.as_slice())?;
    let guards = guards_of(end.alloc, end.asked, ends.as_slice())?;
    let dropped = dropped_after(end.alloc, end.dropped, vars)?;
    let labels = noted_labels(end.alloc, labels)?;
    Ok(Change::Alarm {
        alarm: AlarmCode {
            id,
            labels,
            doubtful: vars.doubtful,
            takes,
            start: vars.start,
        },
        ends,
        guards,
        dropped,
    })
}
