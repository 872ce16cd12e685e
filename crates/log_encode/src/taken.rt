// The events that an alarm may stand for, with the ends of their chains.
ghost use Rattle.std.specs.Prelude.{◌≡◌, ◌<◌, ◌≤◌, ◌+◌, ◌*◌, length, All, IfOk, IfSome};
ghost use Rattle.log_encode.specs.AlarmVariables.{AreWithinLimit};
ghost use Rattle.log_encode.specs.Written.{rest_variable, taken_from, end_after, ends_after};

use crate::alarm_vars::AlarmVars;
use des_base::{EventId, Memory, Name, VAR_LIMIT};
use des_net::Network;
use prop_core::Grid;
use replay::LabelSet;
use std::alloc::Global;

// The end of the chain of an event that can be seen: the variable that says that it ends there, and the first of those by
// which its last alarm passes the event on. A chain without alarms has none, and there the event itself comes to the end.
#[derive(Clone, Copy)]
pub struct ChainEnd {
    pub event: EventId,
    pub closed: u32,
    pub last: Option<u32>,
}

// An event that a new alarm may stand for, with the end of its chain before.
#[derive(Clone, Copy)]
pub struct Taken {
    pub event: EventId,
    pub last: Option<u32>,
}

impl Taken {
    // The variable that says that the event comes to the end of its chain in the step after `step` steps.
    pub fn rest(&self, grid: Grid, step: u32) -> u32
        requires event { self.now.event < grid.events }
        requires step { step < grid.steps }
        requires few { grid.first + grid.events * grid.steps ≤ VAR_LIMIT }
        requires last { IfSome self.now.last (λ first. first + grid.steps * 2 ≤ VAR_LIMIT) }
        ensures variable { result ≡ rest_variable grid self.now.event self.now.last step }
        ensures small { result < VAR_LIMIT }
    {
        match self.last {
            None => grid.var(self.event.0, step + 1),
            Some(first) => first + step * 2,
        }
    }
}

// The ends of chains whose events have one of the labels.
pub fn taken_by(
    alloc: Global,
    net: &Network,
    ends: &[ChainEnd],
    labels: &[Name],
) -> Result<Vec<Taken>, Memory>
    requires known { All (λ end. end.event < length net.now.events) ends.now }
    ensures { IfOk result (λ takes. takes.items ≡ taken_from net.now labels.now ends.now) }
{
    let wanted = LabelSet::of(labels);
    let mut takes = Vec::new(alloc);
    for end in ends {
        if wanted.has_label_of(net, end.event) {
            takes.push(Taken {
                event: end.event,
                last: end.last,
            })?;
        }
    }
    Ok(takes)
}

// The end of a chain after a link.
fn end_after(vars: AlarmVars, link: u32, event: EventId) -> ChainEnd
    requires within { AreWithinLimit vars }
    requires link { link < vars.links }
    ensures { result ≡ end_after vars link event }
{
    ChainEnd {
        event,
        closed: vars.closed(link),
        last: Some(vars.first_passed(link)),
    }
}

// The ends of all chains, where those of the events that are taken get a link each.
pub fn ends_after(
    alloc: Global,
    ends: &[ChainEnd],
    vars: AlarmVars,
    takes: &[Taken],
) -> Result<Vec<ChainEnd>, Memory>
    requires within { AreWithinLimit vars }
    requires links { vars.links ≡ length takes.now }
    ensures { IfOk result (λ after. after.items ≡ ends_after vars 0 ends.now takes.now) }
{
    let mut after = Vec::new(alloc);
    let mut link = 0;
    for end in ends {
        if link < takes.len() && takes[link].event == end.event {
            after.push(end_after(vars, link as u32, end.event))?;
            link += 1;
        } else {
            after.push(*end)?;
        }
    }
    Ok(after)
}
