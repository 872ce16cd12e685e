// What is kept of an alarm whose clauses are written.
ghost use Rattle.std.specs.Prelude.{◌≡◌, ◌≤◌, length, map, option_map, slice_get, IfOk};
ghost use Rattle.log_encode.specs.Written.{link_of};

use crate::taken::Taken;
use des_base::{EventId, Memory, Name, VAR_LIMIT};
use std::alloc::Global;
use std::marker::Model;
use std::snapshot::Snapshot;

// An alarm of the log: its id, if it has one here, its labels, whether it is doubtful, the events that it may stand for, and its
// first variable. No code reads id and labels: they are noted for contracts, by values without bytes.
#[derive(Drop)]
pub struct AlarmCode {
    pub id: Option<Snapshot<Name>>,
    pub labels: Vec<Snapshot<Name>>,
    pub doubtful: bool,
    pub takes: Vec<Taken>,
    pub start: u32,
}

impl Model for AlarmCode {
    ghost use Rattle.std.specs.Prelude.{map};
    ghost use Rattle.log_encode.specs.AlarmState.{AlarmState};
    ghost use Rattle.log_encode.specs.NotedId.{noted_id};
    ghost use Rattle.log_order.specs.Log.{an_alarm};

    ghost Value = { AlarmState };

    ghost view = { λ a. record { noted = an_alarm (noted_id a.id) (map (λ noted. noted.value) a.labels.items) a.doubtful; takes = a.takes.items; start = a.start } };
}

impl AlarmCode {
    // The link of an event that the alarm may stand for.
    pub fn link_of(&self, event: EventId) -> Option<u32>
        requires { length self.now.takes ≤ VAR_LIMIT }
        ensures { result ≡ link_of self.now.takes event }
    {
        for (link, taken) in self.takes.iter().enumerate() {
            if taken.event == event {
                return Some(link as u32);
            }
        }
        None
    }

    // The event of a link, where there is one.
    pub fn event_of(&self, link: u32) -> Option<EventId>
        ensures { result ≡ option_map (λ taken. taken.event) (slice_get self.now.takes link) }
    {
        match self.takes.get(link as usize) {
            Some(taken) => Some(taken.event),
            None => None,
        }
    }
}

// The labels, as contracts see them.
pub fn noted_labels(alloc: Global, labels: &[Name]) -> Result<Vec<Snapshot<Name>>, Memory>
    ensures { IfOk result (λ noted. map (λ label. label.value) noted.items ≡ labels.now) }
{
    let mut noted = Vec::new(alloc);
    for label in labels {
        noted.push(Snapshot::of(label))?;
    }
    Ok(noted)
}
