// The text of the result of replaying a run.
ghost use Rattle.std.specs.Prelude.{◌≡◌, ◌<◌, ◌++◌, [], length, slice_index_or, OnErr, OnOk};
ghost use Rattle.log_order.specs.Adding.{names_of};
ghost use Rattle.replay.specs.Replayed.{NamesKnown};
ghost use Rattle.des_base.specs.Lists.{Extends};
ghost use Rattle.report.specs.Replies.{text_of_replayed};

use crate::pieces::{push_named, push_numbered, push_paired, whole_or_nothing};
use des_base::Memory;
use log_order::AlarmLog;
use replay::Replayed;

/// Appends the result of replaying a run against the log: `ACCEPTED` and the number of its faults, or `REJECTED` and what is wrong
/// with it first.
///
/// That is `STUCK` or `ALARM` and the place of an event, `MISSING` and the name of an alarm, `ORDER` and the names of two, or
/// `WIDE` and the least number of pieces.
pub fn print_replayed(replayed: &Replayed, log: &AlarmLog, out: &mut Vec<u8>) -> Result<(), Memory>
    requires { NamesKnown (length log.now.alarms) replayed.now }
    ensures ok { OnOk result (out.new.items ≡ out.old.items ++ text_of_replayed (names_of log.now.alarms) replayed.now) }
    ensures err { OnErr result (out.new.items ≡ out.old.items) }
{
    let before = out.len();
    let pushed = push_replayed(replayed, log, out);
    whole_or_nothing(pushed, before, out)
}

// The same, but if memory runs out some of it may be there.
fn push_replayed(replayed: &Replayed, log: &AlarmLog, out: &mut Vec<u8>) -> Result<(), Memory>
    requires { NamesKnown (length log.now.alarms) replayed.now }
    ensures ok { OnOk result (out.new.items ≡ out.old.items ++ text_of_replayed (names_of log.now.alarms) replayed.now) }
    ensures kept { Extends out.old.items out.new.items }
{
    match replayed {
        Replayed::Accepted { faults } => push_numbered("ACCEPTED ", u64::from(*faults), out),
        Replayed::Stuck { at } => push_numbered("REJECTED STUCK ", u64::from(*at), out),
        Replayed::BadAlarm { at } => push_numbered("REJECTED ALARM ", u64::from(*at), out),
        Replayed::Missing { alarm } => push_named("REJECTED MISSING ", name_of(log, *alarm), out),
        Replayed::Order { first, second } => {
            let second = name_of(log, *second);
            push_paired("REJECTED ORDER ", name_of(log, *first), second, out)
        }
        Replayed::TooWide { need } => push_numbered("REJECTED WIDE ", u64::from(*need), out),
    }
}

// The name of an alarm of the log.
fn name_of(log: &AlarmLog, alarm: u32) -> &str
    requires { alarm < length log.now.alarms }
    ensures { result.now ≡ slice_index_or (names_of log.now.alarms) alarm [] }
{
    log.id(alarm).as_str()
}
