// What alarms add to the size of a question.
ghost use Rattle.std.specs.Prelude.{◌≡◌, ◌<◌, ◌≤◌, ◌+◌, ◌*◌, ◌^◌, length};
ghost use Rattle.des_net.specs.Building.{IsDraft};
ghost use Rattle.des_net.specs.Limits.{most_events};
ghost use Rattle.log_order.specs.Adding.{IsLog};
ghost use Rattle.log_order.specs.declared.TheConstants.{MOST_ALARMS};
ghost use Rattle.log_order.specs.Log.{is_doubtful};
ghost use Rattle.replay.specs.QuestionSize.{matching_count, alarm_sizes, doubtful_count};

use des_base::EventId;
use des_net::Network;
use log_order::AlarmLog;
use replay::LabelSet;

/// For each alarm, the square of the events that it may stand for, and one.
#[tactic(auto, using(des_base::proofs::NumbersBelow::sum_numbers_more))]
pub fn alarm_sizes(net: &Network, log: &AlarmLog) -> u64
    requires whole { IsDraft net.now }
    ensures size { result ≡ alarm_sizes net.now log.now }
    ensures few { result ≤ MOST_ALARMS * (most_events ^ 2 + 1) }
    ensures log { IsLog log.now }
{
    let mut size = 0;
    for alarm in 0..log.alarms() {
        size += alarm_size(net, log, alarm);
    }
    size
}

fn alarm_size(net: &Network, log: &AlarmLog, alarm: u32) -> u64
    requires alarm { alarm < length log.now.alarms }
    requires whole { IsDraft net.now }
    ensures size { result ≡ matching_count net.now log.now alarm ^ 2 + 1 }
    ensures few { result ≤ most_events ^ 2 + 1 }
{
    let events = matching_events(net, log, alarm);
    events * events + 1
}

fn matching_events(net: &Network, log: &AlarmLog, alarm: u32) -> u64
    requires alarm { alarm < length log.now.alarms }
    ensures count { result ≡ matching_count net.now log.now alarm }
    ensures few { result ≤ length net.now.events }
{
    let wanted = LabelSet::of(log.labels(alarm));
    (0..net.events())
        .filter(|event| wanted.has_label_of(net, EventId(*event)))
        .count() as u64
}

/// How many alarms are doubtful.
pub fn doubtful_alarms(log: &AlarmLog) -> u64
    ensures count { result ≡ doubtful_count log.now }
    ensures few { result ≤ length log.now.alarms }
{
    (0..log.alarms())
        .filter(|alarm| is_doubtful(log, *alarm))
        .count() as u64
}

fn is_doubtful(log: &AlarmLog, alarm: u32) -> bool
    requires { alarm < length log.now.alarms }
    ensures { result ≡ is_doubtful log.now alarm }
{
    log.is_maybe(alarm)
}
