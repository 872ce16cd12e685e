// The size of a whole question.
ghost use Rattle.std.specs.Prelude.{◌≡◌, ◌<◌, ◌≤◌, ◌^◌};
ghost use Rattle.des_base.specs.declared.TheConstants.{MOST_STEPS};
ghost use Rattle.replay.specs.QuestionSize.{question_size};

use crate::alarms::{alarm_sizes, doubtful_alarms};
use crate::events::{component_sizes, fault_events};
use des_base::MOST_COLUMNS;
use des_net::Network;
use log_order::AlarmLog;

/// The size of a question, known before any clause is written.
///
/// It bounds the work of writing the clauses and isn't their number. It looks at each event once for each component and
/// once for each alarm, and takes no memory.
pub fn question_size(net: &Network, log: &AlarmLog, n: u32) -> u64
    requires few { n ≤ MOST_STEPS }
    ensures size { result ≡ question_size net.now log.now n }
    ensures far { result < 2 ^ 60 }
{
    let steps = u64::from(n);
    let components = component_sizes(net);
    let alarms = alarm_sizes(net, log);
    let pairs = u64::from(log.pair_count());
    let counter = MOST_COLUMNS * steps * fault_events(net) + MOST_COLUMNS * doubtful_alarms(log);
    steps * (components + alarms + pairs) + counter
}
