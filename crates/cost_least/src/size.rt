// How large a question of costs is.
ghost use Rattle.std.specs.Prelude.{◌≡◌, ◌≤◌};
ghost use Rattle.des_base.specs.declared.TheConstants.{MOST_STEPS};
ghost use Rattle.cost_least.specs.Costs.{cost_size};

use des_net::Network;
use event_costs::MOST_COST;
use log_order::AlarmLog;
use sizing::{doubtful_alarms, fault_events, question_size};

/// The size of a question of costs, known before any clause is written.
///
/// It is that of the question, and 1,000 for each fault event and step, and for each doubtful alarm. It takes no memory.
pub fn cost_size(net: &Network, log: &AlarmLog, n: u32) -> u64
    requires few { n ≤ MOST_STEPS }
    ensures size { result ≡ cost_size net.now log.now n }
{
    net.is_built();
    log.is_whole();
    let inputs = u64::from(n) * fault_events(net) + doubtful_alarms(log);
    question_size(net, log, n) + u64::from(MOST_COST) * inputs
}
