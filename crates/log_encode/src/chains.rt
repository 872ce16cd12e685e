// The ends of the chains of the events that can be seen, and the guards.
ghost use Rattle.std.specs.Prelude.{◌≡◌, ◌≤◌, ◌+◌, ◌<◌, suc, length, is_some, All, IfOk};
ghost use Rattle.des_net.specs.Network.{label_of, observable_events};
ghost use Rattle.question_clauses.specs.LogNames.{first_meanings};
ghost use Rattle.log_encode.specs.Written.{first_ends, guards_of};

use crate::taken::ChainEnd;
use des_base::{EventId, Memory, VAR_LIMIT};
use des_net::Network;
use prop_core::Lit;
use std::alloc::Global;

// Whether the event has a label.
fn is_observable(net: &Network, event: u32) -> bool
    requires { event < length net.now.events }
    ensures { result ≡ is_some (label_of net.now event) }
{
    net.label(EventId(event)).is_some()
}

// The ends of chains without alarms, one for each event that can be seen. Their variables come after the one that asks for the
// log.
pub fn first_ends(alloc: Global, net: &Network, asked: u32) -> Result<Vec<ChainEnd>, Memory>
    requires { asked + length (first_meanings net.now) ≤ VAR_LIMIT }
    ensures { IfOk result (λ ends. ends.items ≡ first_ends (suc asked) (observable_events net.now)) }
{
    let mut ends = Vec::new(alloc);
    let mut closed = asked;
    for event in 0..net.events() {
        if is_observable(net, event) {
            closed += 1;
            ends.push(ChainEnd {
                event: EventId(event),
                closed,
                last: None,
            })?;
        }
    }
    Ok(ends)
}

// The guards: that the log is asked for, and that each chain ends.
pub fn guards_of(alloc: Global, asked: u32, ends: &[ChainEnd]) -> Result<Vec<Lit>, Memory>
    requires asked { asked < VAR_LIMIT }
    requires closed { All (λ end. end.closed < VAR_LIMIT) ends.now }
    ensures { IfOk result (λ guards. guards.items ≡ guards_of asked ends.now) }
{
    let mut guards = Vec::new(alloc);
    guards.push(Lit::new(asked, true))?;
    for end in ends {
        guards.push(Lit::new(end.closed, true))?;
    }
    Ok(guards)
}
