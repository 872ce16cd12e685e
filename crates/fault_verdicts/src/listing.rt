// The fault events of a network, as a list.
ghost use Rattle.std.specs.Prelude.{◌≡◌, ◌<◌, ◌++◌, ◌∷◌, [], filter, length, IfOk, OnOk};
ghost use Rattle.des_net.specs.Network.{is_fault};
ghost use Rattle.step_encode.specs.FaultInputs.{fault_events};

use des_base::{EventId, Memory};
use des_net::Network;
use std::alloc::Global;

/// The fault events of a network, in order of number.
pub fn fault_list(alloc: Global, net: &Network) -> Result<Vec<EventId>, Memory>
    ensures { IfOk result (λ list. list.items ≡ fault_events net.now) }
{
    let mut list = Vec::new(alloc);
    for number in 0..net.events() {
        push_fault(net, EventId(number), &mut list)?;
    }
    Ok(list)
}

// Appends the event if it is a fault.
fn push_fault(net: &Network, event: EventId, list: &mut Vec<EventId>) -> Result<(), Memory>
    requires { event < length net.now.events }
    ensures { OnOk result (list.new.items ≡ list.old.items ++ filter (is_fault net.now) (event ∷ [])) }
{
    if !net.is_fault(event) {
        return Ok(());
    }
    list.push(event)?;
    Ok(())
}
