// The events that touch each component.
ghost use Rattle.std.specs.Prelude.{◌≡◌, ◌<◌, [], length, slice_index_or, IfOk, OnOk};
ghost use Rattle.std.specs.List.{AllByRecursion};
ghost use Rattle.des_net.specs.Network.{parts_of};
ghost use Rattle.refinement.specs.Marking.{with_touches};
ghost use Rattle.refinement.specs.Touching.{AreTouches};

use crate::growing::{append_at, no_lists};
use des_base::{ActionId, CompId, EventId, ListOf, Memory};
use des_net::{Network, Part};
use std::alloc::Global;

/// An event that touches a component, and by which action.
#[derive(Clone, Copy)]
pub struct Touch {
    pub event: EventId,
    pub action: ActionId,
}

/// For each component the events that touch it, in their order.
pub fn touches_of(alloc: Global, net: &Network) -> Result<Vec<ListOf<Touch>>, Memory>
    ensures { IfOk result (λ touches. AreTouches net.now touches.items) }
{
    let mut touches = no_lists(alloc, net.components())?;
    for event in 0..net.events() {
        add_event(net, EventId(event), &mut touches)?;
    }
    Ok(touches)
}

/// The events that touch the component.
pub fn touches_at(touches: &[ListOf<Touch>], comp: CompId) -> &[Touch]
    requires { comp < length touches.now }
    ensures { result.now ≡ slice_index_or touches.now comp [] }
{
    touches[comp.0 as usize].as_slice()
}

// Adds an event to the lists of the components that it touches.
fn add_event(net: &Network, event: EventId, touches: &mut Vec<ListOf<Touch>>) -> Result<(), Memory>
    requires event { event < length net.now.events }
    requires count { length touches.old.items ≡ length net.now.components }
    ensures { OnOk result (touches.new.items ≡ with_touches event (parts_of net.now event) touches.old.items) }
{
    net.is_built();
    add_touches(event, net.event(event).parts.as_slice(), touches)
}

fn add_touches(
    event: EventId,
    parts: &[Part],
    touches: &mut Vec<ListOf<Touch>>,
) -> Result<(), Memory>
    requires { AllByRecursion (λ part. part.comp < length touches.old.items) parts.now }
    ensures { OnOk result (touches.new.items ≡ with_touches event parts.now touches.old.items) }
{
    for part in parts {
        let action = part.action;
        append_at(touches, part.comp.0, Touch { event, action })?;
    }
    Ok(())
}
