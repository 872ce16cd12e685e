// How many components, transitions and parts a network may have still.
use crate::additions::{Addition, ByAction, Moving, events_by};
use des_base::{CompId, EventId, ListOf, Memory};
use des_net::{MOST_COMPONENTS, MOST_PARTS, MOST_TRANSITIONS, Network};
use std::alloc::Global;

/// How much more fits in a network: components, transitions, and parts of each event.
#[derive(Drop)]
pub struct Room {
    components: usize,
    transitions: usize,
    parts: Vec<usize>,
}

impl Room {
    /// What fits besides what the network has.
    pub fn new(alloc: Global, net: &Network) -> Result<Room, Memory> {
        let mut transitions = MOST_TRANSITIONS;
        for comp in 0..net.components() {
            transitions = transitions.saturating_sub(net.trans(CompId(comp)).len());
        }
        let mut parts = Vec::new(alloc);
        for event in 0..net.events() {
            let used = net.event(EventId(event)).parts.len();
            parts.push(MOST_PARTS.saturating_sub(used))?;
        }
        Ok(Room {
            components: MOST_COMPONENTS.saturating_sub(net.components() as usize),
            transitions,
            parts,
        })
    }

    /// Takes the room that an addition needs, if there is enough.
    pub fn take(&mut self, addition: &Addition, touching: &[ByAction]) -> bool {
        let Some(by_action) = touching.get(addition.follower.comp.0 as usize) else {
            return false;
        };
        let moving = addition.moving.as_slice();
        let transitions = addition.transitions();
        if self.components == 0
            || transitions > self.transitions
            || !have_room(self.parts.as_slice(), moving, by_action.as_slice())
        {
            return false;
        }
        self.components -= 1;
        self.transitions -= transitions;
        for one in moving {
            take_parts(&mut self.parts, events_by(by_action.as_slice(), one.action));
        }
        true
    }
}

// Whether each of the events that move it has room for a part.
fn have_room(parts: &[usize], moving: &[Moving], by_action: &[ListOf<EventId>]) -> bool {
    moving
        .iter()
        .all(|one| have_parts(parts, events_by(by_action, one.action)))
}

fn have_parts(parts: &[usize], events: &[EventId]) -> bool {
    events.iter().all(|event| parts.get(event.0 as usize).is_some_and(|room| *room > 0))
}

fn take_parts(parts: &mut Vec<usize>, events: &[EventId]) {
    for event in events {
        if let Some(room) = parts.get_mut(event.0 as usize) {
            *room = room.saturating_sub(1);
        }
    }
}
