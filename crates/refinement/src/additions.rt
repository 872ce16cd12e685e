// Which components are added.
ghost use Rattle.std.specs.Prelude.{◌≡◌, ◌<◌, [], length, slice_index_or};
ghost use Rattle.des_net.specs.Network.{component_at};
ghost use Rattle.refinement.specs.Near.{IsByState};

use crate::by_state::{ByState, by_state, near_of};
use crate::change::FollowerChange;
use crate::effect::{ELSEWHERE, Effect, effects_of};
use crate::follower::Follower;
use crate::following::starts_so;
use crate::room::Room;
use crate::rule::{Candidate, Rule};
use crate::touches::{Touch, touches_at, touches_of};
use des_base::{ActionId, CompId, EventId, ListOf, Memory, StateId};
use des_net::Network;
use std::alloc::Global;

/// An event that moves a component, and how.
#[derive(Clone, Copy)]
pub struct Move {
    pub event: EventId,
    pub change: FollowerChange,
}

/// An action of the component that is followed, and what it does to the other one.
#[derive(Clone, Copy)]
pub struct Moving {
    pub action: ActionId,
    pub change: FollowerChange,
}

/// A component that is to be added.
#[derive(Drop)]
pub struct Addition {
    pub follower: Follower,
    /// What it is called if that is a name and free.
    pub title: Vec<u8>,
    pub starts_out: bool,
    pub starts_in: bool,
    /// The actions that move it.
    pub moving: Vec<Moving>,
    /// How many events move it.
    pub count: usize,
    pub chosen: bool,
}

impl Addition {
    /// How many transitions it has.
    pub fn transitions(&self) -> usize {
        let mut count: usize = 0;
        for change in FollowerChange::ALL {
            if self.moving.iter().any(|one| one.change == change) {
                count = count.saturating_add(change.transitions());
            }
        }
        count
    }
}

/// The components that may be added, and for each component of the network the events that touch it, action by action.
#[derive(Drop)]
pub struct Planned {
    pub additions: Vec<Addition>,
    pub touching: Vec<ByAction>,
}

/// For each action of a component the events that touch it so, in their order.
pub type ByAction = Vec<ListOf<EventId>>;

/// The components that are to be added, in the order of those that they follow, each marked that is chosen.
pub fn plan<R: Rule>(alloc: Global, net: &Network, rule: &R) -> Result<Planned, Memory> {
    let mut planned = all_wanted(alloc, net, rule)?;
    let order = rarest_first(alloc, planned.additions.as_slice())?;
    let mut room = Room::new(alloc, net)?;
    for (_, place) in order.as_slice() {
        if let Some(addition) = planned.additions.get_mut(*place) {
            addition.chosen = room.take(addition, planned.touching.as_slice());
        }
    }
    Ok(planned)
}

// The places of the additions: those that few events move come first.
fn rarest_first(alloc: Global, wanted: &[Addition]) -> Result<Vec<(usize, usize)>, Memory> {
    let mut order = Vec::new(alloc);
    for (place, addition) in wanted.iter().enumerate() {
        order.push((addition.count, place))?;
    }
    order.sort()?;
    Ok(order)
}

// Each state that the rule wants to have a component of its own.
fn all_wanted<R: Rule>(alloc: Global, net: &Network, rule: &R) -> Result<Planned, Memory> {
    let touches = touches_of(alloc, net)?;
    let mut additions = Vec::new(alloc);
    let mut touching = Vec::new(alloc);
    for comp in 0..net.components() {
        let comp = CompId(comp);
        let by_action = by_action(
            alloc,
            net.actions(comp),
            touches_at(touches.as_slice(), comp),
        )?;
        add_wanted(alloc, net, comp, by_action.as_slice(), rule, &mut additions)?;
        touching.push(by_action)?;
    }
    Ok(Planned {
        additions,
        touching,
    })
}

// For each action the events that touch the component so.
fn by_action(alloc: Global, actions: u32, touches: &[Touch]) -> Result<ByAction, Memory> {
    let mut events = Vec::new(alloc);
    for _ in 0..actions {
        events.push(ListOf::new(alloc))?;
    }
    for touch in touches {
        if let Some(of) = events.get_mut(touch.action.0 as usize) {
            of.push(touch.event)?;
        }
    }
    Ok(events)
}

/// The events that touch the component by the action.
pub fn events_by(by_action: &[ListOf<EventId>], action: ActionId) -> &[EventId]
    ensures { result.now ≡ slice_index_or by_action.now action [] }
{
    match by_action.get(action.0 as usize) {
        Some(events) => events.as_slice(),
        None => &[],
    }
}

// How many events touch the component.
fn touching(by_action: &[ListOf<EventId>]) -> usize {
    let mut count: usize = 0;
    for events in by_action {
        count = count.saturating_add(events.as_slice().len());
    }
    count
}

// Adds each state of a component that the rule wants to have a component of its own.
fn add_wanted<R: Rule>(
    alloc: Global,
    net: &Network,
    comp: CompId,
    by_action: &[ListOf<EventId>],
    rule: &R,
    wanted: &mut Vec<Addition>,
) -> Result<(), Memory>
    requires { comp < length net.now.components }
{
    let sorted = by_state(alloc, net, comp)?;
    let touching = touching(by_action);
    for state in 0..net.states(comp) {
        let state = StateId(state);
        let Some(moving) = moving_of(alloc, net, comp, &sorted, state, by_action)? else {
            continue;
        };
        let counts = event_counts(moving.as_slice(), by_action);
        let candidate = Candidate {
            comp,
            state,
            states: net.states(comp),
            touching,
            moving: counts.moving,
            changing: counts.changing,
        };
        if rule.wants(&candidate) {
            wanted.push(addition_of(alloc, net, comp, state, moving, counts.moving)?)?;
        }
    }
    Ok(())
}

// The actions that move the component that is in `yes` while this one is in the state; none if some event's change isn't determined.
fn moving_of(
    alloc: Global,
    net: &Network,
    comp: CompId,
    sorted: &ByState,
    state: StateId,
    by_action: &[ListOf<EventId>],
) -> Result<Option<Vec<Moving>>, Memory>
    requires comp { comp < length net.now.components }
    requires state { state < length (component_at net.now comp).state_names }
    requires sorted { IsByState (component_at net.now comp) sorted.now.near.items sorted.now.taking.items }
{
    let mut effects = effects_of(alloc, net, comp, sorted, state)?;
    let mut moving = Vec::new(alloc);
    for trans in near_of(sorted, state) {
        let action = trans.action;
        if events_by(by_action, action).is_empty() {
            continue;
        }
        match take_change(&mut effects, action) {
            Some(FollowerChange::Idle) => {}
            Some(change) => moving.push(Moving { action, change })?,
            None => return Ok(None),
        }
    }
    Ok(Some(moving))
}

// The change by an action, once: from then on it's idle.
fn take_change(effects: &mut Vec<Effect>, action: ActionId) -> Option<FollowerChange> {
    let effect = effects.get_mut(action.0 as usize)?;
    let change = FollowerChange::of(effect);
    *effect = ELSEWHERE;
    change
}

// Of the events that touch a component, how many move the one that follows it, and how many of these may change it.
#[derive(Clone, Copy)]
struct EventCounts {
    moving: usize,
    changing: usize,
}

fn event_counts(moving: &[Moving], by_action: &[ListOf<EventId>]) -> EventCounts {
    let mut counts = EventCounts {
        moving: 0,
        changing: 0,
    };
    for one in moving {
        let events = events_by(by_action, one.action).len();
        counts.moving = counts.moving.saturating_add(events);
        if one.change != FollowerChange::Stay {
            counts.changing = counts.changing.saturating_add(events);
        }
    }
    counts
}

fn addition_of(
    alloc: Global,
    net: &Network,
    comp: CompId,
    state: StateId,
    moving: Vec<Moving>,
    count: usize,
) -> Result<Addition, Memory>
    requires comp { comp < length net.now.components }
    requires state { state < length (component_at net.now comp).state_names }
{
    let mut title = Vec::from_slice(alloc, net.comp_name(comp).as_str().as_bytes())?;
    title.extend_from_slice(b"-is-")?;
    title.extend_from_slice(net.state_name(comp, state).as_str().as_bytes())?;
    Ok(Addition {
        follower: Follower { comp, state },
        title,
        starts_out: starts_so(net, comp, state, false),
        starts_in: starts_so(net, comp, state, true),
        moving,
        count,
        chosen: false,
    })
}

/// The events that move the component, in their order.
pub fn moves_of(
    alloc: Global,
    moving: &[Moving],
    by_action: &[ListOf<EventId>],
) -> Result<Vec<Move>, Memory> {
    let mut order = Vec::new(alloc);
    for (place, one) in moving.iter().enumerate() {
        for event in events_by(by_action, one.action) {
            order.push((event.0, place))?;
        }
    }
    order.sort()?;
    let mut moves = Vec::new(alloc);
    for (event, place) in order.as_slice() {
        if let Some(one) = moving.get(*place) {
            moves.push(Move {
                event: EventId(*event),
                change: one.change,
            })?;
        }
    }
    Ok(moves)
}

/// The changes, each where it comes first.
pub fn changes_in(alloc: Global, moves: &[Move]) -> Result<Vec<FollowerChange>, Memory> {
    let mut changes = Vec::new(alloc);
    for one in moves {
        if !changes.as_slice().contains(&one.change) {
            changes.push(one.change)?;
        }
    }
    Ok(changes)
}
