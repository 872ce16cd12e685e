// Whether a component follows another.
ghost use Rattle.std.specs.Prelude.{◌≡◌, ◌<◌, ◌↔◌, Bool, Some, None, true, length, IfOk, IfSome, IsTrue};
ghost use Rattle.des_net.specs.Network.{component_at};
ghost use Rattle.refinement.specs.Refinement.{FollowsSome};
ghost use Rattle.refinement.specs.Marking.{Passes};
ghost use Rattle.refinement.specs.Near.{IsByState};
ghost use Rattle.refinement.specs.Seen.{MoveAlike, MovesAlike, StartsSo};
ghost use Rattle.refinement.specs.Touching.{AreCompared, TouchAlike};

use crate::by_state::{ByState, by_state};
use crate::effect::{Effect, effects_of};
use crate::follower::Follower;
use crate::testing::Compared;
use crate::touches::{Touch, touches_at};
use des_base::{ActionId, CompId, Memory, StateId};
use des_net::Network;
use std::alloc::Global;

/// The state of a follower in which the other one is in its state.
pub const YES: StateId = StateId(1);

// How many states a follower has.
const STATES: u32 = 2;

/// Whether a component of the finer network follows another one, by this state.
pub fn follows(
    alloc: Global,
    compared: Compared<'_>,
    sorted: &ByState,
    follower: Follower,
    added: CompId,
) -> Result<bool, Memory>
    requires old { follower.comp < length compared.net.now.components }
    requires new { added < length compared.fine.now.components }
    requires compared { AreCompared compared.net.now compared.fine.now compared.touches.now compared.further.now }
    requires sorted { IsByState (component_at compared.net.now follower.comp) sorted.now.near.items sorted.now.taking.items }
    ensures { IfOk result (λ yes. yes ≡ true → FollowsSome compared.entry.net.now compared.entry.fine.now added) }
{
    if follower.state.0 >= compared.net.states(follower.comp)
        || compared.fine.states(added) != STATES
        || !starts_alike(compared.fine, compared.net, &follower, added)
    {
        return Ok(false);
    }
    moves_alike(alloc, compared, sorted, follower, added)
}

// Whether both start alike, as far as is seen.
fn starts_alike(fine: &Network, net: &Network, follower: &Follower, added: CompId) -> bool
    requires old { follower.now.comp < length net.now.components }
    requires new { added < length fine.now.components }
    ensures { result ≡ true → (inside : Bool) → StartsSo net.now follower.now.comp follower.now.state inside ↔ StartsSo fine.now added 1 inside }
{
    starts_so(net, follower.comp, follower.state, true) == starts_so(fine, added, YES, true)
        && starts_so(net, follower.comp, follower.state, false)
            == starts_so(fine, added, YES, false)
}

/// Whether the component can start in the state, if it is to be inside, or else in another one.
pub fn starts_so(net: &Network, comp: CompId, state: StateId, inside: bool) -> bool
    requires { comp < length net.now.components }
    ensures { IsTrue result ↔ StartsSo net.now comp state inside }
{
    for start in 0..net.states(comp) {
        if (start == state.0) == inside && net.is_init(comp, StateId(start)) {
            return true;
        }
    }
    false
}

// Whether each event does the same to both, as far as is seen.
fn moves_alike(
    alloc: Global,
    compared: Compared<'_>,
    sorted: &ByState,
    follower: Follower,
    added: CompId,
) -> Result<bool, Memory>
    requires old { follower.comp < length compared.net.now.components }
    requires state { follower.state < length (component_at compared.net.now follower.comp).state_names }
    requires new { added < length compared.fine.now.components }
    requires two { length (component_at compared.fine.now added).state_names ≡ 2 }
    requires compared { AreCompared compared.net.now compared.fine.now compared.touches.now compared.further.now }
    requires sorted { IsByState (component_at compared.net.now follower.comp) sorted.now.near.items sorted.now.taking.items }
    ensures { IfOk result (λ yes. yes ≡ true → MoveAlike compared.entry.net.now compared.entry.fine.now follower.comp follower.state added) }
{
    compared.net.is_built();
    let old = effects_of(alloc, compared.net, follower.comp, sorted, follower.state)?;
    let further = by_state(alloc, compared.fine, added)?;
    let new = effects_of(alloc, compared.fine, added, &further, YES)?;
    Ok(touch_alike(
        old.as_slice(),
        new.as_slice(),
        touches_at(compared.touches, follower.comp),
        touches_at(compared.further, added),
    ))
}

// Whether the events that touch the one component do the same to the other, as far as is seen, and no others touch that one.
fn touch_alike(old: &[Effect], new: &[Effect], touches: &[Touch], further: &[Touch]) -> bool
    ensures { result ≡ true → TouchAlike old.now new.now touches.now further.now }
{
    let mut next = 0;
    for touch in touches {
        match place_after(old, new, *touch, further, next) {
            Some(after) => next = after,
            None => return false,
        }
    }
    next == further.len()
}

// The place in the list behind the event, if it does the same to both.
fn place_after(
    old: &[Effect],
    new: &[Effect],
    touch: Touch,
    further: &[Touch],
    next: usize,
) -> Option<usize>
    ensures { IfSome result (λ after. Passes old.now new.now touch further.now next after) }
{
    match further.get(next) {
        Some(other) if other.event == touch.event => {
            if has_same_effect(old, new, touch.action, other.action) {
                Some(next + 1)
            } else {
                None
            }
        }
        _ => {
            if is_idle(old, touch.action) {
                Some(next)
            } else {
                None
            }
        }
    }
}

// Whether the action changes nothing that is seen.
fn is_idle(effects: &[Effect], action: ActionId) -> bool
    ensures { result ≡ true → MovesAlike effects.now effects.now (Some action) None }
{
    match effects.get(action.0 as usize) {
        Some(effect) => !effect.enters && !effect.leaves,
        None => false,
    }
}

fn has_same_effect(old: &[Effect], new: &[Effect], action: ActionId, further: ActionId) -> bool
    ensures { result ≡ true → MovesAlike old.now new.now (Some action) (Some further) }
{
    match (old.get(action.0 as usize), new.get(further.0 as usize)) {
        (Some(before), Some(after)) => *before == *after,
        _ => false,
    }
}
