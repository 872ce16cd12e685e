// Whether a network refines another.
ghost use Rattle.std.specs.Prelude.{◌≡◌, ◌≤◌, ◌<◌, true, length, IfOk, IfSome};
ghost use Rattle.refinement.specs.Refinement.{IsRefinementOf};
ghost use Rattle.refinement.specs.Comparing.{FollowUpTo};
ghost use Rattle.refinement.specs.Touching.{AreCompared};

use crate::by_state::by_state;
use crate::comparing::{has_components, has_events};
use crate::follower::Follower;
use crate::following::follows;
use crate::touches::{Touch, touches_of};
use des_base::{CompId, ListOf, Memory};
use des_net::Network;
use std::alloc::Global;

/// Two networks, and for each component of either one the events that touch it.
#[derive(Clone, Copy)]
pub struct Compared<'a> {
    pub fine: &'a Network,
    pub net: &'a Network,
    pub touches: &'a [ListOf<Touch>],
    pub further: &'a [ListOf<Touch>],
}

/// Whether the first network refines the second, by further components that follow so, in this order.
pub fn is_refinement(
    alloc: Global,
    fine: &Network,
    net: &Network,
    followers: &[Follower],
) -> Result<bool, Memory>
    ensures { IfOk result (λ yes. yes ≡ true → IsRefinementOf fine.now net.now) }
{
    fine.is_built();
    net.is_built();
    if !has_components(fine, net) || !has_events(fine, net) {
        return Ok(false);
    }
    all_follow(alloc, fine, net, followers)
}

// Whether each further component follows so.
fn all_follow(
    alloc: Global,
    fine: &Network,
    net: &Network,
    followers: &[Follower],
) -> Result<bool, Memory>
    requires few { length net.now.components ≤ length fine.now.components }
    requires events { length fine.now.events ≡ length net.now.events }
    ensures { IfOk result (λ yes. yes ≡ true → FollowUpTo (length fine.now.components) fine.now net.now) }
{
    let touches = touches_of(alloc, net)?;
    let further = touches_of(alloc, fine)?;
    let compared = Compared {
        fine,
        net,
        touches: touches.as_slice(),
        further: further.as_slice(),
    };
    let next = first_other(alloc, compared, followers)?;
    Ok(next == fine.components())
}

// The first further component that doesn't follow so.
fn first_other(alloc: Global, compared: Compared<'_>, followers: &[Follower]) -> Result<u32, Memory>
    requires few { length compared.net.now.components ≤ length compared.fine.now.components }
    requires compared { AreCompared compared.net.now compared.fine.now compared.touches.now compared.further.now }
    ensures { IfOk result (λ next. FollowUpTo next compared.entry.fine.now compared.entry.net.now) }
{
    let mut next = compared.net.components();
    for comp in 0..compared.net.components() {
        next = first_other_of(alloc, compared, followers, CompId(comp), next)?;
    }
    Ok(next)
}

// The first further component, from this one on, that doesn't follow this component so.
fn first_other_of(
    alloc: Global,
    compared: Compared<'_>,
    followers: &[Follower],
    comp: CompId,
    first: u32,
) -> Result<u32, Memory>
    requires comp { comp < length compared.net.now.components }
    requires compared { AreCompared compared.net.now compared.fine.now compared.touches.now compared.further.now }
    requires from { length compared.net.now.components ≤ first }
    requires to { first ≤ length compared.fine.now.components }
    requires follow { FollowUpTo first compared.fine.now compared.net.now }
    ensures follow { IfOk result (λ next. FollowUpTo next compared.entry.fine.now compared.entry.net.now) }
    ensures within { IfOk result (λ next. (first ≤ next) × (next ≤ length compared.entry.fine.now.components)) }
{
    let Some(_) = follower_of(compared, followers, comp, first) else {
        return Ok(first);
    };
    let sorted = by_state(alloc, compared.net, comp)?;
    for added in first..compared.fine.components() {
        let Some(follower) = follower_of(compared, followers, comp, added) else {
            return Ok(added);
        };
        if !follows(alloc, compared, &sorted, follower, CompId(added))? {
            return Ok(added);
        }
    }
    Ok(compared.fine.components())
}

// How the further component is to follow, if it is to follow this one.
fn follower_of(
    compared: Compared<'_>,
    followers: &[Follower],
    comp: CompId,
    added: u32,
) -> Option<Follower>
    requires { length compared.net.now.components ≤ added }
    ensures { IfSome result (λ follower. follower.comp ≡ comp) }
{
    match followers.get((added - compared.net.components()) as usize) {
        Some(follower) if follower.comp == comp => Some(*follower),
        _ => None,
    }
}
