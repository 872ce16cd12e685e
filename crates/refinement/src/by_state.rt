// A component's transitions, state by state.
ghost use Rattle.std.specs.Prelude.{◌≡◌, ◌<◌, All, length, IfOk, OnOk, slice_index_or, slice_set, [], ◌+◌, ◌^◌};
ghost use Rattle.des_net.specs.Network.{component_at};
ghost use Rattle.refinement.specs.Marking.{with_near};
ghost use Rattle.refinement.specs.Near.{AreCounts, AreNear, IsByState};

use crate::growing::{append_at, no_lists};
use des_base::{ActionId, CompId, ListOf, Memory, StateId};
use des_net::{Network, Trans};
use std::alloc::Global;

/// A component's transitions, sorted for what is asked of one state after another.
#[derive(Drop)]
pub struct ByState {
    /// For each state those that begin or end there.
    pub near: Vec<ListOf<Trans>>,
    /// For each action how many take it.
    pub taking: Vec<usize>,
}

/// The transitions of the component.
pub fn by_state(alloc: Global, net: &Network, comp: CompId) -> Result<ByState, Memory>
    requires { comp < length net.now.components }
    ensures { IfOk result (λ sorted. IsByState (component_at net.now comp) sorted.near.items sorted.taking.items) }
{
    Ok(ByState {
        near: near_each(alloc, net, comp)?,
        taking: counts_of(alloc, net.trans(comp), net.actions(comp))?,
    })
}

// For each state of the component the transitions that begin or end there.
fn near_each(alloc: Global, net: &Network, comp: CompId) -> Result<Vec<ListOf<Trans>>, Memory>
    requires { comp < length net.now.components }
    ensures { IfOk result (λ near. AreNear (length (component_at net.now comp).state_names) (component_at net.now comp).transitions near.items) }
{
    let mut near = no_lists(alloc, net.states(comp))?;
    for trans in net.trans(comp) {
        add_near(&mut near, *trans)?;
    }
    Ok(near)
}

// Adds a transition where it begins and where it ends.
fn add_near(near: &mut Vec<ListOf<Trans>>, trans: Trans) -> Result<(), Memory>
    requires from { trans.from < length near.old.items }
    requires to { trans.to < length near.old.items }
    ensures { OnOk result (near.new.items ≡ with_near near.old.items trans) }
{
    append_at(near, trans.from.0, trans)?;
    if trans.to != trans.from {
        append_at(near, trans.to.0, trans)?;
    }
    Ok(())
}

/// The transitions that begin or end in the state.
pub fn near_of(sorted: &ByState, state: StateId) -> &[Trans]
    requires { state < length sorted.now.near.items }
    ensures { result.now ≡ slice_index_or sorted.now.near.items state [] }
{
    sorted.near[state.0 as usize].as_slice()
}

/// For each of so many actions how many of the transitions take it.
pub fn counts_of(alloc: Global, transitions: &[Trans], actions: u32) -> Result<Vec<usize>, Memory>
    requires { All (λ t. t.action < actions) transitions.now }
    ensures { IfOk result (λ counts. AreCounts actions transitions.now counts.items) }
{
    let mut counts = vec![in alloc; 0; actions as usize]?;
    for trans in transitions {
        count(&mut counts, trans.action);
    }
    Ok(counts)
}

// Counts one more that takes the action.
fn count(counts: &mut Vec<usize>, action: ActionId)
    requires action { action < length counts.old.items }
    requires room { slice_index_or counts.old.items action 0 + 1 < 2 ^ 63 }
    ensures { counts.new.items ≡ slice_set counts.old.items action (slice_index_or counts.old.items action 0 + 1) }
{
    counts[action.0 as usize] += 1;
}
