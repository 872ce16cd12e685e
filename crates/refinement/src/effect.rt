// How an action changes whether a component is in a state.
ghost use Rattle.std.specs.Prelude.{◌≡◌, ◌<◌, All, length, IfOk, slice_index_or, slice_set};
ghost use Rattle.des_net.specs.Network.{component_at};
ghost use Rattle.refinement.specs.Seen.{AreEffects};
ghost use Rattle.refinement.specs.Marking.{HasOthers, IsMarked, marked, no_effect, staying_out, with_change};
ghost use Rattle.refinement.specs.Near.{IsByState};

use crate::by_state::{ByState, counts_of, near_of};
use des_base::{CompId, Memory, StateId};
use des_net::{Network, Trans};
use std::alloc::Global;

/// How an action changes whether a component is in a state: which of these its transitions do.
#[derive(Clone, Copy, PartialEq, Eq)]
pub struct Effect {
    pub stays_out: bool,
    pub enters: bool,
    pub leaves: bool,
    pub stays_in: bool,
}

const NOTHING: Effect = Effect {
    stays_out: false,
    enters: false,
    leaves: false,
    stays_in: false,
};

/// The effect of an action whose transitions neither begin nor end in the state.
pub const ELSEWHERE: Effect = Effect {
    stays_out: true,
    enters: false,
    leaves: false,
    stays_in: false,
};

impl Effect {
    // The effect with one more change.
    fn with(self, before: bool, after: bool) -> Effect
        ensures { result ≡ with_change self before after }
    {
        Effect {
            stays_out: self.stays_out || (!before && !after),
            enters: self.enters || (!before && after),
            leaves: self.leaves || (before && !after),
            stays_in: self.stays_in || (before && after),
        }
    }
}

/// The effect of each action of the component on whether it is in the state.
pub fn effects_of(
    alloc: Global,
    net: &Network,
    comp: CompId,
    sorted: &ByState,
    state: StateId,
) -> Result<Vec<Effect>, Memory>
    requires comp { comp < length net.now.components }
    requires state { state < length (component_at net.now comp).state_names }
    requires sorted { IsByState (component_at net.now comp) sorted.now.near.items sorted.now.taking.items }
    ensures { IfOk result (λ effects. AreEffects net.now comp state effects.items) }
{
    let near = near_of(sorted, state);
    let actions = net.actions(comp);
    let mut effects = marks_of(alloc, near, actions, state)?;
    let counts = counts_of(alloc, near, actions)?;
    mark_others(&mut effects, counts.as_slice(), sorted.taking.as_slice());
    Ok(effects)
}

// The effect of each of so many actions over these transitions.
fn marks_of(
    alloc: Global,
    transitions: &[Trans],
    actions: u32,
    state: StateId,
) -> Result<Vec<Effect>, Memory>
    requires { All (λ t. t.action < actions) transitions.now }
    ensures { IfOk result (λ effects. IsMarked actions state transitions.now effects.items) }
{
    let mut effects = vec![in alloc; NOTHING; actions as usize]?;
    for trans in transitions {
        mark(&mut effects, *trans, state);
    }
    Ok(effects)
}

// Marks what a transition does.
fn mark(effects: &mut Vec<Effect>, trans: Trans, state: StateId)
    requires { trans.action < length effects.old.items }
    ensures { effects.new.items ≡ marked state effects.old.items trans }
{
    let at = trans.action.0 as usize;
    effects[at] = effects[at].with(trans.from == state, trans.to == state);
}

// Marks of each action whether more transitions take it than those that begin or end in the state: the others stay out of it.
fn mark_others(effects: &mut Vec<Effect>, counts: &[usize], taking: &[usize])
    requires counts { length counts.now ≡ length effects.old.items }
    requires taking { length taking.now ≡ length effects.old.items }
    ensures { HasOthers effects.old.items counts.now taking.now effects.new.items }
{
    for action in 0..effects.len() {
        mark_other(effects, action, counts[action] < taking[action]);
    }
}

fn mark_other(effects: &mut Vec<Effect>, action: usize, out: bool)
    requires { action < length effects.old.items }
    ensures { effects.new.items ≡ slice_set effects.old.items action (staying_out (slice_index_or effects.old.items action no_effect) out) }
{
    effects[action].stays_out = out;
}
