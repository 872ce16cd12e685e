// Whether one network has what another has.
ghost use Rattle.std.specs.Prelude.{◌≡◌, ◌<◌, true, length, nat_le, slice_get};
ghost use Rattle.std.specs.List.{list_all};
ghost use Rattle.std.specs.Option.{option_copied};
ghost use Rattle.des_net.specs.Network.{component_at, event_at};
ghost use Rattle.refinement.specs.Refinement.{HasFurtherParts};
ghost use Rattle.refinement.specs.Comparing.{HasComponents, HasEvents, HaveFurther};

use des_base::{ActionId, CompId, EventId, Name, StateId};
use des_net::{Network, Part, Trans};

/// Whether the components come first in the other network, as they are and under their names.
pub fn has_components(fine: &Network, net: &Network) -> bool
    ensures { result ≡ true → HasComponents fine.now net.now }
{
    if fine.components() < net.components() {
        return false;
    }
    for comp in 0..net.components() {
        if !is_same_component(fine, net, CompId(comp)) {
            return false;
        }
    }
    true
}

// Whether the component of this number is the same in both, and has the same name.
#[tactic(auto, using(crate::proofs::RefinementLemmas::same_component))]
fn is_same_component(fine: &Network, net: &Network, comp: CompId) -> bool
    requires old { comp < length net.now.components }
    requires new { comp < length fine.now.components }
    ensures name { result ≡ true → slice_get fine.now.component_names comp ≡ slice_get net.now.component_names comp }
    ensures same { result ≡ true → component_at fine.now comp ≡ component_at net.now comp }
{
    fine.comp_name(comp) == net.comp_name(comp)
        && has_same_states(fine, net, comp)
        && has_same_actions(fine, net, comp)
        && are_same_trans(fine.trans(comp), net.trans(comp))
}

fn are_same_trans(fine: &[Trans], trans: &[Trans]) -> bool
    ensures { result ≡ true → fine.now ≡ trans.now }
{
    fine == trans
}

#[tactic(auto, using(crate::proofs::Lists::same_is))]
fn has_same_states(fine: &Network, net: &Network, comp: CompId) -> bool
    requires old { comp < length net.now.components }
    requires new { comp < length fine.now.components }
    ensures names { result ≡ true → (component_at fine.now comp).state_names ≡ (component_at net.now comp).state_names }
    ensures marks { result ≡ true → (component_at fine.now comp).initial ≡ (component_at net.now comp).initial }
{
    if fine.states(comp) != net.states(comp) {
        return false;
    }
    for state in 0..net.states(comp) {
        if !is_same_state(fine, net, comp, StateId(state)) {
            return false;
        }
    }
    true
}

fn is_same_state(fine: &Network, net: &Network, comp: CompId, state: StateId) -> bool
    requires old { comp < length net.now.components }
    requires new { comp < length fine.now.components }
    requires old_state { state < length (component_at net.now comp).state_names }
    requires new_state { state < length (component_at fine.now comp).state_names }
    ensures name { result ≡ true → slice_get (component_at fine.now comp).state_names state ≡ slice_get (component_at net.now comp).state_names state }
    ensures mark { result ≡ true → slice_get (component_at fine.now comp).initial state ≡ slice_get (component_at net.now comp).initial state }
{
    fine.is_init(comp, state) == net.is_init(comp, state)
        && fine.state_name(comp, state) == net.state_name(comp, state)
}

#[tactic(auto, using(crate::proofs::Lists::same_is))]
fn has_same_actions(fine: &Network, net: &Network, comp: CompId) -> bool
    requires old { comp < length net.now.components }
    requires new { comp < length fine.now.components }
    ensures { result ≡ true → (component_at fine.now comp).action_names ≡ (component_at net.now comp).action_names }
{
    if fine.actions(comp) != net.actions(comp) {
        return false;
    }
    for action in 0..net.actions(comp) {
        let action = ActionId(action);
        if fine.action_name(comp, action) != net.action_name(comp, action) {
            return false;
        }
    }
    true
}

/// Whether the other network has the same events under the same names, each with further parts of further components.
pub fn has_events(fine: &Network, net: &Network) -> bool
    ensures { result ≡ true → HasEvents fine.now net.now }
{
    if fine.events() != net.events() {
        return false;
    }
    for event in 0..net.events() {
        if !has_event(fine, net, EventId(event)) {
            return false;
        }
    }
    true
}

#[tactic(auto, using(crate::proofs::RefinementLemmas::further_parts))]
fn has_event(fine: &Network, net: &Network, event: EventId) -> bool
    requires old { event < length net.now.events }
    requires new { event < length fine.now.events }
    ensures name { result ≡ true → slice_get fine.now.event_names event ≡ slice_get net.now.event_names event }
    ensures parts { result ≡ true → HasFurtherParts (length net.now.components) (event_at net.now event) (event_at fine.now event) }
{
    fine.event_name(event) == net.event_name(event)
        && fine.is_fault(event) == net.is_fault(event)
        && is_same_label(fine.label(event), net.label(event))
        && has_parts(
            fine.event(event).parts.as_slice(),
            net.event(event).parts.as_slice(),
            net.components(),
        )
}

fn is_same_label(fine: Option<&Name>, label: Option<&Name>) -> bool
    ensures { result ≡ true → option_copied fine.entry ≡ option_copied label.entry }
{
    match (fine, label) {
        (Some(fine), Some(label)) => *fine == *label,
        (None, None) => true,
        _ => false,
    }
}

// Whether the parts come first, and those behind them are of components from this number on.
fn has_parts(fine: &[Part], parts: &[Part], first: u32) -> bool
    ensures { result ≡ true → HaveFurther first parts.now fine.now }
{
    if fine.len() < parts.len() {
        return false;
    }
    let (front, further) = fine.split_at(parts.len());
    are_same_parts(front, parts) && are_new(further, first)
}

fn are_same_parts(fine: &[Part], parts: &[Part]) -> bool
    ensures { result ≡ true → fine.now ≡ parts.now }
{
    fine == parts
}

// Whether the parts are of components from this number on.
fn are_new(parts: &[Part], first: u32) -> bool
    ensures { result ≡ list_all (λ part. nat_le first part.comp) parts.now }
{
    parts.iter().all(|part| first <= part.comp.0)
}
