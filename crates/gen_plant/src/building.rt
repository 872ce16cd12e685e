// The builder's calls when it refuses nothing, so that they fail only if memory runs out.
ghost use Rattle.std.specs.Prelude.{◌≡◌, ◌<◌, None, length, IfOk, OnOk};
ghost use Rattle.des_base.specs.Names.{IsName};
ghost use Rattle.des_net.specs.Building.{component_refusal, with_component, state_refusal, with_state, change_component, trans_refusal, with_trans, event_refusal, with_event};

use crate::names::name_of;
use des_base::{CompId, Memory, Name, StateId};
use des_net::{BuildRefusal, Builder, Part};
use std::alloc::Global;

// The one refusal that is left. It has no `ensures`: a `Memory` has one value.
fn only_memory(refusal: BuildRefusal) -> Memory
    requires { refusal ≡ BuildRefusal.Memory }
{
    match refusal {
        BuildRefusal::Memory => Memory,
        _ => unreachable!(),
    }
}

pub fn add_component(builder: &mut Builder, name: Name) -> Result<CompId, Memory>
    requires free { component_refusal builder.old name ≡ None }
    ensures ok { OnOk result (builder.new ≡ with_component builder.old name) }
    ensures place { IfOk result (λ comp. comp ≡ length builder.old.components) }
{
    match builder.add_component(name) {
        Ok(comp) => Ok(comp),
        Err(refusal) => Err(only_memory(refusal)),
    }
}

pub fn add_state(
    alloc: Global,
    builder: &mut Builder,
    comp: CompId,
    name: &[u8],
    init: bool,
) -> Result<(), Memory>
    requires name { IsName name.now }
    requires free { state_refusal builder.old.components comp name.now ≡ None }
    ensures { OnOk result (builder.new ≡ change_component comp (with_state name.now init) builder.old) }
{
    let name = name_of(alloc, name)?;
    match builder.add_state(comp, name, init) {
        Ok(_) => Ok(()),
        Err(refusal) => Err(only_memory(refusal)),
    }
}

pub fn add_trans(
    alloc: Global,
    builder: &mut Builder,
    comp: CompId,
    from: u32,
    action: &[u8],
    to: u32,
) -> Result<(), Memory>
    requires action { IsName action.now }
    requires free { trans_refusal builder.old.components comp from action.now to ≡ None }
    ensures { OnOk result (builder.new ≡ change_component comp (with_trans from action.now to) builder.old) }
{
    let action = name_of(alloc, action)?;
    match builder.add_trans(comp, StateId(from), action, StateId(to)) {
        Ok(()) => Ok(()),
        Err(refusal) => Err(only_memory(refusal)),
    }
}

pub fn add_event(
    builder: &mut Builder,
    name: Name,
    parts: &[Part],
    label: Option<Name>,
    fault: bool,
) -> Result<(), Memory>
    requires some { 0 < length parts.now }
    requires free { event_refusal builder.old name parts.now ≡ None }
    ensures { OnOk result (builder.new ≡ with_event builder.old name parts.now label fault) }
{
    match builder.add_event(name, parts, label, fault) {
        Ok(_) => Ok(()),
        Err(refusal) => Err(only_memory(refusal)),
    }
}
