// The bus, and the units one after another.
ghost use Rattle.std.specs.Prelude.{◌≡◌, ◌+◌, ◌≤◌, ◌<◌, Some, slice_get, OnOk};
ghost use Rattle.des_net.specs.Network.{no_component, no_net};
ghost use Rattle.des_net.specs.Building.{trans_count};
ghost use Rattle.des_net.specs.Limits.{most_transitions};
ghost use Rattle.gen_plant.specs.Plant.{bus_component, unit_component, most_units};
ghost use Rattle.gen_plant.specs.Stages.{with_component_at, unit_without_moves, first_components};

use crate::building::{add_component, add_state, add_trans};
use crate::names::{name_of, numbered};
use des_base::{CompId, Memory};
use des_net::Builder;
use std::alloc::Global;

/// Adds the bus, and `units` units.
pub fn add_components(alloc: Global, builder: &mut Builder, units: u32) -> Result<(), Memory>
    requires empty { builder.old ≡ no_net }
    requires few { units ≤ most_units }
    ensures { OnOk result (builder.new ≡ first_components units) }
{
    add_bus(alloc, builder)?;
    for done in 0..units {
        add_unit(alloc, builder, done)?;
    }
    Ok(())
}

#[tactic(auto, unfolding(des_base::specs::Names::is_name_text, des_base::specs::Names::is_name_byte))]
fn add_bus(alloc: Global, builder: &mut Builder) -> Result<(), Memory>
    requires { builder.old ≡ no_net }
    ensures { OnOk result (builder.new ≡ first_components 0) }
{
    let name = name_of(alloc, b"bus")?;
    let comp = add_component(builder, name)?;
    add_bus_parts(alloc, builder, comp)
}

// Adds its state and its action.
#[tactic(auto, unfolding(des_base::specs::Names::is_name_text, des_base::specs::Names::is_name_byte))]
fn add_bus_parts(alloc: Global, builder: &mut Builder, comp: CompId) -> Result<(), Memory>
    requires new { slice_get builder.old.components comp ≡ Some no_component }
    requires few { trans_count builder.old.components < most_transitions }
    ensures { OnOk result (builder.new ≡ with_component_at builder.old comp bus_component) }
{
    add_state(alloc, builder, comp, b"up", true)?;
    add_trans(alloc, builder, comp, 0, b"note", 0)
}

// Adds one more unit to those that are done.
#[tactic(auto, unfolding(des_base::specs::Names::is_name_text, des_base::specs::Names::is_name_byte))]
fn add_unit(alloc: Global, builder: &mut Builder, done: u32) -> Result<(), Memory>
    requires few { done < most_units }
    requires built { builder.old ≡ first_components done }
    ensures { OnOk result (builder.new ≡ first_components (done + 1)) }
{
    let name = numbered(alloc, "u", done + 1)?;
    let comp = add_component(builder, name)?;
    add_unit_states(alloc, builder, comp)?;
    add_unit_moves(alloc, builder, comp)
}

#[tactic(auto, unfolding(des_base::specs::Names::is_name_text, des_base::specs::Names::is_name_byte))]
fn add_unit_states(alloc: Global, builder: &mut Builder, comp: CompId) -> Result<(), Memory>
    requires { slice_get builder.old.components comp ≡ Some no_component }
    ensures { OnOk result (builder.new ≡ with_component_at builder.old comp unit_without_moves) }
{
    add_state(alloc, builder, comp, b"ok", true)?;
    add_state(alloc, builder, comp, b"bad", false)?;
    add_state(alloc, builder, comp, b"off", false)
}

#[tactic(auto, unfolding(des_base::specs::Names::is_name_text, des_base::specs::Names::is_name_byte))]
fn add_unit_moves(alloc: Global, builder: &mut Builder, comp: CompId) -> Result<(), Memory>
    requires new { slice_get builder.old.components comp ≡ Some unit_without_moves }
    requires few { trans_count builder.old.components + 3 ≤ most_transitions }
    ensures { OnOk result (builder.new ≡ with_component_at builder.old comp unit_component) }
{
    add_trans(alloc, builder, comp, 0, b"jam", 1)?;
    add_trans(alloc, builder, comp, 1, b"trip", 2)?;
    add_trans(alloc, builder, comp, 2, b"fix", 0)
}
