// The events of the units, one unit after another.
ghost use Rattle.std.specs.Prelude.{◌≡◌, ◌≤◌, ◌<◌, ◌∷◌, [], None, Some, true, false, OnOk};
ghost use Rattle.des_net.specs.Building.{event_refusal, with_event};
ghost use Rattle.des_net.specs.Models.{takes};
ghost use Rattle.gen_plant.specs.Plant.{most_units, plant_net, jam_name, trip_name, fix_name, trip_label, fix_label};
ghost use Rattle.gen_plant.specs.Stages.{AwaitsUnit, with_unit_events, first_components};

use crate::building::add_event;
use crate::names::numbered;
use des_base::{ActionId, CompId, Memory};
use des_net::{Builder, Part};
use std::alloc::Global;

/// Adds the events of `units` units.
pub fn add_events(alloc: Global, builder: &mut Builder, units: u32) -> Result<(), Memory>
    requires few { units ≤ most_units }
    requires built { builder.old ≡ first_components units }
    ensures { OnOk result (builder.new ≡ plant_net units) }
{
    for done in 0..units {
        add_unit_events(alloc, builder, done + 1)?;
    }
    Ok(())
}

fn add_unit_events(alloc: Global, builder: &mut Builder, unit: u32) -> Result<(), Memory>
    requires { AwaitsUnit builder.old unit }
    ensures { OnOk result (builder.new ≡ with_unit_events builder.old unit) }
{
    add_jam(alloc, builder, unit)?;
    add_trip(alloc, builder, unit)?;
    add_fix(alloc, builder, unit)
}

const BUS: CompId = CompId(0);

const NOTE: ActionId = ActionId(0);

const JAM: ActionId = ActionId(0);

const TRIP: ActionId = ActionId(1);

const FIX: ActionId = ActionId(2);

fn part(comp: CompId, action: ActionId) -> Part
    ensures { result ≡ takes comp action }
{
    Part { comp, action }
}

#[tactic(auto, unfolding(des_base::specs::Names::is_name_byte))]
fn add_jam(alloc: Global, builder: &mut Builder, unit: u32) -> Result<(), Memory>
    requires unit { unit < 1000 }
    requires free { event_refusal builder.old (jam_name unit) (takes unit 0 ∷ []) ≡ None }
    ensures { OnOk result (builder.new ≡ with_event builder.old (jam_name unit) (takes unit 0 ∷ []) None true) }
{
    let name = numbered(alloc, "jam-", unit)?;
    add_event(builder, name, &[part(CompId(unit), JAM)], None, true)
}

#[tactic(auto, unfolding(des_base::specs::Names::is_name_byte))]
fn add_trip(alloc: Global, builder: &mut Builder, unit: u32) -> Result<(), Memory>
    requires unit { unit < 1000 }
    requires free { event_refusal builder.old (trip_name unit) (takes unit 1 ∷ takes 0 0 ∷ []) ≡ None }
    ensures { OnOk result (builder.new ≡ with_event builder.old (trip_name unit) (takes unit 1 ∷ takes 0 0 ∷ []) (Some (trip_label unit)) false) }
{
    let name = numbered(alloc, "trip-", unit)?;
    let label = numbered(alloc, "T-", unit)?;
    let parts = [part(CompId(unit), TRIP), part(BUS, NOTE)];
    add_event(builder, name, &parts, Some(label), false)
}

#[tactic(auto, unfolding(des_base::specs::Names::is_name_byte))]
fn add_fix(alloc: Global, builder: &mut Builder, unit: u32) -> Result<(), Memory>
    requires unit { unit < 1000 }
    requires free { event_refusal builder.old (fix_name unit) (takes unit 2 ∷ []) ≡ None }
    ensures { OnOk result (builder.new ≡ with_event builder.old (fix_name unit) (takes unit 2 ∷ []) (Some (fix_label unit)) false) }
{
    let name = numbered(alloc, "fix-", unit)?;
    let label = numbered(alloc, "F-", unit)?;
    add_event(
        builder,
        name,
        &[part(CompId(unit), FIX)],
        Some(label),
        false,
    )
}
