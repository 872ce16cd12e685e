// A generated plant, made from its number.
ghost use Rattle.std.specs.Prelude.{◌≡◌, ◌≤◌, length, IfOk, OnOk};
ghost use Rattle.des_net.specs.Network.{no_net};
ghost use Rattle.gen_plant.specs.Plant.{most_units, plant_net, plant_log, tripping};
ghost use Rattle.model_text.specs.ReadBack.{IsAsRead};

use crate::alarms::add_alarms;
use crate::events::add_events;
use crate::units::add_components;
use des_base::Memory;
use des_net::{Builder, Network};
use log_order::AlarmLog;
use std::alloc::Global;

/// A generated plant.
#[derive(Drop)]
pub struct Plant {
    pub net: Network,
    /// An alarm of each unit that trips, and each before the next.
    pub log: AlarmLog,
    /// How many units trip.
    pub tripped: u32,
}

/// The plant of `units` units, some of which trip, as follows from the start. Its network is like one that was read (`as_read`), so
/// the text that is printed of it reads back as that network.
pub fn generate(alloc: Global, units: u32, start: u64) -> Result<Plant, Memory>
    requires { units ≤ most_units }
    ensures net { IfOk result (λ plant. plant.net ≡ plant_net units) }
    ensures as_read { IfOk result (λ plant. IsAsRead plant.net) }
    ensures log { IfOk result (λ plant. plant.log ≡ plant_log units start) }
    ensures tripped { IfOk result (λ plant. plant.tripped ≡ length (tripping units start)) }
{
    let net = make_net(alloc, units)?;
    let log = make_log(alloc, units, start)?;
    let tripped = log.alarms();
    Ok(Plant { net, log, tripped })
}

fn make_net(alloc: Global, units: u32) -> Result<Network, Memory>
    requires { units ≤ most_units }
    ensures { IfOk result (λ net. net ≡ plant_net units) }
{
    let mut builder = Builder::new(alloc);
    build(alloc, &mut builder, units)?;
    match builder.finish() {
        Ok(net) => Ok(net),
        Err(_) => unreachable!(),
    }
}

fn build(alloc: Global, builder: &mut Builder, units: u32) -> Result<(), Memory>
    requires empty { builder.old ≡ no_net }
    requires few { units ≤ most_units }
    ensures { OnOk result (builder.new ≡ plant_net units) }
{
    add_components(alloc, builder, units)?;
    add_events(alloc, builder, units)
}

fn make_log(alloc: Global, units: u32, start: u64) -> Result<AlarmLog, Memory>
    requires { units ≤ most_units }
    ensures { IfOk result (λ log. log ≡ plant_log units start) }
{
    let mut log = AlarmLog::new(alloc);
    add_alarms(alloc, &mut log, units, start)?;
    Ok(log)
}
