// The alarms of the units that trip, in a row.
ghost use Rattle.std.specs.Prelude.{◌≡◌, ◌≤◌, ◌<◌, ◌%◌, ◌==◌, if◌then◌else◌, OnOk};
ghost use Rattle.log_order.specs.Log.{no_log};
ghost use Rattle.gen_plant.specs.Plant.{most_units, plant_log};
ghost use Rattle.gen_plant.specs.Stages.{AwaitsAlarm, with_tripped};

use crate::logging::{add_alarm, add_before};
use crate::names::numbered;
use crate::numbers::{first_number, number_after};
use des_base::Memory;
use log_order::AlarmLog;
use std::alloc::Global;

/// Adds the alarms of those of the first `units` units that trip, and a pair from each alarm to the next.
pub fn add_alarms(alloc: Global, log: &mut AlarmLog, units: u32, start: u64) -> Result<(), Memory>
    requires few { units ≤ most_units }
    requires empty { log.old ≡ no_log }
    ensures { OnOk result (log.new ≡ plant_log units start) }
{
    let mut number = first_number(start);
    for done in 0..units {
        number = number_after(number);
        add_if_tripped(alloc, log, done + 1, number)?;
    }
    Ok(())
}

// Adds what a unit of this number has in the log.
fn add_if_tripped(alloc: Global, log: &mut AlarmLog, unit: u32, number: u32) -> Result<(), Memory>
    requires { AwaitsAlarm log.old unit }
    ensures { OnOk result (log.new ≡ (if number % 4 == 0 then with_tripped log.old unit else log.old)) }
{
    if number % 4 == 0 {
        add_tripped(alloc, log, unit)
    } else {
        Ok(())
    }
}

// Adds the alarm of a unit, and the pair that puts the alarm before it first.
#[tactic(auto, unfolding(des_base::specs::Names::is_name_byte))]
fn add_tripped(alloc: Global, log: &mut AlarmLog, unit: u32) -> Result<(), Memory>
    requires { AwaitsAlarm log.old unit }
    ensures { OnOk result (log.new ≡ with_tripped log.old unit) }
{
    let id = numbered(alloc, "a", unit)?;
    let label = numbered(alloc, "T-", unit)?;
    let alarm = add_alarm(log, id, label)?;
    if alarm == 0 {
        return Ok(());
    }
    add_before(log, alarm - 1, alarm)
}
