// What a search tries if the alarms are *loose*: all of one device, and some in no order. It tries, from the last step back to the first, that no alarm
// passes on an event that it may stand for.
//
// Loose alarms can be matched in many orders, all equally good, and a search by activity goes through them one by one. If the last steps are settled
// first, what is learnt says which alarms are left to the earlier steps, whatever the order of the later ones. No contract says that it is good to
// try this, and these functions have no `ensures`: the solver takes any advice.
ghost use Rattle.std.specs.Prelude.{◌<◌, ◌≤◌, length};

use crate::MOST_TRIES;
use des_base::{CompId, Memory};
use log_encode::LogCode;
use prop_core::Lit;

// Whether all alarms are surely of one device, and two of them have the same deadline, so that no pair orders these.
pub fn are_loose(devices: &[Vec<CompId>], deadlines: &[u32]) -> bool {
    have_one_device(devices) && has_one_twice(deadlines)
}

// Whether the alarms have a component in common.
fn have_one_device(devices: &[Vec<CompId>]) -> bool {
    match devices.first() {
        Some(own) => own
            .iter()
            .any(|comp| devices.iter().all(|others| others.contains(comp))),
        None => false,
    }
}

// Whether a number stands at two places.
fn has_one_twice(numbers: &[u32]) -> bool {
    for place in 0..numbers.len() {
        if numbers[..place].contains(&numbers[place]) {
            return true;
        }
    }
    false
}

// Adds what is tried.
pub fn push_unpassed(code: &LogCode, alarms: u32, tries: &mut Vec<Lit>) -> Result<(), Memory>
    requires { alarms ≤ length code.now.coded.log.alarms }
{
    for step in (0..code.steps()).rev() {
        for alarm in 0..alarms {
            push_unpassed_of(code, alarm, step, tries)?;
        }
    }
    Ok(())
}

// Adds that an alarm passes no event on in a step, as long as there aren't too many.
fn push_unpassed_of(
    code: &LogCode,
    alarm: u32,
    step: u32,
    tries: &mut Vec<Lit>,
) -> Result<(), Memory>
    requires { alarm < length code.now.coded.log.alarms }
{
    for link in 0..u32::MAX {
        match code.unpassed(alarm, link, step) {
            Some(lit) if tries.len() < MOST_TRIES => tries.push(lit)?,
            _ => break,
        }
    }
    Ok(())
}
