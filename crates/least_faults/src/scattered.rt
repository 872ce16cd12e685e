// What a search within a bound tries if the alarms are *scattered*: most may be of several devices, and few are in an order. It tries, from the last device
// back to the first and from the last step back to the first, that no alarm passes on an event whose first device is this one.
//
// The counter goes through the fault events in order. So a search that settles the last devices first soon knows how many faults are left to the others,
// and what it learns says which alarms are left to them. A search by activity goes through all ways to share the alarms out among the devices. Without a
// bound nothing is counted, and this order would only be in the way. No contract says that it is good to try this, and the functions that choose it have
// no `ensures`: the solver takes any advice.
ghost use Rattle.std.specs.Prelude.{◌≡◌, ◌<◌, ◌≤◌, length};
ghost use Rattle.least_faults.specs.Parts.{BelongTo};
ghost use Rattle.least_faults.specs.Trying.{IsCodeFor};

use crate::MOST_TRIES;
use crate::deadlines::{devices, missed_deadlines};
use crate::parts::Parts;
use crate::question::Question;
use des_base::{CompId, EventId, Memory};
use des_net::Network;
use log_encode::LogCode;
use prop_core::Lit;

// An event that an alarm may stand for: the alarm, and the number of the event among those.
#[derive(Clone, Copy)]
struct Link {
    alarm: u32,
    number: u32,
}

// Advises the solver on what it searches within bounds, if alarms are scattered. If memory runs out, it goes on without advice.
pub fn advise_within<R: Fn(u32) -> u64>(question: Question<'_>, parts: &mut Parts<R>)
    requires { BelongTo question.net.now question.log.now parts.old }
    ensures { parts.new ≡ parts.old }
{
    if let Ok(Some(tries)) = tries_within(question, &parts.code) {
        parts.solver.try_first(tries);
    }
}

// What is tried, the missed deadlines first: none if alarms aren't scattered.
fn tries_within(question: Question<'_>, code: &LogCode) -> Result<Option<Vec<Lit>>, Memory>
    requires { IsCodeFor question.net.now question.log.now code.now.coded }
{
    let devices = devices(question, code)?;
    if !are_scattered(question, devices.as_slice()) {
        return Ok(None);
    }
    let mut tries = missed_deadlines(question, code)?;
    push_by_device(question, code, &mut tries)?;
    Ok(Some(tries))
}

// Whether more than half of the alarms are certain and of no one device for sure, and there are at most a quarter as many pairs as alarms.
fn are_scattered(question: Question<'_>, devices: &[Vec<CompId>]) -> bool
    requires { length devices.now ≡ length question.log.now.alarms }
{
    let alarms = question.log.alarms();
    let mut scattered = 0_u32;
    for alarm in 0..alarms {
        if devices[alarm as usize].is_empty() && !question.log.is_maybe(alarm) {
            scattered = scattered.saturating_add(1);
        }
    }
    scattered > alarms / 2 && question.log.pairs().len() < alarms as usize / 4 + 1
}

// Adds what is tried, as long as there aren't too many.
fn push_by_device(
    question: Question<'_>,
    code: &LogCode,
    tries: &mut Vec<Lit>,
) -> Result<(), Memory>
    requires { IsCodeFor question.net.now question.log.now code.now.coded }
{
    let links = links_by_device(question, code)?;
    for place in (0..links.len()).rev() {
        push_steps(&links[place], code, question.log.alarms(), tries)?;
    }
    Ok(())
}

// Adds what is tried of one device.
fn push_steps(
    links: &[Link],
    code: &LogCode,
    alarms: u32,
    tries: &mut Vec<Lit>,
) -> Result<(), Memory>
    requires { alarms ≤ length code.now.coded.log.alarms }
{
    for step in (0..code.steps()).rev() {
        for link in links {
            if link.alarm < alarms && tries.len() < MOST_TRIES {
                if let Some(lit) = code.unpassed(link.alarm, link.number, step) {
                    tries.push(lit)?;
                }
            }
        }
    }
    Ok(())
}

// For each device, the links of the events whose first device it is.
fn links_by_device(question: Question<'_>, code: &LogCode) -> Result<Vec<Vec<Link>>, Memory>
    requires { IsCodeFor question.net.now question.log.now code.now.coded }
{
    let mut links = Vec::new(question.alloc);
    for _ in 0..question.net.components() {
        links.push(Vec::new(question.alloc))?;
    }
    for alarm in 0..question.log.alarms() {
        push_device_links(question.net, code, alarm, &mut links)?;
    }
    Ok(links)
}

// Adds the links of an alarm.
fn push_device_links(
    net: &Network,
    code: &LogCode,
    alarm: u32,
    links: &mut [Vec<Link>],
) -> Result<(), Memory>
    requires net { code.now.coded.net ≡ net.now }
    requires alarm { alarm < length code.now.coded.log.alarms }
{
    for number in 0..u32::MAX {
        match code.linked(alarm, number) {
            Some(event) => {
                if let Some(device) = first_device(net, event) {
                    push_link(Link { alarm, number }, device, links)?;
                }
            }
            None => break,
        }
    }
    Ok(())
}

// Adds a link to those of a device.
fn push_link(link: Link, device: CompId, links: &mut [Vec<Link>]) -> Result<(), Memory> {
    if let Some(own) = links.get_mut(device.0 as usize) {
        own.push(link)?;
    }
    Ok(())
}

// The device with the least number of those that an event touches. None: it touches none.
fn first_device(net: &Network, event: EventId) -> Option<CompId>
    requires { event < length net.now.events }
{
    let parts = net.event(event).parts.as_slice();
    let first = parts.iter().map(|part| part.comp.0).min()?;
    Some(CompId(first))
}
