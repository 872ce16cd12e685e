// The deadlines of alarms: the numbers of steps within which they have to be done.
//
// Events that touch the same component never share a step. Say the first alarm of a pair and the second are both certain, and every event that
// either may stand for touches one component: then the first is done at least a step before the second. In a long chain of such pairs few steps
// are left to each alarm. A search finds that out slowly: it matches alarms here and there, and learns little from each conflict. But try that an
// alarm misses its deadline, while those behind it keep theirs: propagation (almost) alone refutes it, and the clause that is learnt is short. So
// the solver is advised to try that first. No contract says that the advice is good, and the functions that only choose what is tried have no
// `ensures`: the solver takes any advice.
ghost use Rattle.std.specs.Prelude.{◌≡◌, ◌<◌, length, IfOk, OnOk};
ghost use Rattle.std.specs.List.{AllByRecursion};
ghost use Rattle.least_faults.specs.Parts.{BelongTo};
ghost use Rattle.least_faults.specs.Trying.{IsCodeFor};
ghost use Rattle.log_order.specs.Log.{AreKnown};

use crate::loose::{are_loose, push_unpassed};
use crate::parts::Parts;
use crate::question::Question;
use des_base::{CompId, EventId, Memory};
use des_net::Network;
use log_encode::LogCode;
use log_order::AlarmLog;
use prop_core::Lit;
use std::alloc::Global;

/// Advises the solver by the deadlines of the log as it is now. `build` does so too: call it when alarms or pairs were added.
///
/// No answer depends on it, but how soon one comes.
pub fn advise<R: Fn(u32) -> u64>(
    alloc: Global,
    net: &Network,
    log: &AlarmLog,
    parts: &mut Parts<R>,
) -> Result<(), Memory>
    requires { BelongTo net.now log.now parts.old }
    ensures { parts.new ≡ parts.old }
{
    let missed = missed_deadlines(Question { net, log, alloc }, &parts.code)?;
    parts.solver.try_first(missed);
    Ok(())
}

// What to try: for each alarm whose deadline comes before the last step, that it misses its deadline, the last alarm in the order first. Behind these
// stands what is tried of loose alarms, if they are loose.
pub fn missed_deadlines(question: Question<'_>, code: &LogCode) -> Result<Vec<Lit>, Memory>
    requires { IsCodeFor question.net.now question.log.now code.now.coded }
{
    let mut order = Vec::new(question.alloc);
    question.log.order(&mut order)?;
    let devices = devices(question, code)?;
    let deadlines = deadlines(question, devices.as_slice(), order.as_slice(), code.steps())?;
    let mut missed = Vec::new(question.alloc);
    for place in (0..order.len()).rev() {
        let alarm = order[place];
        let deadline = deadlines[alarm as usize];
        if deadline < code.steps() {
            missed.push(code.undone(alarm, deadline))?;
        }
    }
    if are_loose(devices.as_slice(), deadlines.as_slice()) {
        push_unpassed(code, question.log.alarms(), &mut missed)?;
    }
    Ok(missed)
}

// The deadline of each alarm, if all have to be done within `steps` steps. The order keeps all pairs.
fn deadlines(
    question: Question<'_>,
    devices: &[Vec<CompId>],
    order: &[u32],
    steps: u32,
) -> Result<Vec<u32>, Memory>
    requires devices { length devices.now ≡ length question.log.now.alarms }
    requires order { AllByRecursion (λ alarm. alarm < length question.log.now.alarms) order.now }
    ensures { IfOk result (λ deadlines. length deadlines.items ≡ length question.entry.log.now.alarms) }
{
    let earlier = earlier_alarms(question)?;
    let mut deadlines = vec![in question.alloc; steps; devices.len()]?;
    for place in (0..order.len()).rev() {
        let second = order[place] as usize;
        hasten(&earlier[second], devices, second, deadlines.as_mut_slice());
    }
    Ok(deadlines)
}

// For each alarm, those that a pair puts before it.
fn earlier_alarms(question: Question<'_>) -> Result<Vec<Vec<u32>>, Memory>
    ensures { IfOk result (λ earlier. length earlier.items ≡ length question.entry.log.now.alarms) }
{
    question.log.is_whole();
    let mut earlier = no_alarms(question.alloc, question.log.alarms())?;
    put_earlier(question.log.pairs(), &mut earlier)?;
    Ok(earlier)
}

// A list of no alarms, for each alarm.
fn no_alarms(alloc: Global, alarms: u32) -> Result<Vec<Vec<u32>>, Memory>
    ensures { IfOk result (λ lists. length lists.items ≡ alarms) }
{
    let mut lists = Vec::new(alloc);
    for _ in 0..alarms {
        lists.push(Vec::new(alloc))?;
    }
    Ok(lists)
}

// Puts the first alarm of each pair into the list of its second one.
fn put_earlier(pairs: &[(u32, u32)], earlier: &mut Vec<Vec<u32>>) -> Result<(), Memory>
    requires { AreKnown (length earlier.old.items) pairs.now }
    ensures { OnOk result (length earlier.new.items ≡ length earlier.old.items) }
{
    for (first, second) in pairs {
        earlier[*second as usize].push(*first)?;
    }
    Ok(())
}

// Brings forward the deadlines of those that a pair puts before an alarm: to its own, or a step before it if events of both never share a step.
fn hasten(earlier: &[u32], devices: &[Vec<CompId>], second: usize, deadlines: &mut [u32])
    requires second { second < length deadlines.old }
    requires devices { length devices.now ≡ length deadlines.old }
{
    let deadline = deadlines[second];
    for first in earlier {
        let first = *first as usize;
        if first < deadlines.len() {
            let latest = if meet(&devices[first], &devices[second]) {
                deadline.saturating_sub(1)
            } else {
                deadline
            };
            deadlines[first] = deadlines[first].min(latest);
        }
    }
}

// Whether the two have a component in common.
fn meet(first: &[CompId], second: &[CompId]) -> bool {
    first.iter().any(|comp| second.contains(comp))
}

// For each alarm, the components that every event it may stand for touches: none if it is doubtful.
pub fn devices(question: Question<'_>, code: &LogCode) -> Result<Vec<Vec<CompId>>, Memory>
    requires { IsCodeFor question.net.now question.log.now code.now.coded }
    ensures { IfOk result (λ devices. length devices.items ≡ length question.entry.log.now.alarms) }
{
    let mut devices = Vec::new(question.alloc);
    for alarm in 0..question.log.alarms() {
        devices.push(devices_of(question, code, alarm)?)?;
    }
    Ok(devices)
}

fn devices_of(question: Question<'_>, code: &LogCode, alarm: u32) -> Result<Vec<CompId>, Memory>
    requires code { IsCodeFor question.net.now question.log.now code.now.coded }
    requires alarm { alarm < length question.log.now.alarms }
{
    match code.linked(alarm, 0) {
        Some(event) if !question.log.is_maybe(alarm) => touched(question, code, alarm, event),
        _ => Ok(Vec::new(question.alloc)),
    }
}

// The components of an event that every event the alarm may stand for touches.
fn touched(
    question: Question<'_>,
    code: &LogCode,
    alarm: u32,
    event: EventId,
) -> Result<Vec<CompId>, Memory>
    requires code { IsCodeFor question.net.now question.log.now code.now.coded }
    requires alarm { alarm < length question.log.now.alarms }
    requires event { event < length question.net.now.events }
{
    let mut touched = Vec::new(question.alloc);
    for part in question.net.event(event).parts.as_slice() {
        if is_touched_by_each(question.net, code, alarm, part.comp) {
            touched.push(part.comp)?;
        }
    }
    Ok(touched)
}

// Whether every event the alarm may stand for touches the component.
fn is_touched_by_each(net: &Network, code: &LogCode, alarm: u32, comp: CompId) -> bool
    requires net { code.now.coded.net ≡ net.now }
    requires alarm { alarm < length code.now.coded.log.alarms }
{
    for link in 0..u32::MAX {
        match code.linked(alarm, link) {
            Some(event) if net.touches(event, comp) => {}
            Some(_) => return false,
            None => break,
        }
    }
    true
}
