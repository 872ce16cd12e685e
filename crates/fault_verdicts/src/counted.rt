// What a search about a fault event tries first: how many faults are counted up to each event.
//
// The run that is asked for has as many faults as the known one, and the counter goes through the fault events in order. A search that first settles how many
// faults are counted up to each event splits the others into those before the event in question and those behind it. What it learns speaks of counts and
// not of that event, so it serves the questions about later events too; a search by activity refutes each event anew. No contract says that it is good to
// try this, and the functions that choose it have no `ensures`: the solver takes any advice.
ghost use Rattle.std.specs.Prelude.{◌≡◌};

use crate::listing::fault_list;
use des_base::Memory;
use des_net::Network;
use least_faults::{MOST_TRIES, Parts};
use prop_core::Lit;
use std::alloc::Global;

// Advises the solver on questions beside a run with this many faults. If memory runs out, there is no advice.
pub fn advise<R: Fn(u32) -> u64>(
    alloc: Global,
    net: &Network,
    parts: &mut Parts<R>,
    faults: u32,
) -> Result<(), Memory>
    ensures { parts.new ≡ parts.old }
{
    let tries = tries_within(alloc, net, parts, faults)?;
    parts.solver.try_further(tries.as_slice())
}

// What is tried, a column for each number of faults: that fewer are counted up to an event, the last event first. Of the last number it is tried that all are
// counted up to an event, the first event first.
fn tries_within<R: Fn(u32) -> u64>(
    alloc: Global,
    net: &Network,
    parts: &Parts<R>,
    faults: u32,
) -> Result<Vec<Lit>, Memory> {
    let events = fault_list(alloc, net)?;
    let mut tries = Vec::new(alloc);
    for column in 0..faults.min(parts.counter.columns()) {
        push_column(
            parts,
            events.len(),
            column,
            column + 1 == faults,
            &mut tries,
        )?;
    }
    Ok(tries)
}

// Adds what is tried of a column, for each of this many fault events.
fn push_column<R: Fn(u32) -> u64>(
    parts: &Parts<R>,
    events: usize,
    column: u32,
    is_final: bool,
    tries: &mut Vec<Lit>,
) -> Result<(), Memory> {
    for number in 0..events {
        let event = if is_final {
            number
        } else {
            events - 1 - number
        };
        if let Some(reached) = counted_up_to(parts, event, column) {
            push_tried(if is_final { reached } else { reached.negated() }, tries)?;
        }
    }
    Ok(())
}

// Adds a literal as long as there aren't too many.
fn push_tried(lit: Lit, tries: &mut Vec<Lit>) -> Result<(), Memory> {
    if tries.len() < MOST_TRIES {
        tries.push(lit)?;
    }
    Ok(())
}

// The literal that the faults up to an event, of the fault events in their order, are more than a column's number. None: there is no step.
fn counted_up_to<R>(parts: &Parts<R>, event: usize, column: u32) -> Option<Lit> {
    let steps = parts.step.grid().steps as usize;
    let last = event.checked_add(1)?.checked_mul(steps)?.checked_sub(1)?;
    parts.counter.reached(last, column)
}
