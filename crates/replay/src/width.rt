// How many pieces a run takes.
ghost use Rattle.std.specs.Prelude.{◌≡◌, ◌<◌, ◌≤◌, ◌==◌, ◌+◌, ◌++◌, ℕ, length, All, IfOk, OnOk, slice_index, if◌then◌else◌};
ghost use Rattle.std.specs.List.{list_any};
ghost use Rattle.des_net.specs.Network.{has_part};
ghost use Rattle.des_net.specs.Width.{need};
ghost use Rattle.std.specs.Option.{option_to_list};
ghost use Rattle.replay.specs.Traced.{event_of, word_of};
ghost use Rattle.replay.specs.declared.TheConstants.{MOST_RUN_STEPS};

use crate::run::RunStep;
use des_base::{EventId, Memory};
use des_net::{Network, Part};
use std::alloc::Global;

/// The least number of pieces that the run takes, in each of which no two events touch a common component.
///
/// For each component it keeps the last piece in which it was touched. An event goes into the present piece, or begins
/// the next one where it touches what was touched in the present one.
pub fn need(alloc: Global, net: &Network, steps: &[RunStep]) -> Result<u32, Memory>
    requires known { All (λ e. e < length net.now.events) (word_of steps.now) }
    requires few { length steps.now ≤ MOST_RUN_STEPS }
    ensures { IfOk result (λ pieces. pieces ≡ need net.now (word_of steps.now)) }
{
    let events = events_of(alloc, steps)?;
    pieces_of(alloc, net, events.as_slice())
}

// The events of the steps, in order.
fn events_of(alloc: Global, steps: &[RunStep]) -> Result<Vec<EventId>, Memory>
    ensures events { IfOk result (λ events. events.items ≡ word_of steps.now) }
    ensures few { IfOk result (λ events. length events.items ≤ length steps.now) }
{
    let mut events = Vec::new(alloc);
    for step in steps {
        push_event(&mut events, step)?;
    }
    Ok(events)
}

fn push_event(events: &mut Vec<EventId>, step: &RunStep) -> Result<(), Memory>
    ensures { OnOk result (events.new.items ≡ events.old.items ++ option_to_list (event_of step.now)) }
{
    if let Some(event) = step.event() {
        events.push(event)?;
    }
    Ok(())
}

// The least number of pieces that the events take.
fn pieces_of(alloc: Global, net: &Network, events: &[EventId]) -> Result<u32, Memory>
    requires known { All (λ e. e < length net.now.events) events.now }
    requires few { length events.now ≤ MOST_RUN_STEPS }
    ensures { IfOk result (λ pieces. pieces ≡ need net.now events.now) }
{
    let mut last = vec![in alloc; 0u32; net.components() as usize]?;
    let mut pieces = 0u32;
    for number in events {
        let event = net.event(*number);
        pieces = take_event(&mut last, event.parts.as_slice(), pieces);
    }
    Ok(pieces)
}

// Puts an event with these parts into the present piece, or if it can't be there into the next one, and returns which is present then.
fn take_event(last: &mut Vec<u32>, parts: &[Part], pieces: u32) -> u32
    requires known { All (λ part. part.comp < length last.old.items) parts.now }
    requires few { pieces ≤ MOST_RUN_STEPS }
    ensures piece { result ≡ (if list_any (λ part. slice_index last.old.items part.comp == pieces) parts.now then pieces + 1 else pieces) }
    ensures touched { (c : ℕ) → slice_index last.new.items c ≡ (if has_part parts.now c then result else slice_index last.old.items c) }
    ensures long { length last.new.items ≡ length last.old.items }
{
    let piece = if meets(last.as_slice(), parts, pieces) {
        pieces + 1
    } else {
        pieces
    };
    touch(last, parts, piece);
    piece
}

// Whether a part's component was last touched in this piece.
fn meets(last: &[u32], parts: &[Part], piece: u32) -> bool
    requires { All (λ part. part.comp < length last.now) parts.now }
    ensures { result ≡ list_any (λ part. slice_index last.now part.comp == piece) parts.now }
{
    for part in parts {
        if last[part.comp.0 as usize] == piece {
            return true;
        }
    }
    false
}

// The parts' components were last touched in this piece.
fn touch(last: &mut Vec<u32>, parts: &[Part], piece: u32)
    requires { All (λ part. part.comp < length last.old.items) parts.now }
    ensures touched { (c : ℕ) → slice_index last.new.items c ≡ (if has_part parts.now c then piece else slice_index last.old.items c) }
    ensures long { length last.new.items ≡ length last.old.items }
{
    for part in parts {
        last[part.comp.0 as usize] = piece;
    }
}
