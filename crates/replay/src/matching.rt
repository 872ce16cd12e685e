// How the steps of a run are matched to the alarms of a log.
ghost use Rattle.std.specs.Prelude.{◌≡◌, ◌<◌, ◌≤◌, ◌++◌, length, All, IfOk, IfSome, true, None};
ghost use Rattle.std.specs.Option.{option_to_list};
ghost use Rattle.des_base.specs.Names.{place_of};
ghost use Rattle.log_order.specs.Adding.{names_of};
ghost use Rattle.replay.specs.Traced.{event_of, word_of};
ghost use Rattle.replay.specs.Matching.{alarms_on, suits, suits_name, suits_alone, with_step, bad_alarm};
ghost use Rattle.replay.specs.Placed.{none_placed};
ghost use Rattle.replay.specs.declared.TheConstants.{MOST_RUN_STEPS};

use crate::placing::Placing;
use crate::run::RunStep;
use des_base::{Memory, Name};
use des_net::Network;
use log_order::{AlarmLog, has_label};

// Gives the alarm of this name its place, if it is there, may stand for the label and has none yet. Returns whether it did.
fn place_alarm(
    placing: &mut Placing,
    log: &AlarmLog,
    label: &Name,
    name: &Name,
) -> Result<bool, Memory>
    requires { placing.old.alarms ≡ length log.now.alarms }
    ensures suits { IfOk result (λ suits. suits ≡ suits_name log.now placing.old.order label.now name.now) }
    ensures placed { IfOk result (λ suits. suits ≡ true → placing.new ≡ record placing.old { order = placing.old.order ++ option_to_list (place_of name.now (names_of log.now.alarms)) }) }
{
    let Some(alarm) = log.find(name.as_str().as_bytes()) else {
        return Ok(false);
    };
    if !has_label(log.labels(alarm), label) || placing.has(alarm) {
        return Ok(false);
    }
    placing.push(alarm)?;
    Ok(true)
}

// Gives the alarm of this name its place, if it is there, is doubtful and has none yet. Returns whether it did.
fn place_alone(placing: &mut Placing, log: &AlarmLog, name: &Name) -> Result<bool, Memory>
    requires { placing.old.alarms ≡ length log.now.alarms }
    ensures suits { IfOk result (λ suits. suits ≡ suits_alone log.now placing.old.order name.now) }
    ensures placed { IfOk result (λ suits. suits ≡ true → placing.new ≡ record placing.old { order = placing.old.order ++ option_to_list (place_of name.now (names_of log.now.alarms)) }) }
{
    let Some(alarm) = log.find(name.as_str().as_bytes()) else {
        return Ok(false);
    };
    if !log.is_maybe(alarm) || placing.has(alarm) {
        return Ok(false);
    }
    placing.push(alarm)?;
    Ok(true)
}

// Gives the step's alarm its place if it suits the step. Returns whether it does; an event that can't be seen and has no alarm suits too.
fn place_step(
    placing: &mut Placing,
    net: &Network,
    log: &AlarmLog,
    step: &RunStep,
) -> Result<bool, Memory>
    requires event { IfSome (event_of step.now) (λ e. e < length net.now.events) }
    requires alarms { placing.old.alarms ≡ length log.now.alarms }
    ensures suits { IfOk result (λ good. good ≡ suits net.now log.now placing.old.order step.now) }
    ensures placed { IfOk result (λ good. good ≡ true → placing.new ≡ record placing.old { order = with_step log.now placing.old.order step.now }) }
{
    match step {
        RunStep::Happens { event, alarm } => match (net.label(*event), alarm) {
            (Some(label), Some(name)) => place_alarm(placing, log, label, name),
            (None, None) => Ok(true),
            _ => Ok(false),
        },
        RunStep::Dropped { alarm } => place_alone(placing, log, alarm),
    }
}

/// Gives the alarms of the steps their places, up to the first step whose alarm doesn't suit its event. Returns the place of that
/// step, counted from 1.
pub fn place_alarms(
    placing: &mut Placing,
    net: &Network,
    log: &AlarmLog,
    steps: &[RunStep],
) -> Result<Option<u32>, Memory>
    requires known { All (λ e. e < length net.now.events) (word_of steps.now) }
    requires few { length steps.now ≤ MOST_RUN_STEPS }
    requires none { placing.old ≡ none_placed (length log.now.alarms) }
    ensures bad { IfOk result (λ bad. bad ≡ bad_alarm net.now log.now steps.now) }
    ensures placed { IfOk result (λ bad. bad ≡ None → placing.new ≡ record placing.old { order = alarms_on log.now steps.now }) }
{
    for (i, step) in steps.iter().enumerate() {
        if !place_step(placing, net, log, step)? {
            return Ok(Some(i as u32 + 1));
        }
    }
    Ok(None)
}
