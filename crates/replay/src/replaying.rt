// Replaying a run against a log.
ghost use Rattle.std.specs.Prelude.{◌≡◌, ◌<◌, ◌≤◌, ◌↔◌, ℕ, not, length, count_by, All, IfOk, IfSome, MatchOption};
ghost use Rattle.des_net.specs.Run.{IsRun};
ghost use Rattle.replay.specs.Traced.{word_of};
ghost use Rattle.replay.specs.Matching.{is_real};
ghost use Rattle.replay.specs.Replayed.{IsReplayed, IsAccepted, HasAlarms, NamesKnown};
ghost use Rattle.replay.specs.declared.TheConstants.{MOST_RUN_STEPS};

use crate::matching::place_alarms;
use crate::placing::Placing;
use crate::run::{Run, RunStep};
use crate::tracing::{Traced, trace};
use crate::width::need;
use des_base::Memory;
use des_net::Network;
use log_order::AlarmLog;
use std::alloc::Global;

/// The result of replaying a run against a log: it explains the log, or the first of the other answers that holds.
#[derive(Clone, Copy)]
pub enum Replayed {
    /// The run explains the log. The faults are the places with a fault event, and the false alarms.
    Accepted { faults: u32 },
    /// The first event that the network can't perform, by its place, counted from 1.
    Stuck { at: u32 },
    /// The place, counted from 1, of the first step whose alarm is wrong: an event that can be seen has none, one that can't
    /// be seen has one, or the alarm isn't in the log, hasn't the event's label or came before; or one is set aside as false
    /// that isn't in the log, isn't doubtful or came before.
    BadAlarm { at: u32 },
    /// The first alarm of the log that the run doesn't name, counted from 0.
    Missing { alarm: u32 },
    /// The first pair of the log whose alarms come the wrong way round.
    Order { first: u32, second: u32 },
    /// The least number of pieces, which is more than there may be.
    TooWide { need: u32 },
}

/// Whether the run, with the alarms that it names, explains the log within `n` pieces, in each of which no two events touch
/// a common component.
pub fn replay(
    alloc: Global,
    net: &Network,
    log: &AlarmLog,
    run: &Run,
    n: u32,
) -> Result<Replayed, Memory>
    requires { All (λ e. e < length net.now.events) (word_of run.now) }
    ensures replayed { IfOk result (IsReplayed net.now log.now run.now n) }
    ensures known { IfOk result (NamesKnown (length log.now.alarms)) }
    ensures accepted { IfOk result (λ replayed. (faults : ℕ) → (replayed ≡ Replayed.Accepted faults) ↔ IsAccepted net.now log.now run.now n faults) }
{
    let faults = match trace(alloc, net, run)? {
        Traced::Stuck { at } => return Ok(Replayed::Stuck { at }),
        Traced::Ran { faults } => faults,
    };
    let steps = run.steps();
    if let Some(wrong) = wrong_alarms(alloc, net, log, steps)? {
        return Ok(wrong);
    }
    let need = need(alloc, net, steps)?;
    if need > n {
        return Ok(Replayed::TooWide { need });
    }
    Ok(Replayed::Accepted {
        faults: faults + count_dropped(steps),
    })
}

// How many steps are false alarms.
fn count_dropped(steps: &[RunStep]) -> u32
    requires { length steps.now ≤ MOST_RUN_STEPS }
    ensures count { result ≡ count_by (λ step. not (is_real step)) steps.now }
    ensures few { result ≤ MOST_RUN_STEPS }
{
    let mut dropped = 0;
    for step in steps {
        if step.is_dropped() {
            dropped += 1;
        }
    }
    dropped
}

// The first that is wrong with the alarms that the steps name.
fn wrong_alarms(
    alloc: Global,
    net: &Network,
    log: &AlarmLog,
    steps: &[RunStep],
) -> Result<Option<Replayed>, Memory>
    requires known { All (λ e. e < length net.now.events) (word_of steps.now) }
    requires few { length steps.now ≤ MOST_RUN_STEPS }
    ensures known { IfOk result (λ wrong. IfSome wrong (NamesKnown (length log.now.alarms))) }
    ensures wrong { IfOk result (λ wrong. MatchOption wrong (HasAlarms net.now log.now steps.now) (λ replayed. (n : ℕ) → IsRun net.now (word_of steps.now) → IsReplayed net.now log.now steps.now n replayed)) }
{
    let mut placing = Placing::new(alloc, log.alarms())?;
    if let Some(at) = place_alarms(&mut placing, net, log, steps)? {
        return Ok(Some(Replayed::BadAlarm { at }));
    }
    if let Some(alarm) = placing.missing() {
        return Ok(Some(Replayed::Missing { alarm }));
    }
    match placing.wrong_pair(log.pairs()) {
        Some((first, second)) => Ok(Some(Replayed::Order { first, second })),
        None => Ok(None),
    }
}
