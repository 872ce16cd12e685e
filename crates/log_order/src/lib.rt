//! Alarm logs: alarms with an id and labels, certain or doubtful, and pairs of alarms, "the first before the second".
//!
//! A log is always valid: some order of all alarms, each once, keeps every pair. An `AlarmLog` refuses what would break
//! this, what is there already and what passes a limit, and then changes nothing. Contracts see it as a record of lists
//! (`Log`), in which an alarm is its place. What a valid log is stands in `specs/Log.antt`, what each call refuses and adds
//! in `specs/Adding.antt`, and the order of the smallest free alarms in `specs/Order.antt`.
#![tactic(auto)]

mod alarm;
mod alarm_log;
mod certainty;
mod marks;
mod order;
mod precedence;
mod refusal;

pub use alarm::{each_once, has_label};
pub use alarm_log::AlarmLog;
pub use certainty::Certainty;
pub use refusal::LogRefusal;

/// The most alarms that a log may have.
pub const MOST_ALARMS: usize = 2_000;

/// The most labels that may be given for one alarm.
pub const MOST_LABELS: usize = 64;

/// The most pairs that a log may have.
pub const MOST_PAIRS: usize = 20_000;
