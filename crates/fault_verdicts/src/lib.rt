//! Whether a fault event happened for certain, possibly, or not at all, by all explanations with the least number of faults.
//!
//! - [`verdict`] asks one question about one fault event beside a question that is built and a best run that is known: for a best
//!   run without the event, or for one with it.
//! - [`Judge`] does so for one event after another, over one book, and asks nothing if a run that was found before shows that an
//!   event is possible.
//! - A final entry of negated assumptions shows that an event is certain or excluded, and a run that it is possible.
#![tactic(auto)]

mod assuming;
mod counted;
mod judge;
mod judging;
mod kept;
mod laws;
mod listing;
mod literals;
mod others;

pub use answers::Verdict;
pub use judge::Judge;
pub use judging::verdict;
pub use laws::{events_are_posed, verdicts_are_apart};
pub use listing::fault_list;
