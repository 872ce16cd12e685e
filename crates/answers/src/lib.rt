//! What is found of a question, as values: beside the searches, so that whoever prints an answer stands on none of them.
//!
//! - [`Found`], of the least number of faults, with a run that is the [`Best`] that is known.
//! - [`Verdict`], of a fault event.
//! - [`Cheap`], of the least total cost, with a run that is [`Priced`].
//! - [`Twin`], of two runs that look alike.
//!
//! The crate that searches for an answer says what it means and what shows it, and re-exports the type: `least_faults`, `fault_verdicts`,
//! `cost_least` and `twin_test`.
#![tactic(auto)]

mod cheap;
mod found;
mod twin;
mod verdict;

pub use cheap::{Cheap, Priced};
pub use found::{Best, Found};
pub use twin::Twin;
pub use verdict::Verdict;
