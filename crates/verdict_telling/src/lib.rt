//! The verdicts on all fault events, judged one after another and told one after another.
//!
//! - [`tell_case`] writes the question of a case and tells all of it.
//! - [`tell_whole`] asks what explains a log with the fewest faults, puts the reply, and goes on with the verdicts where there is such a number.
//! - [`tell_verdicts`] judges each fault event of a network in order, and puts the reply on it before the next one is asked about.
//! - [`open_is_small`] is a law: a budget that leaves something open is small beside the variables of the book.
//! - [`VerdictTeller`] is what tells of an event: a judge, and whether some event was left open.
#![tactic(auto)]

mod laws;
mod posing;
mod teller;
mod verdicts;
mod whole;

pub use laws::open_is_small;
pub use posing::tell_case;
pub use teller::VerdictTeller;
pub use verdicts::tell_verdicts;
pub use whole::{Told, tell_whole};
