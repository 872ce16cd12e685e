//! What is asked about a network and a log within a number of parallel steps, and how it is asked.
//!
//! - A [`Case`] is a network, and a log of what was seen of it.
//! - [`pose`] writes the question which runs explain the log into an empty book, and hands it to an [`Inquiry`], which says by its
//!   `says` what its answer means beside the book that is left.
//! - [`LeastFaults`] asks for the least number of faults, [`FormulaWithin`] for the question as a formula, and [`Refutation`] for the
//!   proof that fewer faults won't do.
//! - [`begin`] and [`find_least`] are shared by several inquiries: they write the question, and search for the least number of faults.
//!
//! Each inquiry says what it may be asked of (`may`), and what is left in the book even if memory runs out (`leaves`): for these, the axioms
//! of the question.
#![tactic(auto)]

mod formula;
mod least;
mod question;
mod refutation;
mod refuting;
mod setting_up;

pub use formula::FormulaWithin;
pub use least::{LeastFaults, find_least};
pub use question::{Case, Inquiry, begin, pose};
pub use refutation::{Refutation, Refuted};
pub use setting_up::{NetworkSearch, set_up};
