//! The least number of faults that explains an alarm log, by a search upwards from 0 with evidence in a book.
//!
//! - [`build`] writes the clauses of a question into a book: the steps of a network, its log, and a counter of its faults. It advises the solver by the
//!   deadlines of the log's alarms, and so does [`advise`] when the log has grown.
//! - [`reserve_draft`] and [`add_draft`] add an alarm or a pair of alarms to a question that is built: all memory is taken first.
//! - [`bound`] gives the literal for at most k faults, and adds the columns that the counter lacks for it.
//! - [`assumptions`] are what is assumed within a bound.
//! - [`least`] asks without a bound, and then with the bounds 0, 1 and so on, as long as a run that is known has more faults.
//!   Each bound that is refuted leaves a final clause of negated assumptions in the book.
#![tactic(auto)]

mod adding;
mod asking;
mod bounding;
mod building;
mod deadlines;
mod encode;
mod laws;
mod loose;
mod parts;
mod question;
mod scattered;
mod searching;

pub use adding::{Reserved, add_draft, reserve_draft};
pub use answers::{Best, Found};
pub use asking::assumptions;
pub use bounding::bound;
pub use building::build;
pub use deadlines::advise;
pub use laws::undecided_is_small;
pub use parts::{Parts, Unbuilt};
pub use question::Question;
pub use searching::least;

/// The size of the largest question that is built.
pub const MOST_SIZE: u64 = 20_000_000;

/// How many literals a search is advised to try at most.
pub const MOST_TRIES: usize = 100_000;
