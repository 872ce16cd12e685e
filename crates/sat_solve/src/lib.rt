//! The search for an assignment that makes clauses and assumptions true, by clause learning.
//!
//! - The clauses are those of a book. Each clause that is learnt goes into the book as a derived entry, and so does the
//!   final clause of a refutation: it holds negations of assumptions alone.
//! - Assumptions are decided first, then in a long search the literals that were given to be tried, then variables: of those that took part in conflicts the most active, then the others by their order. A conflict with a decision above the assumptions is a
//!   *further* conflict; each that is learnt from lowers the budget by one, and none is learnt from where nothing is left.
//! - Between two searches the trail stands at level 0.
#![tactic(auto)]

mod activity;
mod advice;
mod answer;
mod assumptions;
mod backtracking;
mod deciding;
mod finishing;
mod first_tries;
mod heap;
mod laws;
mod levels;
mod marks;
mod refuting;
mod restarts;
mod search;
mod solver;

pub use answer::Answer;
pub use laws::variables_are_ordered;
pub use solver::Solver;
