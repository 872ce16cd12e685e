//! Propositional logic as the solver, the ledger and the encoders speak it: literals, clauses by number, assignments,
//! and what it is to derive a clause.
//!
//! - A *literal* is a variable or its negation; a *clause* is a list of literals, of which one at least has to be true.
//! - Clauses are numbered from 1, in the order in which they were pushed. Room for clauses can be reserved ahead, so that
//!   a later push can't fail.
//! - A clause *derives* from numbered clauses by hints where unit propagation along the hints, begun with the clause's
//!   negation, ends in a false clause. A derived clause is true wherever the clauses that are held are.
#![tactic(auto)]

mod assignment;
mod clauses;
mod grid;
mod laws;
mod lit;
mod pieces;
mod vars;

pub use assignment::Assignment;
pub use clauses::{ClauseId, Clauses};
pub use grid::Grid;
pub use laws::{
    assignments_match, derived_clauses_are_true, grids_are_injective, listed_are_code,
    listed_are_equal, listed_are_written, values_match,
};
pub use lit::Lit;
pub use pieces::Pieces;
pub use vars::Vars;
