//! The least total cost of a run that explains an alarm log, where each fault event has a cost, and a false alarm costs 1.
//!
//! - [`weigh`] writes clauses beside a question that is built, which weigh its faults, each by its cost.
//! - [`cheapest`] asks without a bound, and then with bounds on the total, by halving what is left between a bound that is refuted and
//!   the total of a run that is known. Each bound that is refuted leaves a final clause of negated assumptions in the book.
//!
//! `specs/Costs.antt` says what totals are and what the least one is, and `specs/Drawn.antt` from which families clauses are drawn;
//! `costs_are_told` is the law that the clauses tell exactly that and are of these families.
#![tactic(auto)]

mod asking;
mod laws;
mod question;
mod run_costs;
mod searching;
mod size;
mod weighing;

pub use answers::{Cheap, Priced};
pub use laws::{
    bounds_are_not_stated, costs_are_ruled_out, costs_are_told, costs_are_weights,
    scaled_parts_tell,
};
pub use searching::cheapest;
pub use size::cost_size;
pub use weighing::weigh;
