//! Counting with weights, in clauses: how much the inputs that are true weigh together, up to a number of amounts.
//!
//! After the sequential counter of Sinz, "Towards an optimal CNF encoding of Boolean cardinality constraints", CP 2005: a variable for
//! each input and amount says that the inputs up to this one weigh as much at least. `specs/Weighing.antt` has the clauses and what they
//! say; `scales_are_exact` is the law that they say exactly that.
#![tactic(auto)]

mod laws;
mod scale;
mod weighted;

pub use laws::{scales_are_exact, scales_are_small, weights_are_reached, weights_are_true};
pub use scale::Scale;
pub use weighted::Weighted;
