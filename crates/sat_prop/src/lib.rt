//! The trail: literals that are true, in the order in which they became so, by decision or by unit propagation.
//!
//! - A clause is *attached* so that propagation looks at it. It is *false* where all its literals are false, and *unit*
//!   where one literal is open and all others are false; that literal is then *forced*, and the clause is its *reason*.
//! - Each decision begins a *level*. Just before each decision no attached clause is false or unit.
//! - After quiet propagation no attached clause is false or unit; a conflict names one that is false.
//! - Value, level and reason of a variable are found in constant time.
//! - A clause with two different literals is *watched* at two of them, and looked at where one of these becomes false (Moskewicz
//!   and others, "Chaff: engineering an efficient SAT solver", 2001). A clause without is *short*, and looked at at level 0 alone.
//! - A clause of those learnt last is *dropped* where one that is learnt later subsumes it: it stays attached, and is watched no more, since it is
//!   neither false nor unit where the later one isn't.
#![tactic(auto)]

mod attached;
mod attachment;
mod ids;
mod propagator;
mod recent;
mod standing;
mod subsumption;
mod trail;
mod watch_lists;
mod watched;

pub use propagator::{Propagated, Propagator};
pub use trail::Trail;
