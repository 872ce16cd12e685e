//! The order in which a search decides variables: of those that wait, the one with the greatest rank.
//!
//! - A *rank* is given by a closure, which is asked once for each variable; what it answers is stored.
//! - A variable *waits* from the moment that it is added, until it is taken; it can be put back.
//! - Of equal ranks the smallest number comes first.
//! - Variables of equal rank that are added one after another are a *run*. Taking and putting back look at each run, so few are wanted: the
//!   searches here have three. Within a run a place is kept before which none waits, so that variables are taken in their order by going on.
#![tactic(auto)]

mod order;
mod queue;

pub use order::Order;

/// No rank is greater.
pub const MAX_RANK: u64 = 1_099_511_627_776;
