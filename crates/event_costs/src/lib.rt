//! What the fault events of a network cost: a closure that is stored, and a table that is read from a text.
//!
//! A text is `costs 1`, and then a line `cost EVENT C` for each fault event that doesn't cost 1. `specs/CostText.antt` says which
//! cost the text gives to an event, and what its first fault is. Whoever weighs runs takes [`Costs`], which stores any closure that
//! answers a cost for each fault event; a [`CostTable`] answers so.
#![tactic(auto)]

mod fault;
mod line;
mod reader;
mod stored;
mod table;

pub use fault::{CostFault, CostRefusal};
pub use line::find_fault;
pub use reader::read_costs;
pub use stored::Costs;
pub use table::{CostTable, Price};

/// The greatest cost of an event.
pub const MOST_COST: u32 = 1_000;
