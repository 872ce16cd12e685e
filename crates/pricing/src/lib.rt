//! The least total cost, as an inquiry: [`LeastCost`], by the costs of a table. It stands above the inquiries, and not among them, so that
//! these are proved beside the search for the least total cost (`cost_least`), and the longest chain of crates is no longer.
//!
//! What is found holds by the book that is left. If memory runs out, the book keeps the question and what was put so far.
#![tactic(auto)]

mod least_cost;

pub use least_cost::LeastCost;
