//! A session over one network: alarms come one by one, and questions are asked between them.
//!
//! A [`Session`] keeps the log so far, the clauses of its question, the solver that has adopted them and the book. An addition
//! is tried first, by the log and by the size of the question; then all memory is taken; and then it joins log, clauses,
//! solver and book, or none of them. A question goes on with all that earlier ones have learnt.
//!
//! It keeps the size of its question up to date, addition by addition.
#![tactic(auto)]

mod adding;
mod asking;
mod kept;
mod refusal;
mod rows;
mod session;
mod size;
mod whole;

pub use refusal::SessionRefusal;
pub use rows::RowTold;
pub use session::Session;
