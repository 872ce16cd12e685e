//! Tests of what only calls show of questions and of what they are made of, and nothing else.
//!
//! What the program can print is among the cases of files, and what a call answers is said by its contract. Here stand calls that
//! the program doesn't make, the size of a question, the least total cost by a closure that isn't a table, and which choices of events go with
//! the clauses that are written, which are tried with every truth of their variables on networks so small that the answers were worked
//! out by hand.
#![tactic(auto)]

#[cfg(test)]
mod cost_calls;
#[cfg(test)]
mod in_memory;
#[cfg(test)]
mod logs;
#[cfg(test)]
mod models;
#[cfg(test)]
mod places;
#[cfg(test)]
mod replies;
#[cfg(test)]
mod session_calls;
#[cfg(test)]
mod sizes;
#[cfg(test)]
mod steps;
#[cfg(test)]
mod truths;
