//! Tests of what only calls show of the search, and nothing else: it is asked questions on formulas whose answers other solvers found, a
//! book derives what it is asked to, a proof is read and checked as a list of steps, and a clause that subsumes another is the reason in its place.
//!
//! That an answer is right, and is shown by the book and the assignment, is said by the contract of the search. What the program itself can
//! show stands in `cases/`.
#![tactic(auto)]

#[cfg(test)]
mod book;
#[cfg(test)]
mod formulas;
#[cfg(test)]
mod literals;
#[cfg(test)]
mod proof;
#[cfg(test)]
mod solver;
#[cfg(test)]
mod trail;
