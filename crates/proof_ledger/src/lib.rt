//! The ledger: one book that only grows, into which no clause comes but axioms and clauses that unit propagation derives
//! from earlier ones; and a checker of proofs by the same rule.
//!
//! - A *book* is a list of entries: axioms, learnt clauses, final clauses and marks. In a valid book each learnt and each
//!   final clause derives, by the hints that are kept with it, from the clauses before it. Every ledger's book is valid.
//! - A *question* opens with mark 0 and closes with mark 1.
//! - A *proof* is a list of steps that add derived clauses and delete clauses. It is verified where the steps derive, one
//!   after the other, up to the empty clause; then no assignment makes all axioms true.
#![tactic(auto)]

mod axioms;
mod checker;
mod entry;
mod follow;
mod held;
mod ledger;
mod marks;
mod near;
mod truths;

pub use checker::{Checked, Checker, ProofStep, check};
pub use entry::{DeriveFault, Entry};
pub use ledger::Ledger;
