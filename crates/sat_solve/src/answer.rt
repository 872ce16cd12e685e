// What a search answers.
use prop_core::ClauseId;

/// How a search ends.
#[derive(Clone, Copy)]
pub enum Answer {
    /// An assignment makes all clauses and all assumptions true.
    Sat,
    /// No assignment does: this final clause of the book holds negated assumptions alone.
    Unsat(ClauseId),
    /// Nothing was left of the budget at a further conflict.
    Spent,
}
