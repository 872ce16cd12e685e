// A list of numbers of clauses that no memory keeps.
use prop_core::ClauseId;
use std::snapshot::Snapshot;

// None, or those that a snapshot shows and one more.
#[derive(Drop)]
pub enum Ids {
    Empty,
    More(Snapshot<Ids>, ClauseId),
}
