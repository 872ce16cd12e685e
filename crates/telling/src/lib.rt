//! Items are told one after another, each with the text that it has, which is put before the next one is taken: below the texts of
//! replies and the endings of commands, both of which stand on it.
//!
//! - A [`Teller`] goes on from stage to stage. Its `goes` says what the text of an item means between two stages, and its `undone`
//!   what may be left where it ran out of memory.
//! - [`put_each`] puts the texts of all items, and says how far it came: to the end, to an item at which it ran out of memory, or to
//!   one whose text couldn't be put whole.
#![tactic(auto)]

mod each;

pub use each::{Broken, Teller, put_each};
