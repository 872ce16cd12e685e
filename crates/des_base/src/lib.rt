//! What every other crate stands on: names and tables of names, numbers and counted lines of a text, and the outside as
//! the program sees it.
//!
//! - A *name* is 1 to 64 letters, digits, `_` or `-`; a table numbers names in the order in which they were added.
//! - A text is cut into *counted lines* and these into *tokens*: blank lines and comments are skipped.
//! - A *shelf* gives files by name, a *sink* takes bytes. Both count their faults, so that a fault has its cause. They
//!   come here in memory, a sink also as a count of bytes; the real ones stand in the program.
#![tactic(auto)]

mod count_sink;
mod decimal;
mod ids;
mod laws;
mod lines;
mod list_of;
mod mem_calls;
mod mem_shelf;
mod mem_sink;
mod memory;
mod name;
mod name_table;
mod number;
mod outside;
mod tokens;
mod word_list;

pub use count_sink::CountSink;
pub use decimal::push_decimal;
pub use ids::{ActionId, CompId, EventId, StateId};
pub use laws::{numbers_are_decimal, tokens_are_pieces};
pub use lines::{Line, Lines, last_line};
pub use list_of::ListOf;
pub use mem_shelf::MemShelf;
pub use mem_sink::MemSink;
pub use memory::Memory;
pub use name::{Name, NameFault, is_name};
pub use name_table::NameTable;
pub use number::read_number;
pub use outside::{LoadFault, PutFault, Shelf, Sink};
pub use tokens::{Token, Tokens};
pub use word_list::WordList;

/// Variables of propositional formulas are below this number, so that twice a variable fits in a `u32` with a bit to spare.
pub const VAR_LIMIT: u32 = 1_073_741_824;

/// The most steps that a question may have.
pub const MOST_STEPS: u32 = 1000;

/// The most columns that a counter of faults may have: more faults aren't distinguished.
pub const MOST_COLUMNS: u64 = 256;
