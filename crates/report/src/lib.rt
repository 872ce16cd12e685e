//! The texts of replies.
//!
//! A reply tells what was found, each part of it on a line that ends with a line feed: a word that says which answer it
//! is, and then numbers and names. `specs/Replies.antt` says the text of each answer. Each printer appends it whole or,
//! if memory runs out, appends nothing. `specs/VerdictTexts.antt` has those of verdicts on fault events. A printed run
//! reads back as that run, and so does a reply that has one (`specs/ReadBack.antt`).
#![tactic(auto)]

mod cheap;
mod checked;
mod found;
mod laws;
mod pieces;
mod refused;
mod replayed;
mod run;
mod traced;
mod twin;
mod verdict;

pub use cheap::print_cheap;
pub use checked::print_checked;
pub use found::{found_text, print_found};
pub use laws::{replies_fit, replies_read_back, runs_fit, runs_read_back};
pub use refused::print_refused;
pub use replayed::print_replayed;
pub use run::print_run;
pub use traced::print_traced;
pub use twin::print_twin;
pub use verdict::print_verdict;
