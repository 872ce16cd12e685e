//! How a command ends, and the files at which it may stop.
//!
//! A command has a reply ([`Reply`]), of a kind ([`Kind`]) and with a text, or stops ([`Stop`]): at a file that can't be loaded, is
//! too long or has a fault, or for a reason of its own. `specs/Transcripts.antt` says the same in one form for commands with one
//! reply and with several, and `specs/Endings.antt` the exit status and the texts of each ending.
//!
//! - The functions `fetch_*` load a file of a command, hold it against its limit and read it. Each gives what the text says, or
//!   why the command stops there (`specs/Files.antt`, `specs/Texts.antt`).
//! - [`put_once`] puts the text of an ending whole, and returns its status; if the put fails it returns 4, and out of memory it
//!   puts nothing and answers 9 (`specs/Puts.antt`).
#![tactic(auto)]

mod ending;
mod files;
mod stop;

pub use ending::{Kind, Reply, put_once, status_of_kind};
pub use files::{
    fetch_checked, fetch_cnf, fetch_costs, fetch_log, fetch_model, fetch_run, fetch_script,
};
pub use stop::{FaultyText, Stop};
