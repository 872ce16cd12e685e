//! Texts of alarm logs and scripts: records of comma-separated fields, after RFC 4180.
//!
//! A record is an alarm with its labels, certain or doubtful, a pair of alarms, "the first before the second", or in scripts a question.
//! `specs/Records.antt` says what a record says, `specs/LogText.antt` which log a text is and what its first fault is, by
//! selection from its records, and `specs/ScriptText.antt` the same of a script. `print_log` writes a text that reads back
//! as an equal log (`specs/PrintedLog.antt`).
#![tactic(auto)]

mod fault;
mod fields;
mod keyword;
mod labels;
mod log_text;
mod print;
mod records;
mod refusal;
mod row;
mod row_reader;
mod script;

pub use fault::{LogFault, LogReadRefusal};
pub use log_text::read_log;
pub use print::print_log;
pub use row::Row;
pub use script::{Script, read_script};
