//! An alarm log as clauses that can grow, after Grastien, Anbulagan, Rintanen and Kelareva (AAAI 2007).
//!
//! - Each alarm stands for one event that can be seen, in one step, and each such event that happens has one alarm: an event
//!   is passed along the *chain* of the alarms that may stand for it until one takes it. An alarm that is doubtful may be false
//!   instead: then it stands for none.
//! - The log's *guards* are assumed while it is the present one: it is asked for, and the chain of each event ends after its
//!   present alarms. A guard of a shorter log is never assumed again, and without guards every run goes with the clauses.
//! - An addition is drafted, then reserved, then committed: it is whole or not made. It writes nothing of events that the new
//!   alarm can't stand for.
#![tactic(auto)]

mod alarm_code;
mod alarm_vars;
mod chains;
mod draft;
mod laws;
mod log_code;
mod log_end;
mod taken;
mod writing;

pub use draft::Draft;
pub use laws::{
    draft_is_built, first_is_built, names_dont_matter, written_grows, written_is_exact,
};
pub use log_code::LogCode;
