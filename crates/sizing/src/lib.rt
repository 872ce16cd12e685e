//! How large a question is: beside what writes one, so that a question is refused by its size before anything of it is written.
//!
//! The size of a question ([`question_size`]) is known before any clause is written, without memory, so that one that is too large is
//! refused at once. It is the number `question_size` of the definitions beside the replay of runs: in each step the squares of what
//! each component and each alarm takes and one for each pair, and a counter of the faults and of the doubtful alarms. No sum of it
//! passes 64 bits, since networks and logs have limits. Questions of other kinds are as large as their parts
//! ([`component_sizes`], [`fault_events`], [`doubtful_alarms`]) say.
#![tactic(auto)]

mod alarms;
mod events;
mod question;
mod touching;

pub use alarms::{alarm_sizes, doubtful_alarms};
pub use events::{component_sizes, fault_events};
pub use question::question_size;
