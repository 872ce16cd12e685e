//! Runs of a network, their text, whether the network can perform one, and whether one explains an alarm log.
//!
//! A run is a list of steps: events, where they can be seen with the name of the alarm that they are matched to, and alarms that are
//! set aside as false. `trace` tells whether the composed components can perform its events, or else the first one that they
//! can't: `specs/Traced.antt` says what that means. `replay`
//! tells whether it explains a log within a number of pieces, or else what is wrong with it first: `specs/Explanation.antt` says
//! what an explanation is, and `specs/Replayed.antt` what each answer means.
//!
//! A [`LabelSet`] has the labels of an alarm, and is asked for the label of each event. A log of 2,000 alarms with 64 labels each over
//! 4,000 events asks 512 million times whether two labels are equal. So a set has 4,096 marks, of a byte each: the bytes of each of its
//! labels lead to a place, which is marked. A label whose place has no mark is none of them, and only one whose place is marked is compared
//! with the labels themselves. A set borrows its labels, and takes no memory from the allocator.
#![tactic(auto)]

mod label_set;
mod laws;
mod marks;
mod matching;
mod moves;
mod net_moves;
mod placing;
mod replaying;
mod run;
mod run_text;
mod state_set;
mod tracing;
mod width;

pub use label_set::LabelSet;
pub use laws::{
    absent_excludes, accepted_explains, explains_decides, least_is_one, many_is_above,
    replies_are_unique, traces_are_unique,
};
pub use replaying::{Replayed, replay};
pub use run::{Run, RunStep};
pub use run_text::{RunFault, RunRefusal, read_run};
pub use tracing::{Traced, trace};

/// The most steps that a run may have as it is written down.
pub const MOST_RUN_STEPS: u32 = 4_000_000;

/// The most faults that are counted: where all that explains a log has more, there are many.
pub const MOST_FAULTS: u32 = 255;
