//! Plants by a number: a bus and units that trip over it, and a log of the units that trip.
//!
//! Each unit jams, which is a fault and isn't seen; then it trips, which moves the bus too; then it is fixed. Which units have
//! tripped follows from a number, the start: so anybody can make the same plant again, of any size up to 900 units.
//! `specs/Plant.antt` says which plant it is; `generate` makes exactly that one.
#![tactic(auto)]

mod alarms;
mod building;
mod events;
mod logging;
mod making;
mod names;
mod numbers;
mod units;

pub use making::{Plant, generate};
