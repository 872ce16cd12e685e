//! What is learnt from a conflict, with the hints by which it derives.
//!
//! - From a conflict the places of the trail are *seen* that its clause depends on. A place is *resolved* where the reason
//!   of its literal takes its place; the hints are the conflict and the reasons, the last first.
//! - The *learnt* clause stops at the first implication point: one literal of the present level is left. It derives, it is
//!   false by the trail, and one level back its first literal would be forced.
//! - What of a learnt clause follows from its other literals is resolved as well, so that it is shorter, and so is what was
//!   forced at one of the first levels, as many as the learner was told (`keep_decisions_to`).
//! - A *closing* clause goes down to decisions: it holds negations of decisions alone.
#![tactic(auto)]

mod analysed;
mod clause;
mod learner;
mod removable;
mod resolving;
mod shortening;

pub use learner::{Learner, Learnt};
