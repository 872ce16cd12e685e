//! The same plant, written with more components.
//!
//! For some states of some components the finer network has a component besides: it is in `yes` while the other one is in that
//! state, and else in `no`, and an event moves it only if it can change this. So runs stay what they are, and a question about
//! them is often answered sooner. `specs/Refinement.antt` says what a refinement is.
//!
//! - [`refine`] makes one, by whichever [`Rule`] says which states are wanted. It writes the text of a finer network, has it read,
//!   and answers what was read only if a test shows that it is a refinement: so nothing rests on the rule, nor on the writing.
//! - [`RarelyChanged`] is a rule that pays: it wants a state that few events change.
#![tactic(auto)]

mod additions;
mod by_state;
mod change;
mod comparing;
mod drafting;
mod effect;
mod follower;
mod following;
mod growing;
mod refining;
mod room;
mod rule;
mod testing;
mod touches;

pub use drafting::MOST_BYTES;
pub use refining::refine;
pub use rule::{Candidate, RarelyChanged, Rule};
