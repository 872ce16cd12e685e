// A component that follows another.
use des_base::{CompId, StateId};

/// A component that is added: it is in `yes` while this one is in this state, and else in `no`.
#[derive(Clone, Copy)]
pub struct Follower {
    pub comp: CompId,
    pub state: StateId,
}
