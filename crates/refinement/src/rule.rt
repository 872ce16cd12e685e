// Which states get a component of their own.
ghost use Rattle.std.specs.Prelude.{◌≤◌, ◌<◌, ◌*◌, ◌↔◌, IsTrue};

use des_base::{CompId, StateId};

/// A state of a component that may get a component of its own: what each event does to it follows from what it was before.
#[derive(Clone, Copy)]
pub struct Candidate {
    pub comp: CompId,
    pub state: StateId,
    /// How many states the component has.
    pub states: u32,
    /// How many events touch the component.
    pub touching: usize,
    /// How many of these would move the component of its own: they may change whether the component is in the state, or need that it is.
    pub moving: usize,
    /// How many of these may change it.
    pub changing: usize,
}

/// Says which states get a component of their own.
pub trait Rule {
    /// Whether this one is wanted.
    fn wants(&self, candidate: &Candidate) -> bool;
}

/// Wants each state that few events change: of a component with three states or more, changed by fewer than half of the events
/// that touch it, and moved by at most half of them, and by one at least.
#[derive(Clone, Copy)]
pub struct RarelyChanged;

impl Rule for RarelyChanged {
    fn wants(&self, candidate: &Candidate) -> bool
        ensures { IsTrue result ↔ (3 ≤ candidate.now.states) × (0 < candidate.now.moving) × (2 * candidate.now.moving ≤ candidate.now.touching) × (2 * candidate.now.changing < candidate.now.touching) }
    {
        candidate.states >= 3
            && candidate.moving > 0
            && candidate.moving <= candidate.touching / 2
            && candidate.changing < candidate.touching - candidate.touching / 2
    }
}
