// The variables of events in steps.
ghost use Rattle.std.specs.Prelude.{◌≡◌, ◌+◌, ◌*◌, ◌<◌, ◌≤◌};
ghost use Rattle.prop_core.specs.Grids.{grid_variable};

use des_base::VAR_LIMIT;

/// The variables of events in steps: for each event one after another, and within an event for each step.
#[derive(Clone, Copy)]
pub struct Grid {
    /// The first variable.
    pub first: u32,
    /// How many events there are.
    pub events: u32,
    /// How many steps there are.
    pub steps: u32,
}

impl Grid {
    /// The variable of an event, counted from 0, in a step, counted from 1.
    #[tactic(auto, using(crate::proofs::GridLemmas::within_grid))]
    pub fn var(&self, event: u32, step: u32) -> u32
        requires event { event < self.now.events }
        requires from_one { 1 ≤ step }
        requires step { step ≤ self.now.steps }
        requires few { self.now.first + self.now.events * self.now.steps ≤ VAR_LIMIT }
        ensures variable { result ≡ grid_variable self.now event step }
        ensures from_first { self.now.first ≤ result }
        ensures within { result < self.now.first + self.now.events * self.now.steps }
    {
        self.first + event * self.steps + (step - 1)
    }
}
