// A run as it was written down.
ghost use Rattle.std.specs.Prelude.{◌≡◌, ◌<◌, ◌≤◌, [], ◌∷◌, ◌++◌, not, length, OnOk, OnErr};
ghost use Rattle.replay.specs.Traced.{event_of};
ghost use Rattle.replay.specs.Matching.{is_real};
ghost use Rattle.replay.specs.declared.TheConstants.{MOST_RUN_STEPS};

use des_base::{EventId, Memory, Name};
use std::alloc::Global;
use std::marker::Model;

/// A step of a run as it was written down.
#[derive(Drop)]
pub enum RunStep {
    /// An event, and the name of the alarm that it is matched to, if it has one.
    Happens { event: EventId, alarm: Option<Name> },
    /// The name of an alarm that is false: it stands for no event.
    Dropped { alarm: Name },
}

impl RunStep {
    /// The event of the step.
    pub fn event(&self) -> Option<EventId>
        ensures { result ≡ event_of self.now }
    {
        match self {
            RunStep::Happens { event, .. } => Some(*event),
            RunStep::Dropped { .. } => None,
        }
    }

    // Whether it is a false alarm.
    pub(crate) fn is_dropped(&self) -> bool
        ensures { result ≡ not (is_real self.now) }
    {
        match self {
            RunStep::Happens { .. } => false,
            RunStep::Dropped { .. } => true,
        }
    }
}

/// A run as it was written down: at most [`MOST_RUN_STEPS`] steps.
#[derive(Drop)]
pub struct Run {
    steps: Vec<RunStep>,
}

impl Model for Run {
    ghost use Rattle.std.specs.Prelude.{List, ◌≤◌, length};
    ghost use Rattle.replay.specs.declared.TheConstants.{MOST_RUN_STEPS};
    ghost use Rattle.replay.specs.declared.run.RunStep.{RunStep};

    ghost Value = { List RunStep };

    ghost view = { λ a. a.steps.items };

    ghost invariant = { λ a. length a.steps.items ≤ MOST_RUN_STEPS };
}

impl Run {
    /// A run without steps.
    pub fn new(alloc: Global) -> Run
        ensures { result ≡ [] }
    {
        Run {
            steps: Vec::new(alloc),
        }
    }

    /// Appends a step.
    pub fn push(&mut self, step: RunStep) -> Result<(), Memory>
        requires { length self.old < MOST_RUN_STEPS }
        ensures ok { OnOk result (self.new ≡ self.old ++ step ∷ []) }
        ensures err { OnErr result (self.new ≡ self.old) }
    {
        self.steps.push(step)?;
        Ok(())
    }

    /// The steps, in order.
    pub fn steps(&self) -> &[RunStep]
        ensures steps { result.now ≡ self.now }
        ensures few { length self.now ≤ MOST_RUN_STEPS }
    {
        self.steps.as_slice()
    }
}
