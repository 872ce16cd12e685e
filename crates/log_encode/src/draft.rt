// An addition to the code of a log, before it is made.
ghost use Rattle.std.specs.Prelude.{◌≡◌};

use crate::alarm_code::AlarmCode;
use crate::log_code::LogCode;
use crate::taken::ChainEnd;
use prop_core::{Clauses, Lit};
use std::marker::Model;
use std::snapshot::Snapshot;

// What a draft adds: an alarm, with the ends of all chains, the guards, and what says that alarms are false, as they then are, or a pair.
#[derive(Drop)]
pub enum Change {
    Alarm {
        alarm: AlarmCode,
        ends: Vec<ChainEnd>,
        guards: Vec<Lit>,
        dropped: Vec<Lit>,
    },
    Pair(u32, u32),
}

/// An addition to a log's code that isn't made yet: its variables and its clauses.
///
/// It belongs to the code that it was made by, as it stands then. Its variables begin at the number that it was made with.
#[derive(Drop)]
pub struct Draft {
    pub(crate) code: Snapshot<LogCode>,
    pub(crate) change: Change,
    pub(crate) first: u32,
    pub(crate) vars: u32,
    pub(crate) clauses: Clauses,
}

impl Model for Draft {
    ghost use Rattle.log_encode.specs.Drafted.{DraftState};

    ghost Value = { DraftState };

    ghost use Rattle.log_encode.specs.View.{draft_view, IsReadyDraft};

    ghost view = { draft_view };

    ghost invariant = { IsReadyDraft };
}

impl Draft {
    /// How many variables it takes.
    pub fn vars(&self) -> u32
        ensures { result ≡ self.now.vars }
    {
        self.vars
    }

    /// Its clauses.
    pub fn clauses(&self) -> &Clauses
        ensures { result.now.clauses ≡ self.now.clauses }
    {
        &self.clauses
    }
}
