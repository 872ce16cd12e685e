// What is found of the least number of faults, and a run with its faults.
use replay::Run;

/// A run that explains an alarm log, and how many faults it has.
#[derive(Drop)]
pub struct Best {
    /// How many fault events the run has, by occurrence, and false alarms.
    pub faults: u32,
    /// The run, with the alarms for which its events stand, and the false ones.
    pub run: Run,
}

/// What is found of the least number of faults that explains an alarm log.
#[derive(Drop)]
pub enum Found {
    /// No explanation has fewer faults; there are at most `MOST_FAULTS`.
    Explained(Best),
    /// Nothing explains the log.
    Absent,
    /// Each explanation has more than `MOST_FAULTS` faults. This is one of them.
    Many(Best),
    /// The budget was spent. Each explanation has at least `lo` faults; one that is known has more.
    Undecided { lo: u32, best: Option<Best> },
}
