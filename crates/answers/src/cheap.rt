// What is found of the least total cost, and a run with its total.
use replay::Run;

/// A run that explains an alarm log, and its total cost.
#[derive(Drop)]
pub struct Priced {
    /// What its fault events cost, by occurrence, and 1 for each false alarm.
    pub cost: u32,
    /// The run, with the alarms for which its events stand, and the false ones.
    pub run: Run,
}

/// What is found of the least total cost of an explanation.
#[derive(Drop)]
pub enum Cheap {
    /// No explanation has a lower total; it is at most 1,000.
    Found(Priced),
    /// Nothing explains the log.
    Absent,
    /// Each explanation has a total above 1,000. This is one of them.
    Dear(Run),
    /// The budget was spent. Each explanation has a total of at least `lo`; one that is known has more.
    Undecided { lo: u32, best: Option<Priced> },
}
