// What is found of a fault event.
use replay::Run;

/// What all explanations with the least number of faults say of a fault event.
#[derive(Drop)]
pub enum Verdict {
    /// Each of them has the event.
    Certain,
    /// None of them has it.
    Excluded,
    /// Some have it and some don't. This one has it exactly if the one that was known doesn't.
    Possible(Run),
    /// The budget was spent.
    Open,
}
