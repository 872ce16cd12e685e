// A row of a script.
use des_base::{ListOf, Name};

/// A row of a script.
#[derive(Drop)]
pub enum Row {
    /// A new alarm, with its labels as they are written.
    Alarm { id: Name, labels: ListOf<Name> },
    /// A new doubtful alarm, with its labels as they are written.
    Maybe { id: Name, labels: ListOf<Name> },
    /// The first alarm comes before the second.
    Before { first: Name, second: Name },
    /// A question.
    Ask,
}
