// The first fault of a log or a script.
ghost use Rattle.std.specs.Prelude.{◌≡◌};
ghost use Rattle.log_csv.specs.declared.fault.LogReadRefusal.TheVariants.{Memory as NoMemory};

use des_base::Memory;
use std::alloc::AllocFailed;

/// The place and the kind of the first fault of a log or a script.
///
/// `row` is the record's place among all records of the text, from 1. `code` is 1 where an alarm has the id, 2 where an alarm
/// of a pair isn't known, 3 where a pair closes a cycle, 4 where the label field is empty, 5 where a limit would be passed, 6
/// where the record has no shape or is a question in a log, and 7 where an id or a label isn't a name. If several hold of one
/// record, 6 comes first, then 7, and then the smallest.
#[derive(Clone, Copy, PartialEq, Eq)]
pub struct LogFault {
    pub row: u32,
    pub code: u8,
}

/// Why a text became no log or no script.
#[derive(Clone, Copy, PartialEq, Eq)]
pub enum LogReadRefusal {
    /// The text has a fault.
    Fault(LogFault),
    /// Memory ran out.
    Memory,
}

impl From<Memory> for LogReadRefusal {
    ghost from_gives = { λ _ e. e ≡ NoMemory };

    fn from(_: Memory) -> LogReadRefusal {
        LogReadRefusal::Memory
    }
}

impl<T: Drop> From<AllocFailed<T>> for LogReadRefusal {
    ghost from_gives = { λ _ e. e ≡ NoMemory };

    fn from(_: AllocFailed<T>) -> LogReadRefusal {
        LogReadRefusal::Memory
    }
}
