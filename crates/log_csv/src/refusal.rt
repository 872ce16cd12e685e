// Why a record became no row.
ghost use Rattle.std.specs.Prelude.{◌≡◌};
ghost use Rattle.log_csv.specs.Reading.{row_refusal_of_name, row_refusal_at};
ghost use Rattle.log_csv.specs.declared.refusal.RowRefusal.TheVariants.{Memory as NoMemory};

use crate::fault::{LogFault, LogReadRefusal};
use des_base::{Memory, NameFault};

// Why a record became no row.
#[derive(Clone, Copy)]
pub enum RowRefusal {
    // It has no shape.
    Shape,
    // An id or a label isn't a name.
    Name,
    // Memory ran out.
    Memory,
}

impl RowRefusal {
    // The refusal of a text for this record.
    pub fn at(self, row: u32) -> LogReadRefusal
        ensures { result ≡ row_refusal_at row self }
    {
        match self {
            RowRefusal::Shape => LogReadRefusal::Fault(LogFault { row, code: 6 }),
            RowRefusal::Name => LogReadRefusal::Fault(LogFault { row, code: 7 }),
            RowRefusal::Memory => LogReadRefusal::Memory,
        }
    }
}

impl From<Memory> for RowRefusal {
    ghost from_gives = { λ _ refusal. refusal ≡ NoMemory };

    fn from(_: Memory) -> RowRefusal {
        RowRefusal::Memory
    }
}

impl From<NameFault> for RowRefusal {
    ghost from_gives = { λ fault refusal. refusal ≡ row_refusal_of_name fault };

    fn from(fault: NameFault) -> RowRefusal {
        match fault {
            NameFault::Shape => RowRefusal::Name,
            NameFault::Memory => RowRefusal::Memory,
        }
    }
}
