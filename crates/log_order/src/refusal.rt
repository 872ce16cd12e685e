// Why a log refuses a call.
ghost use Rattle.std.specs.Prelude.{◌≡◌};
ghost use Rattle.log_order.specs.declared.refusal.LogRefusal.TheVariants.{Memory as NoMemory};

use des_base::Memory;
use std::alloc::{AllocError, AllocFailed};

/// Why a call on a log changed nothing. If several hold, the first is answered; `Memory` may come in place of any.
#[derive(Clone, Copy, PartialEq, Eq)]
pub enum LogRefusal {
    /// An alarm has the id.
    Double,
    /// An alarm isn't there.
    Unknown,
    /// The pairs would have a cycle.
    Cycle,
    /// An alarm needs a label.
    NoLabels,
    /// A limit would be passed.
    Limit,
    /// Memory ran out.
    Memory,
}

impl From<Memory> for LogRefusal {
    ghost from_gives = { λ _ e. e ≡ NoMemory };

    fn from(_: Memory) -> LogRefusal {
        LogRefusal::Memory
    }
}

impl From<AllocError> for LogRefusal {
    ghost from_gives = { λ _ e. e ≡ NoMemory };

    fn from(_: AllocError) -> LogRefusal {
        LogRefusal::Memory
    }
}

impl<T: Drop> From<AllocFailed<T>> for LogRefusal {
    ghost from_gives = { λ _ e. e ≡ NoMemory };

    fn from(_: AllocFailed<T>) -> LogRefusal {
        LogRefusal::Memory
    }
}
