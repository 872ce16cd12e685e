// Why a builder refuses a call.
ghost use Rattle.std.specs.Prelude.{◌≡◌};
ghost use Rattle.des_net.specs.declared.refusal.BuildRefusal.TheVariants.{Memory as NoMemory};

use des_base::Memory;
use std::alloc::{AllocError, AllocFailed};

/// Why a call of the builder changed nothing.
#[derive(Clone, Copy, PartialEq, Eq)]
pub enum BuildRefusal {
    /// It is there already.
    Double,
    /// A component, a state or an action isn't there.
    Unknown,
    /// A limit would be passed.
    Limit,
    /// Memory ran out.
    Memory,
}

impl From<Memory> for BuildRefusal {
    ghost from_gives = { λ _ e. e ≡ NoMemory };

    fn from(_: Memory) -> BuildRefusal {
        BuildRefusal::Memory
    }
}

impl From<AllocError> for BuildRefusal {
    ghost from_gives = { λ _ e. e ≡ NoMemory };

    fn from(_: AllocError) -> BuildRefusal {
        BuildRefusal::Memory
    }
}

impl<T: Drop> From<AllocFailed<T>> for BuildRefusal {
    ghost from_gives = { λ _ e. e ≡ NoMemory };

    fn from(_: AllocFailed<T>) -> BuildRefusal {
        BuildRefusal::Memory
    }
}
