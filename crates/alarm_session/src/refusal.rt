// Why a session refuses an addition.
ghost use Rattle.std.specs.Prelude.{◌≡◌};
ghost use Rattle.alarm_session.specs.Refusals.{refusal_number, refusal_of};
ghost use Rattle.alarm_session.specs.declared.refusal.SessionRefusal.TheVariants.{Memory as NoMemory};

use des_base::Memory;
use log_order::LogRefusal;

/// Why a call on a session changed nothing. If several hold, the first is answered; `Memory` may come in place of any.
#[derive(Clone, Copy, Debug, PartialEq, Eq)]
pub enum SessionRefusal {
    /// An alarm has the id.
    Double,
    /// An alarm isn't there.
    Unknown,
    /// The pairs would have a cycle.
    Cycle,
    /// An alarm needs a label.
    NoLabels,
    /// A limit of the log would be passed.
    Limit,
    /// The question would be larger than any that is answered.
    TooLarge { size: u64 },
    /// Memory ran out.
    Memory,
}

impl SessionRefusal {
    /// The number that is printed for it. A row is refused by the lowest that holds of it: 1 to 5, or 8. `Memory` has 0.
    pub fn number(self) -> u32
        ensures { result ≡ refusal_number self }
    {
        match self {
            SessionRefusal::Double => 1,
            SessionRefusal::Unknown => 2,
            SessionRefusal::Cycle => 3,
            SessionRefusal::NoLabels => 4,
            SessionRefusal::Limit => 5,
            SessionRefusal::TooLarge { .. } => 8,
            SessionRefusal::Memory => 0,
        }
    }
}

impl From<Memory> for SessionRefusal {
    ghost from_gives = { λ _ e. e ≡ NoMemory };

    fn from(_: Memory) -> SessionRefusal {
        SessionRefusal::Memory
    }
}

// The same refusal of a log.
pub fn refusal_of(refusal: LogRefusal) -> SessionRefusal
    ensures { result ≡ refusal_of refusal }
{
    match refusal {
        LogRefusal::Double => SessionRefusal::Double,
        LogRefusal::Unknown => SessionRefusal::Unknown,
        LogRefusal::Cycle => SessionRefusal::Cycle,
        LogRefusal::NoLabels => SessionRefusal::NoLabels,
        LogRefusal::Limit => SessionRefusal::Limit,
        LogRefusal::Memory => SessionRefusal::Memory,
    }
}
