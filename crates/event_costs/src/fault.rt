// The first fault of a cost text.
ghost use Rattle.std.specs.Prelude.{◌≡◌};
ghost use Rattle.event_costs.specs.declared.fault.CostRefusal.TheVariants.{Memory as NoMemory};

use des_base::Memory;

/// The line of the first fault of a cost text, counted from 1, and its code.
///
/// 1: the first counted line isn't `costs 1`, or is missing. 2: a line isn't `cost` and two words. 3: the event's word isn't a
/// name. 4: the event is named on an earlier line. 5: it isn't a fault event of the model. 6: the cost isn't a number from 1 to
/// 1,000.
#[derive(Clone, Copy)]
pub struct CostFault {
    pub line: u32,
    pub code: u8,
}

/// Why a text became no table.
#[derive(Clone, Copy)]
pub enum CostRefusal {
    /// The text has a fault.
    Fault(CostFault),
    /// Memory ran out.
    Memory,
}

impl From<Memory> for CostRefusal {
    ghost from_gives = { λ _ e. e ≡ NoMemory };

    fn from(_: Memory) -> CostRefusal {
        CostRefusal::Memory
    }
}
