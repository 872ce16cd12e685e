// Why a line is refused, and the code of that.
ghost use Rattle.std.specs.Prelude.{◌≡◌};
ghost use Rattle.model_text.specs.Refusals.{line_refusal_at, refusal_of_build, line_refusal_of_name};
ghost use Rattle.model_text.specs.declared.refusal.LineRefusal.TheVariants.{Memory as NoMemory};

use crate::fault::{ModelRefusal, fault_at};
use des_base::{Memory, NameFault};
use des_net::BuildRefusal;
use std::alloc::AllocFailed;

// Why a line adds nothing.
#[derive(Clone, Copy)]
pub enum LineRefusal {
    // It has no shape.
    Shape,
    // It is a state or a transition before any component.
    Homeless,
    // A word that must be a name isn't one.
    Name,
    // What it adds is there already, or two of its parts have one component.
    Double,
    // It names what isn't known.
    Unknown,
    // A limit would be passed.
    Limit,
    // Memory ran out.
    Memory,
}

impl LineRefusal {
    // The refusal of a text for the line of this number.
    pub fn at(self, line: u32) -> ModelRefusal
        ensures { result ≡ line_refusal_at line self }
    {
        match self {
            LineRefusal::Shape => fault_at(line, 2),
            LineRefusal::Homeless => fault_at(line, 7),
            LineRefusal::Name => fault_at(line, 3),
            LineRefusal::Double => fault_at(line, 4),
            LineRefusal::Unknown => fault_at(line, 5),
            LineRefusal::Limit => fault_at(line, 8),
            LineRefusal::Memory => ModelRefusal::Memory,
        }
    }
}

impl From<Memory> for LineRefusal {
    ghost from_gives = { λ _ refusal. refusal ≡ NoMemory };

    fn from(_: Memory) -> LineRefusal {
        LineRefusal::Memory
    }
}

impl<T: Drop> From<AllocFailed<T>> for LineRefusal {
    ghost from_gives = { λ _ refusal. refusal ≡ NoMemory };

    fn from(_: AllocFailed<T>) -> LineRefusal {
        LineRefusal::Memory
    }
}

impl From<NameFault> for LineRefusal {
    ghost from_gives = { λ fault refusal. refusal ≡ line_refusal_of_name fault };

    fn from(fault: NameFault) -> LineRefusal {
        match fault {
            NameFault::Shape => LineRefusal::Name,
            NameFault::Memory => LineRefusal::Memory,
        }
    }
}

impl From<BuildRefusal> for LineRefusal {
    ghost from_gives = { λ refusal told. told ≡ refusal_of_build refusal };

    fn from(refusal: BuildRefusal) -> LineRefusal {
        match refusal {
            BuildRefusal::Double => LineRefusal::Double,
            BuildRefusal::Unknown => LineRefusal::Unknown,
            BuildRefusal::Limit => LineRefusal::Limit,
            BuildRefusal::Memory => LineRefusal::Memory,
        }
    }
}
