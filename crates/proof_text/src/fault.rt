// The first fault of a text, and the codes of faults.
ghost use Rattle.std.specs.Prelude.{◌≡◌};
ghost use Rattle.proof_text.specs.declared.fault.TextRefusal.TheVariants.{Fault, Memory as NoMemory};

use des_base::Memory;

/// The place and the kind of a text's first fault. Lines are counted from 1.
///
/// | Code | Meaning |
/// |---|---|
/// | 1 | the header of a formula is missing or has another shape |
/// | 2 | a token isn't a number, or is zero or negative where that isn't allowed |
/// | 3 | a literal's variable is greater than the number of variables |
/// | 4 | there are more clauses than the header says, or fewer |
/// | 5 | the last `0` of a clause or of a line is missing, or something follows it on the line of a proof |
/// | 6 | the number of an addition isn't greater than those before it |
/// | 7 | a hint is negative, as in steps that aren't propagation alone |
/// | 8 | a number is over its limit |
#[derive(Clone, Copy)]
pub struct TextFault {
    pub line: u32,
    pub code: u8,
}

/// Why a text became no value.
#[derive(Clone, Copy)]
pub enum TextRefusal {
    /// The text has a fault.
    Fault(TextFault),
    /// Memory ran out.
    Memory,
}

impl From<Memory> for TextRefusal {
    ghost from_gives = { λ _ e. e ≡ NoMemory };

    fn from(_: Memory) -> TextRefusal {
        TextRefusal::Memory
    }
}

pub(crate) const NO_HEADER: u8 = 1;

pub(crate) const NOT_A_NUMBER: u8 = 2;

pub(crate) const UNKNOWN_VARIABLE: u8 = 3;

pub(crate) const OTHER_COUNT: u8 = 4;

pub(crate) const NOT_ENDED: u8 = 5;

pub(crate) const NOT_ASCENDING: u8 = 6;

pub(crate) const NEGATIVE_HINT: u8 = 7;

pub(crate) const OVER_LIMIT: u8 = 8;

pub(crate) fn fault_at(line: u32, code: u8) -> TextRefusal
    ensures { result ≡ Fault (record { line = line; code = code }) }
{
    TextRefusal::Fault(TextFault { line, code })
}
