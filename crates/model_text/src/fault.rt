// The first fault of a model text.
ghost use Rattle.std.specs.Prelude.{◌≡◌};
ghost use Rattle.model_text.specs.Refusals.{faulty};

/// The place and the kind of the first fault of a model text. Lines are counted from 1.
///
/// `code` is 1 where the header isn't `des 1` or is missing, 2 where a line has no shape, 3 where a word that must be a name
/// isn't one, 4 where something is there already or two parts of an event have one component, 5 where something isn't known,
/// 6 where a component has no initial state, 7 where a state or a transition stands before any component, and 8 where a
/// limit would be passed.
#[derive(Clone, Copy, PartialEq, Eq)]
pub struct ModelFault {
    pub line: u32,
    pub code: u8,
}

/// Why a text became no network.
#[derive(Clone, Copy, PartialEq, Eq)]
pub enum ModelRefusal {
    /// The text has a fault.
    Fault(ModelFault),
    /// Memory ran out.
    Memory,
}

// The refusal for a fault of this code on this line.
pub(crate) fn fault_at(line: u32, code: u8) -> ModelRefusal
    ensures { result ≡ faulty line code }
{
    ModelRefusal::Fault(ModelFault { line, code })
}
