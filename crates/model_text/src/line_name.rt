// A name or a label that stands on a line.
ghost use Rattle.std.specs.Prelude.{option_map};
ghost use Rattle.model_text.specs.LineAdditions.{IsNamedInLine, IsLabelled};

use crate::refusal::LineRefusal;
use des_base::Name;
use std::alloc::Global;

// The text as a name.
pub(crate) fn name_of(alloc: Global, text: &[u8]) -> Result<Name, LineRefusal>
    ensures { IsNamedInLine text.now result }
{
    Ok(Name::new(alloc, text)?)
}

// The label as a name, if there is one.
pub(crate) fn label_of(alloc: Global, label: Option<&[u8]>) -> Result<Option<Name>, LineRefusal>
    ensures { IsLabelled (option_map (λ text. text.now) label.entry) result }
{
    match label {
        Some(text) => Ok(Some(name_of(alloc, text)?)),
        None => Ok(None),
    }
}
