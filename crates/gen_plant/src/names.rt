// The names of generated plants.
ghost use Rattle.std.specs.Prelude.{◌≡◌, ◌<◌, ◌++◌, decimal, IfOk, IsTrue};
ghost use Rattle.des_base.specs.Names.{IsName};
ghost use Rattle.gen_plant.specs.Stages.{is_front};

use des_base::{Memory, Name, NameFault};
use std::alloc::Global;

/// The text as a name, which it is.
pub fn name_of(alloc: Global, text: &[u8]) -> Result<Name, Memory>
    requires { IsName text.now }
    ensures { IfOk result (λ name. name ≡ text.now) }
{
    match Name::new(alloc, text) {
        Ok(name) => Ok(name),
        Err(NameFault::Memory) => Err(Memory),
        Err(NameFault::Shape) => unreachable!(),
    }
}

/// The name of this word and a unit's number.
#[tactic(auto, using(crate::proofs::NameLemmas::numbered_is_name))]
pub fn numbered(alloc: Global, word: &str, unit: u32) -> Result<Name, Memory>
    requires word { IsTrue (is_front word.now) }
    requires unit { unit < 1000 }
    ensures { IfOk result (λ name. name ≡ word.now ++ decimal unit) }
{
    let text = format!(in alloc; "{word}{unit}")?;
    name_of(alloc, text.as_bytes())
}
