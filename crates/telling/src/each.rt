// What tells of items one after another, and the loop that puts what it tells.
ghost use Rattle.std.specs.Prelude.{◌≡◌, ◌≤◌, ℕ, List, [], ◌∷◌, Option, IfOk, OnErr, IsErrOf, option_map};
ghost use Rattle.des_base.specs.Outside.{Rose};
ghost use Rattle.telling.specs.Telling.{EachGoes, RisesExactlyIf};
ghost use Rattle.telling.specs.declared.each.Broken.TheVariants.{Memory as NoMemory};

use des_base::{Memory, Sink};
use std::alloc::Global;

/// Why it ends before all items are printed.
#[derive(Clone, Copy)]
pub enum Broken {
    /// Out of memory.
    Memory,
    /// A text can't be put.
    Put,
}

impl From<Memory> for Broken {
    ghost from_gives = { λ _ e. e ≡ NoMemory };

    fn from(_: Memory) -> Broken {
        Broken::Memory
    }
}

/// Tells of items, and goes on from stage to stage.
pub trait Teller {
    type Item;

    /// By an item from one stage to another, with the text that it has.
    ghost goes: { Self → Self.Item → Self → Option (List ℕ) → Type 0 };

    /// What may be left of an item where it ran out of memory.
    ghost undone: { Self → Self.Item → Self → Type 0 };

    /// What is to be so before each item, and stays so.
    ghost ready: { Self → Type 0 };

    /// Tells of the item.
    fn tell(&mut self, alloc: Global, item: &Self::Item) -> Result<Option<Vec<u8>>, Memory>
        requires { ready self.old }
        ensures ready { ready self.new }
        ensures told { IfOk result (λ text. goes self.old item.now self.new (option_map (λ t. t.items) text)) }
        ensures undone { OnErr result (undone self.old item.now self.new) };
}

/// Tells of all items, and puts the text of each before the next one is taken. It ends with the first put that fails.
pub fn put_each<T: Teller, S: Sink>(
    alloc: Global,
    teller: &mut T,
    items: &[T::Item],
    out: &mut S,
) -> Result<(), Broken>
    requires { T.ready teller.old }
    ensures ready { T.ready teller.new }
    ensures goes { EachGoes T.goes T.undone teller.old items.now teller.new (S.taken out.old) (S.taken out.new) (Rose (S.faults out.old) (S.faults out.new)) result }
    ensures never_falls { S.faults out.old ≤ S.faults out.new }
    ensures failures { RisesExactlyIf (IsErrOf result Broken.Put) (S.failures out.old) (S.failures out.new) }
{
    for item in items {
        put_one(alloc, teller, item, out)?;
    }
    Ok(())
}

// Tells of one item, and puts its text.
fn put_one<T: Teller, S: Sink>(
    alloc: Global,
    teller: &mut T,
    item: &T::Item,
    out: &mut S,
) -> Result<(), Broken>
    requires { T.ready teller.old }
    ensures ready { T.ready teller.new }
    ensures goes { EachGoes T.goes T.undone teller.old (item.now ∷ []) teller.new (S.taken out.old) (S.taken out.new) (Rose (S.faults out.old) (S.faults out.new)) result }
    ensures never_falls { S.faults out.old ≤ S.faults out.new }
    ensures failures { RisesExactlyIf (IsErrOf result Broken.Put) (S.failures out.old) (S.failures out.new) }
{
    match teller.tell(alloc, item) {
        Ok(Some(text)) => match out.put(text.as_slice()) {
            Ok(()) => Ok(()),
            Err(_) => Err(Broken::Put),
        },
        Ok(None) => Ok(()),
        Err(_) => Err(Broken::Memory),
    }
}
