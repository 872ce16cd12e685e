// A list of things of one type.
ghost use Rattle.std.specs.Prelude.{◌≡◌, [], ◌∷◌, ◌++◌, IfOk, OnOk, OnErr};

use crate::memory::Memory;
use std::alloc::Global;
use std::marker::Model;

/// A list of things of one type. One may stand in it several times.
///
/// Contracts know it by the list of its things, where a vector also has a capacity, so that a list of lists is one of plain lists.
#[derive(Drop)]
pub struct ListOf<T> {
    items: Vec<T>,
}

impl<T> Model for ListOf<T> {
    ghost use Rattle.std.specs.Prelude.{List};

    ghost Value = { List T };

    ghost view = { λ a. a.items.items };
}

impl<T: Drop> ListOf<T> {
    /// The empty list.
    pub fn new(alloc: Global) -> ListOf<T>
        ensures { result ≡ [] }
    {
        ListOf {
            items: Vec::new(alloc),
        }
    }

    /// Appends one.
    pub fn push(&mut self, item: T) -> Result<(), Memory>
        ensures ok { OnOk result (self.new ≡ self.old ++ item ∷ []) }
        ensures err { OnErr result (self.new ≡ self.old) }
    {
        self.items.push(item)?;
        Ok(())
    }

    /// The list's things, in order.
    pub fn as_slice(&self) -> &[T]
        ensures { result.now ≡ self.now }
    {
        self.items.as_slice()
    }
}

impl<T: Copy + Drop> ListOf<T> {
    /// A copy of what stands in a slice.
    pub fn from_slice(alloc: Global, items: &[T]) -> Result<ListOf<T>, Memory>
        ensures { IfOk result (λ list. list ≡ items.now) }
    {
        let mut list = ListOf::new(alloc);
        list.items.extend_from_slice(items)?;
        Ok(list)
    }
}
