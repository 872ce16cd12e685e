// Names and their numbers.
ghost use Rattle.std.specs.Prelude.{◌≡◌, ◌+◌, ◌^◌, ◌<◌, ◌∷◌, ◌++◌, [], length, slice_get, IfOk, IfSome, OnErr, None, Some};
ghost use Rattle.des_base.specs.Names.{place_of, AreNames};

use crate::memory::Memory;
use crate::name::Name;
use indexmap::IndexMap;
use std::alloc::Global;
use std::marker::Model;

/// Names in the order in which they were added, found by their bytes.
#[derive(Drop)]
pub struct NameTable {
    table: IndexMap<Vec<u8>, Name>,
    alloc: Global,
}

impl Model for NameTable {
    ghost use Rattle.std.specs.Prelude.{List, ℕ};
    ghost use Rattle.indexmap.specs.IndexMap.{values};
    ghost use Rattle.des_base.specs.Names.{AreNames};
    ghost use Rattle.des_base.specs.Entries.{KeysAreNames};

    ghost Value = { List (List ℕ) };

    ghost view = { λ a. values a.table };

    ghost invariant = { λ a. KeysAreNames a.table.entries × AreNames (values a.table) };
}

impl NameTable {
    /// An empty table.
    pub fn new(alloc: Global) -> Self
        ensures { result ≡ [] }
    {
        NameTable {
            table: IndexMap::new(alloc),
            alloc,
        }
    }

    /// How many names there are.
    pub fn len(&self) -> u32
        ensures len { result ≡ length self.now }
        ensures names { AreNames self.now }
    {
        self.table.len() as u32
    }

    /// The place of the name with this text.
    pub fn find(&self, text: &[u8]) -> Option<u32>
        ensures place { result ≡ place_of text.now self.now }
        ensures within { IfSome result (λ place. place < length self.now) }
    {
        match self.table.get_index_of(text) {
            Some(place) => Some(place as u32),
            None => None,
        }
    }

    /// The name at a place.
    pub fn name(&self, place: u32) -> &Name
        requires { place < length self.now }
        ensures { slice_get self.now place ≡ Some result.now }
    {
        match self.table.get_index(place as usize) {
            Some((_, name)) => name,
            None => unreachable!(),
        }
    }

    /// Adds a name that isn't there, in the last place.
    pub fn add(&mut self, name: Name) -> Result<u32, Memory>
        requires new { place_of name self.old ≡ None }
        requires room { length self.old + 1 < 2 ^ 32 }
        ensures ok { IfOk result (λ place. self.new ≡ self.old ++ name ∷ []) }
        ensures place { IfOk result (λ place. place ≡ length self.old) }
        ensures err { OnErr result (self.new ≡ self.old) }
    {
        let place = self.table.len() as u32;
        let key = Vec::from_slice(self.alloc, name.as_str().as_bytes())?;
        self.table.insert(key, name)?;
        Ok(place)
    }
}
