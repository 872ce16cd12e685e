// Lists that stand one behind another.
ghost use Rattle.std.specs.Prelude.{◌≡◌, ℕ, ◌<◌, ◌≤◌, ◌+◌, ◌-◌, ◌^◌, ◌++◌, ◌∷◌, [], length, map, max, OnOk, OnErr, Some, slice_get, slice_index_or, vec_len, vec_capacity};
ghost use Rattle.prop_core.specs.PieceList.{EndsAscend, later_by};

use des_base::Memory;
use std::alloc::Global;
use std::marker::Model;

/// Lists that stand one behind another in one vector, with room that was reserved for more of them.
///
/// Of lists and of items there are fewer than 2^32, so that it takes four bytes to know where a list ends.
pub struct Pieces<T> {
    items: Vec<T>,
    ends: Vec<u32>,
    spare_pieces: usize,
    spare_items: usize,
}

impl<T> Model for Pieces<T> {
    ghost use Rattle.std.specs.Prelude.{◌+◌, ◌<◌, ◌≤◌, ◌^◌, vec_len, vec_capacity};
    ghost use Rattle.prop_core.specs.PieceList.{PieceList, pieces_of, EndsAscend};

    ghost Value = { PieceList T };

    ghost view = { λ a. record { pieces = pieces_of a.items.items a.ends.items; spare_pieces = a.spare_pieces; spare_items = a.spare_items } };

    ghost invariant = { λ a. record {
      cut : EndsAscend 0 (vec_len a.items) a.ends.items;
      room_ends : vec_len a.ends + a.spare_pieces ≤ vec_capacity a.ends;
      room_items : vec_len a.items + a.spare_items ≤ vec_capacity a.items;
      few_ends : vec_len a.ends + a.spare_pieces < 2 ^ 32;
      few_items : vec_len a.items + a.spare_items < 2 ^ 32;
    } };
}

// Large blocks are made small before they are given back. Once the allocator of the GNU C library got a large block back, it takes all up to
// that size from a heap that gives nothing back between blocks, so vectors that grow later would leave their old places behind.
impl<T: Drop> Drop for Pieces<T> {
    fn drop(self) {
        let Self {
            mut items,
            mut ends,
            spare_pieces: _,
            spare_items: _,
        } = self;
        items.clear();
        items.shrink_to(1);
        ends.clear();
        ends.shrink_to(1);
    }
}

impl<T: Copy> Pieces<T> {
    /// No lists, and no room.
    pub fn new(alloc: Global) -> Pieces<T>
        ensures { result ≡ record { pieces = []; spare_pieces = 0; spare_items = 0 } }
    {
        Pieces {
            items: Vec::new(alloc),
            ends: Vec::new(alloc),
            spare_pieces: 0,
            spare_items: 0,
        }
    }

    /// How many lists there are.
    pub fn len(&self) -> u32
        ensures { result ≡ length self.now.pieces }
    {
        self.ends.len() as u32
    }

    /// For how many more lists there is room.
    pub fn spare_pieces(&self) -> usize
        ensures { result ≡ self.now.spare_pieces }
    {
        self.spare_pieces
    }

    /// For how many more items there is room.
    pub fn spare_items(&self) -> usize
        ensures { result ≡ self.now.spare_items }
    {
        self.spare_items
    }

    /// The list at a place, from 0.
    pub fn piece(&self, place: usize) -> &[T]
        requires { place < length self.now.pieces }
        ensures { slice_get self.now.pieces place ≡ Some result.now }
    {
        let start = start(&self.ends, place) as usize;
        let end = self.ends[place] as usize;
        &self.items[start..end]
    }

    /// Makes sure that there is room for this many more lists with this many items together.
    pub fn reserve(&mut self, pieces: usize, items: usize) -> Result<(), Memory>
        ensures same { self.new.pieces ≡ self.old.pieces }
        ensures ok_pieces { OnOk result (self.new.spare_pieces ≡ max self.old.spare_pieces pieces) }
        ensures ok_items { OnOk result (self.new.spare_items ≡ max self.old.spare_items items) }
        ensures err { OnErr result (self.new ≡ self.old) }
    {
        let spare_pieces = self.spare_pieces.max(pieces);
        let spare_items = self.spare_items.max(items);
        make_room(&mut self.ends, 0, spare_pieces)?;
        make_room(&mut self.items, 0, spare_items)?;
        self.spare_pieces = spare_pieces;
        self.spare_items = spare_items;
        Ok(())
    }

    /// Adds a list in the room that was reserved.
    pub fn push_reserved(&mut self, piece: &[T])
        requires one { 1 ≤ self.old.spare_pieces }
        requires enough { length piece.now ≤ self.old.spare_items }
        ensures added { self.new.pieces ≡ self.old.pieces ++ piece.now ∷ [] }
        ensures spare_pieces { self.new.spare_pieces + 1 ≡ self.old.spare_pieces }
        ensures spare_items { self.new.spare_items + length piece.now ≡ self.old.spare_items }
    {
        self.items.extend_from_slice(piece).unwrap();
        self.ends.push(self.items.len() as u32).unwrap();
        self.spare_pieces -= 1;
        self.spare_items -= piece.len();
    }

    /// Adds all lists of others behind these. The room that was reserved stays.
    pub fn append(&mut self, more: &Pieces<T>) -> Result<(), Memory>
        ensures added { OnOk result (self.new.pieces ≡ self.old.pieces ++ more.now.pieces) }
        ensures spare_pieces { self.new.spare_pieces ≡ self.old.spare_pieces }
        ensures spare_items { self.new.spare_items ≡ self.old.spare_items }
        ensures err { OnErr result (self.new ≡ self.old) }
    {
        make_room(&mut self.ends, self.spare_pieces, more.ends.len())?;
        make_room(&mut self.items, self.spare_items, more.items.len())?;
        append_ends(&mut self.ends, self.items.len() as u32, &more.ends);
        self.items.extend_from_slice(&more.items).unwrap();
        Ok(())
    }

    /// Adds all lists of others behind these, and lets the others go. Without lists and without room it takes theirs, so that
    /// nothing is copied. The room that was reserved stays.
    pub fn absorb(&mut self, more: Pieces<T>) -> Result<(), Memory>
        ensures added { OnOk result (self.new.pieces ≡ self.old.pieces ++ more.pieces) }
        ensures spare_pieces { self.new.spare_pieces ≡ self.old.spare_pieces }
        ensures spare_items { self.new.spare_items ≡ self.old.spare_items }
        ensures err { OnErr result (self.new ≡ self.old) }
    {
        if self.len() > 0 || self.spare_pieces > 0 || self.spare_items > 0 {
            return self.append(&more);
        }
        *self = more.without_room();
        Ok(())
    }

    // The same lists, and no room for more is promised.
    fn without_room(self) -> Pieces<T>
        ensures { result ≡ record { pieces = self.pieces; spare_pieces = 0; spare_items = 0 } }
    {
        let mut kept = self;
        kept.spare_pieces = 0;
        kept.spare_items = 0;
        kept
    }
}

// Where the list at a place starts: where the one before it ends.
fn start(ends: &[u32], place: usize) -> u32
    requires { place ≤ length ends.now }
    ensures { result ≡ slice_index_or (0 ∷ ends.now) place 0 }
{
    if place == 0 {
        return 0;
    }
    ends[place - 1]
}

// How many lists or items there may be.
const MOST: usize = u32::MAX as usize;

// Makes sure that there is room for `more` items beside the spare ones, if there may be that many.
fn make_room<X>(items: &mut Vec<X>, spare: usize, more: usize) -> Result<(), Memory>
    requires few { vec_len items.old + spare < 2 ^ 32 }
    ensures same { (items.new.items ≡ items.old.items) × (vec_len items.new ≡ vec_len items.old) }
    ensures capacity { vec_capacity items.old ≤ vec_capacity items.new }
    ensures room { OnOk result (vec_len items.new + spare + more ≤ vec_capacity items.new) }
    ensures few { OnOk result (vec_len items.new + spare + more < 2 ^ 32) }
{
    if more > MOST - (items.len() + spare) {
        return Err(Memory);
    }
    items.reserve(spare + more)?;
    Ok(())
}

// Adds ends of lists that stand `later` items further on, in room that is there.
fn append_ends(ends: &mut Vec<u32>, later: u32, more: &[u32])
    requires room { vec_len ends.old + length more.now ≤ vec_capacity ends.old }
    requires small { (count : ℕ) × EndsAscend 0 count more.now × (later + count < 2 ^ 32) }
    ensures added { ends.new.items ≡ ends.old.items ++ map (later_by later) more.now }
    ensures len { vec_len ends.new ≡ vec_len ends.old + length more.now }
    ensures capacity { vec_capacity ends.old ≤ vec_capacity ends.new }
{
    for end in more {
        ends.push(later + *end).unwrap();
    }
}
