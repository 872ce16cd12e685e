// The variables that wait to be suggested, in a binary heap. It knows the place of each variable in it: one that grows more active is
// moved, and stands there once.
//
// Of two variables the more active one comes first, of equal activities the one of greater rank, then the smaller number, as `Order` has
// it. Whoever makes all activities smaller together may make some of them equal, and so the first of the heap need not be the first by
// this order from then on; no clause says that it is.
ghost use Rattle.std.specs.Prelude.{◌≡◌, ◌<◌, ◌≤◌, ◌++◌, ◌∷◌, [], true, length, slice_index, slice_set, vec_capacity, Some, OnOk, OnErr, IfSome};
ghost use Rattle.sat_solve.specs.Heap.{ArePlaced, IsHeap, has_place, held_of, Takes, comes_before};
ghost use Rattle.sat_solve.specs.Widening.{widened};

use des_base::Memory;
use std::alloc::Global;
use std::marker::Model;

// The place of a variable that doesn't wait.
const ABSENT: u32 = u32::MAX;

// What variables are ordered by.
#[derive(Clone, Copy)]
pub struct Ratings<'a> {
    pub activities: &'a [u64],
    pub ranks: &'a [u64],
}

#[derive(Drop)]
pub struct Heap {
    vars: Vec<u32>,
    places: Vec<u32>,
}

impl Model for Heap {
    ghost use Rattle.std.specs.Prelude.{List, Bool, vec_capacity};
    ghost use Rattle.sat_solve.specs.Heap.{IsHeap, has_place};

    ghost Value = { List Bool };

    ghost view = { λ a. has_place a.places.items };

    ghost invariant = { λ a. IsHeap a.vars.items a.places.items (vec_capacity a.vars) };
}

impl Heap {
    // No variable is known.
    pub fn new(alloc: Global) -> Heap
        ensures { result ≡ [] }
    {
        Heap {
            vars: Vec::new(alloc),
            places: Vec::new(alloc),
        }
    }

    // How many variables are known.
    pub fn known(&self) -> usize
        ensures { result ≡ length self.now }
    {
        self.places.len()
    }

    // How many variables wait.
    pub fn held(&self) -> u32
        ensures { result ≡ held_of self.now }
    {
        self.vars.len() as u32
    }

    // Makes sure that this many variables are known. Those that are added don't wait.
    pub fn widen(&mut self, vars: u32) -> Result<(), Memory>
        ensures ok { OnOk result (self.new ≡ widened self.old vars) }
        ensures err { OnErr result (self.new ≡ self.old) }
    {
        let count = self.places.len().max(vars as usize);
        self.vars.reserve(count - self.vars.len())?;
        self.places.resize(count, ABSENT)?;
        Ok(())
    }

    // Takes a variable that waits: the first of the heap.
    pub fn take(&mut self, ratings: Ratings) -> Option<u32>
        ensures { Takes self.old self.new result }
    {
        let last = self.vars.pop()?;
        Some(take_first(&mut self.vars, &mut self.places, last, ratings))
    }

    // Lets a variable wait. One that waits stays where it is.
    pub fn add(&mut self, var: u32, ratings: Ratings)
        requires { var < length self.old }
        ensures { self.new ≡ slice_set self.old var true }
    {
        if self.places[var as usize] != ABSENT {
            return;
        }
        add_last(&mut self.vars, &mut self.places, var, ratings);
    }

    // Lets a variable wait that has grown more active. One that waits moves forward.
    pub fn raise(&mut self, var: u32, ratings: Ratings)
        requires { var < length self.old }
        ensures { self.new ≡ slice_set self.old var true }
    {
        let place = self.places[var as usize];
        if place == ABSENT {
            self.add(var, ratings);
        } else {
            rise(
                &mut self.vars,
                &mut self.places,
                place as usize,
                var,
                ratings,
            );
        }
    }
}

// Takes the first of a heap from which the last was taken already. That one still waits, and stands where it belongs then.
fn take_first(vars: &mut [u32], places: &mut [u32], last: u32, ratings: Ratings) -> u32
    requires placed { ArePlaced (vars.old ++ last ∷ []) places.old }
    ensures placed { ArePlaced vars.new places.new }
    ensures taken { Takes (has_place places.old) (has_place places.new) (Some result) }
{
    if vars.is_empty() {
        places[last as usize] = ABSENT;
        return last;
    }
    let first = vars[0];
    places[first as usize] = ABSENT;
    sink(vars, places, last, ratings);
    first
}

// Puts a variable that has no place behind the last of a heap, or above that place if it comes before those that stand there.
fn add_last(vars: &mut Vec<u32>, places: &mut [u32], var: u32, ratings: Ratings)
    requires heap { IsHeap vars.old.items places.old (vec_capacity vars.old) }
    requires known { var < length places.old }
    requires absent { slice_index places.old var ≡ ABSENT }
    ensures heap { IsHeap vars.new.items places.new (vec_capacity vars.new) }
    ensures waiting { has_place places.new ≡ slice_set (has_place places.old) var true }
{
    let place = vars.len();
    vars.push(var).unwrap();
    rise(vars, places, place, var, ratings);
}

// Puts a variable at a place of the heap, or above it if it comes before those that stand there.
fn rise(vars: &mut [u32], places: &mut [u32], from: usize, var: u32, ratings: Ratings)
    requires from { from < length vars.old }
    requires known { var < length places.old }
    requires placed { ArePlaced (slice_set vars.old from var) (slice_set places.old var from) }
    ensures placed { ArePlaced vars.new places.new }
    ensures waiting { has_place places.new ≡ has_place (slice_set places.old var from) }
{
    let mut place = from;
    'up: while let Some(above) = place_above(vars, place, var, ratings) {
        let moved = vars[above];
        put(vars, places, place, moved);
        place = above;
    }
    put(vars, places, place, var);
}

// Puts a variable at the top of the heap, or below it if others come before it.
fn sink(vars: &mut [u32], places: &mut [u32], var: u32, ratings: Ratings)
    requires some { 0 < length vars.old }
    requires known { var < length places.old }
    requires placed { ArePlaced (slice_set vars.old 0 var) (slice_set places.old var 0) }
    ensures placed { ArePlaced vars.new places.new }
    ensures waiting { has_place places.new ≡ has_place (slice_set places.old var 0) }
{
    let mut place = 0_usize;
    'down: while let Some(below) = place_below(vars, place, var, ratings) {
        let moved = vars[below];
        put(vars, places, place, moved);
        place = below;
    }
    put(vars, places, place, var);
}

// The place above a place, where the variable comes before the one that stands there.
fn place_above(vars: &[u32], place: usize, var: u32, ratings: Ratings) -> Option<usize>
    requires { place < length vars.now }
    ensures { IfSome result (λ above. above < place) }
{
    if place == 0 {
        return None;
    }
    let above = (place - 1) / 2;
    if is_before(var, vars[above], ratings) {
        Some(above)
    } else {
        None
    }
}

// Of the places below a place the one whose variable comes first, where that comes before the variable.
fn place_below(vars: &[u32], place: usize, var: u32, ratings: Ratings) -> Option<usize>
    requires limit { length vars.now ≤ ABSENT }
    requires place { place < length vars.now }
    ensures below { IfSome result (λ below. place < below) }
    ensures within { IfSome result (λ below. below < length vars.now) }
{
    let left = 2 * place + 1;
    if left >= vars.len() {
        return None;
    }
    let right = left + 1;
    let mut below = left;
    if right < vars.len() && is_before(vars[right], vars[left], ratings) {
        below = right;
    }
    if is_before(vars[below], var, ratings) {
        Some(below)
    } else {
        None
    }
}

// Whether a variable is more active than another, or of greater rank, or smaller.
fn is_before(var: u32, other: u32, ratings: Ratings) -> bool
    ensures { result ≡ comes_before ratings.entry.activities.now ratings.entry.ranks.now var other }
{
    let own = amount_at(ratings.activities, var);
    let others = amount_at(ratings.activities, other);
    if own != others {
        return own > others;
    }
    let rank = amount_at(ratings.ranks, var);
    let other_rank = amount_at(ratings.ranks, other);
    if rank != other_rank {
        return rank > other_rank;
    }
    var < other
}

// What is kept of a variable, or 0.
fn amount_at(amounts: &[u64], var: u32) -> u64
    ensures { result ≡ slice_index amounts.now var }
{
    match amounts.get(var as usize) {
        Some(amount) => *amount,
        None => 0,
    }
}

// A variable stands at a place.
fn put(vars: &mut [u32], places: &mut [u32], place: usize, var: u32)
    requires place { place < length vars.old }
    requires limit { place < ABSENT }
    requires var { var < length places.old }
    ensures vars { vars.new ≡ slice_set vars.old place var }
    ensures places { places.new ≡ slice_set places.old var place }
{
    vars[place] = var;
    places[var as usize] = place as u32;
}
