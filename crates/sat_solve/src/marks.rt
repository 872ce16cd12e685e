// Marks of places that are all taken back at once: of each place it keeps the number of the round in which it was marked last.
ghost use Rattle.std.specs.Prelude.{◌≡◌, [], true, false, not, length, map, replicate, slice_index_or, slice_set, OnOk, OnErr};
ghost use Rattle.sat_solve.specs.Widening.{widened};

use des_base::Memory;
use std::alloc::Global;
use std::marker::Model;

#[derive(Drop)]
pub struct Marks {
    rounds: Vec<u32>,
    round: u32,
}

impl Model for Marks {
    ghost use Rattle.std.specs.Prelude.{◌==◌, ◌≤◌, Bool, List, map};
    ghost use Rattle.std.specs.List.{All};

    ghost Value = { List Bool };

    ghost view = { λ a. map (λ round. round == a.round) a.rounds.items };

    ghost invariant = { λ a. record {
      earlier : All (λ round. round ≤ a.round) a.rounds.items;
      some : 1 ≤ a.round;
    } };
}

impl Marks {
    // There are no places.
    pub fn new(alloc: Global) -> Marks
        ensures { result ≡ [] }
    {
        Marks {
            rounds: Vec::new(alloc),
            round: 1,
        }
    }

    // Makes sure that there are at least `places` places. Those that are added are not marked.
    pub fn widen(&mut self, places: usize) -> Result<(), Memory>
        ensures ok { OnOk result (self.new ≡ widened self.old places) }
        ensures err { OnErr result (self.new ≡ self.old) }
    {
        let count = self.rounds.len().max(places);
        self.rounds.resize(count, 0)?;
        Ok(())
    }

    // Marks a place, and says whether there is such a place and it was not marked before.
    pub fn mark(&mut self, place: u32) -> bool
        ensures marked { self.new ≡ slice_set self.old place true }
        ensures first { result ≡ not (slice_index_or self.old place true) }
    {
        if place as usize >= self.rounds.len() {
            return false;
        }
        if self.rounds[place as usize] == self.round {
            return false;
        }
        self.rounds[place as usize] = self.round;
        true
    }

    // Takes all marks back.
    pub fn clear(&mut self)
        ensures { self.new ≡ map (λ mark. false) self.old }
    {
        if self.round == u32::MAX {
            zero(&mut self.rounds);
            self.round = 0;
        }
        self.round += 1;
    }
}

// Makes each number 0.
fn zero(numbers: &mut Vec<u32>)
    ensures { numbers.new.items ≡ replicate (length numbers.old.items) 0 }
{
    for place in 0..numbers.len() {
        numbers[place] = 0;
    }
}
