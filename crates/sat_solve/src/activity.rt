// Which variables took part in conflicts, the most active first.
//
// - Each conflict adds an *increment* to the activity of the variables that took part in it, and increments grow, so that late conflicts weigh
//   more (Eén and Sörensson, "An extensible SAT-solver", 2003). Activities are whole numbers, so the same question has the same
//   answer on each machine.
// - Those that wait stand in a heap, the most active first.
ghost use Rattle.std.specs.Prelude.{◌≡◌, ◌/◌, map, OnOk, OnErr};
ghost use Rattle.sat_solve.specs.Heap.{held_of, Takes};
ghost use Rattle.sat_solve.specs.Activity.{never_active, with_vars, KeepsActivity, with_back, with_part, after_conflict};

use crate::heap::{Heap, Ratings};
use crate::marks::Marks;
use des_base::Memory;
use std::alloc::Global;
use std::marker::Model;

// What the first conflict adds.
const FIRST_INCREMENT: u64 = 1_048_576;

// Each increment is greater than the one before by this part of it.
const GROWTH: u64 = 16;

// Beyond this increment all activities are divided, so that no sum comes near 2^64.
const LAST_INCREMENT: u64 = 1_125_899_906_842_624;

// What they are divided by.
const DIVISOR: u64 = 1_073_741_824;

// No activity is greater.
const MOST: u64 = u64::MAX;

#[derive(Drop)]
pub struct Activity {
    activities: Vec<u64>,
    counted: Marks,
    heap: Heap,
    increment: u64,
}

impl Model for Activity {
    ghost use Rattle.std.specs.Prelude.{◌≤◌, length};
    ghost use Rattle.sat_solve.specs.Activity.{ActivityState};
    ghost use Rattle.sat_solve.specs.declared.activity.TheConstants.{LAST_INCREMENT};

    ghost Value = { ActivityState };

    ghost view = { λ a. record { activities = a.activities.items; counted = a.counted; waiting = a.heap; increment = a.increment } };

    ghost invariant = { λ a. record {
      activities : length a.heap ≤ length a.activities.items;
      counted : length a.heap ≤ length a.counted;
      increment : a.increment ≤ LAST_INCREMENT;
    } };
}

impl Activity {
    // No variable is known.
    pub fn new(alloc: Global) -> Activity
        ensures { result ≡ never_active }
    {
        Activity {
            activities: Vec::new(alloc),
            counted: Marks::new(alloc),
            heap: Heap::new(alloc),
            increment: FIRST_INCREMENT,
        }
    }

    // Makes sure that this many variables are known. Those that are added were never active, and don't wait.
    pub fn widen(&mut self, vars: u32) -> Result<(), Memory>
        ensures ok { OnOk result (self.new ≡ with_vars self.old vars) }
        ensures err { OnErr result (KeepsActivity self.old self.new vars) }
    {
        let count = self.activities.len().max(vars as usize);
        self.activities.resize(count, 0)?;
        self.counted.widen(vars as usize)?;
        self.heap.widen(vars)
    }

    // How many variables wait.
    pub fn held(&self) -> u32
        ensures { result ≡ held_of self.now.waiting }
    {
        self.heap.held()
    }

    // Takes a variable that waits: the first of the heap.
    pub fn take(&mut self, ranks: &[u64]) -> Option<u32>
        ensures taken { Takes self.old.waiting self.new.waiting result }
        ensures kept { self.new ≡ record self.old { waiting = self.new.waiting } }
    {
        let ratings = Ratings {
            activities: &self.activities,
            ranks,
        };
        self.heap.take(ratings)
    }

    // Puts a variable back that was ever active.
    pub fn put_back(&mut self, var: u32, ranks: &[u64])
        ensures { self.new ≡ with_back self.old var }
    {
        if (var as usize) < self.heap.known() && self.activities[var as usize] > 0 {
            let ratings = Ratings {
                activities: &self.activities,
                ranks,
            };
            self.heap.add(var, ratings);
        }
    }

    // A variable takes part in the present conflict. It counts once.
    pub fn bump(&mut self, var: u32, ranks: &[u64])
        ensures { self.new ≡ with_part self.old var }
    {
        if (var as usize) < self.heap.known() && self.counted.mark(var) {
            let activity = self.activities[var as usize].saturating_add(self.increment);
            self.activities[var as usize] = activity;
            let ratings = Ratings {
                activities: &self.activities,
                ranks,
            };
            self.heap.raise(var, ratings);
        }
    }

    // The present conflict is over.
    pub fn end_conflict(&mut self)
        ensures { self.new ≡ after_conflict self.old }
    {
        self.counted.clear();
        let next = self.increment + self.increment / GROWTH;
        if next > LAST_INCREMENT {
            divide(&mut self.activities);
            self.increment = next / DIVISOR;
        } else {
            self.increment = next;
        }
    }
}

// Makes all activities smaller together. Their order stays, but for those that become equal.
fn divide(activities: &mut [u64])
    ensures { activities.new ≡ map (λ activity. activity / DIVISOR) activities.old }
{
    for activity in activities.iter_mut() {
        *activity /= DIVISOR;
    }
}
