// When a search restarts: if the clauses that were learnt last have literals of more levels than those of the whole search, so
// that little is learnt where it goes now (Audemard and Simon, "Refining restarts strategies for SAT and UNSAT formulas", 2012).
//
// Both means are whole numbers, in parts of one level. A mean moves towards each new number by a fixed part of the way, so that late
// numbers weigh more; that of the whole search moves by the exact part as long as there are few.
ghost use Rattle.std.specs.Prelude.{◌≡◌, ◌<◌, ◌≤◌};
ghost use Rattle.sat_solve.specs.Restarts.{no_means, moved_mean, with_learnt_clause, is_due, after_asking};

use std::marker::Model;

// The least number of conflicts between two restarts.
const SHORTEST: u64 = 50;

// The parts of one level.
const LEVEL: u64 = 1_048_576;

// More levels count as this many.
const MOST_LEVELS: u64 = 4_294_967_296;

// No mean is greater.
const MOST: u64 = MOST_LEVELS * LEVEL;

// The late mean moves by this part of the way.
const LATE: u64 = 32;

// The mean of the whole search moves by this part of the way at least.
const WHOLE: u64 = 8_192;

#[derive(Drop)]
pub struct Restarts {
    late: u64,
    whole: u64,
    // How many clauses were learnt, up to the number from which on the mean moves by the same part.
    clauses: u64,
    // How many were learnt since the last restart, up to the number that is enough.
    since: u64,
}

impl Model for Restarts {
    ghost use Rattle.std.specs.Prelude.{◌≤◌};
    ghost use Rattle.sat_solve.specs.Restarts.{Means};
    ghost use Rattle.sat_solve.specs.declared.restarts.TheConstants.{SHORTEST, WHOLE, MOST};

    ghost Value = { Means };

    ghost view = { λ a. record { late = a.late; whole = a.whole; clauses = a.clauses; since = a.since } };

    ghost invariant = { λ a. record {
      late : a.late ≤ MOST;
      whole : a.whole ≤ MOST;
      clauses : a.clauses ≤ WHOLE;
      since : a.since ≤ SHORTEST;
    } };
}

impl Restarts {
    // Nothing was learnt.
    pub fn new() -> Restarts
        ensures { result ≡ no_means }
    {
        Restarts {
            late: 0,
            whole: 0,
            clauses: 0,
            since: 0,
        }
    }

    // How many clauses were learnt, up to the number from which on the mean moves by the same part.
    pub fn learnt(&self) -> u64
        ensures { result ≡ self.now.clauses }
    {
        self.clauses
    }

    // Updates the means by a clause that was learnt, whose literals are of `levels` levels.
    pub fn update(&mut self, levels: u64)
        ensures { self.new ≡ with_learnt_clause self.old levels }
    {
        let parts = levels.min(MOST_LEVELS) * LEVEL;
        self.clauses = (self.clauses + 1).min(WHOLE);
        self.since = (self.since + 1).min(SHORTEST);
        self.late = moved_mean(self.late, parts, LATE);
        self.whole = moved_mean(self.whole, parts, self.clauses);
    }

    // Whether the search is to restart: the late mean is greater by a quarter. If so, it has restarted.
    pub fn begins_anew(&mut self) -> bool
        ensures due { result ≡ is_due self.old }
        ensures after { self.new ≡ after_asking self.old }
    {
        if self.since < SHORTEST || self.late * 4 <= self.whole * 5 {
            return false;
        }
        self.since = 0;
        self.late = self.whole;
        true
    }
}

// A mean that moves towards a number, by a part of the way.
fn moved_mean(mean: u64, number: u64, part: u64) -> u64
    requires part { 0 < part }
    requires mean { mean ≤ MOST }
    requires number { number ≤ MOST }
    ensures value { result ≡ moved_mean mean number part }
    ensures bound { result ≤ MOST }
{
    mean - mean / part + number / part
}
