// The variables that were made.
ghost use Rattle.std.specs.Prelude.{◌≡◌, ◌+◌, ◌≤◌};

use des_base::VAR_LIMIT;
use std::marker::Model;

/// The variables that were made, which are the numbers below their count.
#[derive(Drop)]
pub struct Vars {
    count: u32,
}

impl Model for Vars {
    ghost use Rattle.des_base.specs.declared.TheConstants.{VAR_LIMIT};
    ghost use Rattle.std.specs.Prelude.{ℕ, ◌≤◌};

    ghost Value = { ℕ };

    ghost view = { λ a. a.count };

    ghost invariant = { λ a. a.count ≤ VAR_LIMIT };
}

impl Vars {
    /// No variables.
    pub fn new() -> Vars
        ensures { result ≡ 0 }
    {
        Vars { count: 0 }
    }

    /// How many variables there are.
    pub fn count(&self) -> u32
        ensures count { result ≡ self.now }
        ensures few { result ≤ VAR_LIMIT }
    {
        self.count
    }

    /// Makes this many new variables, one after another, and returns the first of them.
    pub fn fresh(&mut self, k: u32) -> u32
        requires { self.old + k ≤ VAR_LIMIT }
        ensures first { result ≡ self.old }
        ensures count { self.new ≡ self.old + k }
    {
        let first = self.count;
        self.count += k;
        first
    }
}
