// What a search decides before any suggestion: literals, in the order in which they were given.
//
// Whoever gives them expects that each is refuted at once where those before it were, by a short clause. No contract says that it is.
ghost use Rattle.std.specs.Prelude.{◌≡◌, ◌+◌, ◌≤◌, [], drop, length, OnOk, OnErr};
ghost use Rattle.std.specs.List.{position_or_len};
ghost use Rattle.sat_solve.specs.Advice.{from_first, tried_behind, can_be_decided, first_open_try, at_first_open_try};

use des_base::Memory;
use prop_core::Lit;
use sat_prop::Trail;
use std::alloc::Global;
use std::marker::Model;

#[derive(Drop)]
pub struct FirstTries {
    lits: Vec<Lit>,
    // None before this place was open when the search last went forward.
    next: usize,
}

impl Model for FirstTries {
    ghost use Rattle.std.specs.Prelude.{◌≤◌, length};
    ghost use Rattle.sat_solve.specs.Advice.{Tries};

    ghost Value = { Tries };

    ghost view = { λ a. record { literals = a.lits.items; next = a.next } };

    ghost invariant = { λ a. a.next ≤ length a.lits.items };
}

impl FirstTries {
    // There are none.
    pub fn new(alloc: Global) -> FirstTries
        ensures { result ≡ from_first [] }
    {
        FirstTries {
            lits: Vec::new(alloc),
            next: 0,
        }
    }

    // These are tried from now on, and no others.
    pub fn replace(&mut self, lits: Vec<Lit>)
        ensures { self.new ≡ from_first lits.items }
    {
        self.begin_anew();
        self.lits = lits;
    }

    // These are tried too, behind the others.
    pub fn extend(&mut self, lits: &[Lit]) -> Result<(), Memory>
        ensures ok { OnOk result (self.new ≡ tried_behind self.old lits.now) }
        ensures err { OnErr result (self.new ≡ self.old) }
    {
        self.lits.extend_from_slice(lits)?;
        Ok(())
    }

    // The search went back, so that any may be open again.
    pub fn begin_anew(&mut self)
        ensures { self.new ≡ from_first self.old.literals }
    {
        self.next = 0;
    }

    // The first that is known and open. Those before it are passed over.
    pub fn next_open(&mut self, trail: &Trail, vars: u32) -> Option<Lit>
        ensures found { result ≡ first_open_try self.old trail.now.literals vars }
        ensures passed { self.new ≡ at_first_open_try self.old trail.now.literals vars }
    {
        self.next = first_open(self.lits.as_slice(), self.next, trail, vars);
        self.lits.get(self.next).copied()
    }
}

// The place of the first literal, from a place on, that is known and open: past the last if there is none.
fn first_open(lits: &[Lit], from: usize, trail: &Trail, vars: u32) -> usize
    requires { from ≤ length lits.now }
    ensures first { result ≡ from + position_or_len (can_be_decided trail.now.literals vars) (drop from lits.now) }
    ensures within { result ≤ length lits.now }
{
    for place in from..lits.len() {
        if can_be_decided(lits[place], trail, vars) {
            return place;
        }
    }
    lits.len()
}

// Whether the variable of a literal is known, and open.
fn can_be_decided(lit: Lit, trail: &Trail, vars: u32) -> bool
    ensures { result ≡ can_be_decided trail.now.literals vars lit }
{
    lit.var() < vars && trail.value(lit.var()).is_none()
}
