// The clauses that were learnt last, with what is known at once of their literals.
ghost use Rattle.std.specs.Prelude.{◌≡◌, ◌<◌, ◌↔◌, true, slice_index_or, IsTrue};
ghost use Rattle.prop_core.specs.Clauses.{Clause};
ghost use Rattle.sat_prop.specs.Recent.{no_learnt, none_learnt, with_learnt, IsSignature, AreBitsWithin};
ghost use Rattle.sat_prop.specs.Watching.{is_part_of};

use crate::watch_lists::NO_WATCH;
use prop_core::Lit;
use std::marker::Model;

/// How many of them there are.
pub const RECENT: usize = 100;

/// A learnt clause: the number of the first of its watches, if it has any, and its signature.
#[derive(Clone, Copy)]
pub struct RecentClause {
    pub watch: u32,
    pub signature: u64,
}

/// The clauses that were learnt last, the oldest first. What is read there only says where it is worth looking.
#[derive(Drop)]
pub struct Recent {
    learnt: [RecentClause; RECENT],
    oldest: usize,
}

impl Model for Recent {
    ghost use Rattle.std.specs.Prelude.{◌<◌, ◌++◌, List, drop, take};
    ghost use Rattle.sat_prop.specs.declared.recent.RecentClause.{RecentClause};
    ghost use Rattle.sat_prop.specs.declared.recent.TheConstants.{RECENT};

    ghost Value = { List RecentClause };

    ghost view = { λ a. drop a.oldest a.learnt ++ take a.oldest a.learnt };

    ghost invariant = { λ a. a.oldest < RECENT };
}

impl Recent {
    /// None was learnt.
    pub fn new() -> Recent
        ensures { result ≡ none_learnt }
    {
        let none = RecentClause {
            watch: NO_WATCH,
            signature: 0,
        };
        Recent {
            learnt: [none; RECENT],
            oldest: 0,
        }
    }

    /// The one that is kept at a place.
    pub fn at(&self, place: usize) -> RecentClause
        requires { place < RECENT }
        ensures { result ≡ slice_index_or self.now place no_learnt }
    {
        self.learnt[(self.oldest + place) % RECENT]
    }

    /// Keeps one more, in the place of the oldest.
    #[tactic(auto, using(crate::proofs::Latest::put_newest))]
    pub fn put(&mut self, learnt: RecentClause)
        ensures { self.new ≡ with_learnt self.old learnt }
    {
        self.learnt[self.oldest] = learnt;
        self.oldest = (self.oldest + 1) % RECENT;
    }
}

/// A bit for each literal of a clause, by its number.
#[tactic(auto, using(crate::proofs::Signatures::signature_none, crate::proofs::Signatures::signature_more))]
pub fn signature(clause: &[Lit]) -> u64
    ensures { IsSignature clause.now result }
{
    let mut bits: u64 = 0;
    for lit in clause {
        bits |= 1u64 << (lit.number() % 64);
    }
    bits
}

/// Whether a clause may be part of another one, by their signatures.
#[tactic(auto, using(crate::proofs::Signatures::within_test, crate::proofs::Signatures::part_within))]
pub fn may_be_part(part: u64, whole: u64) -> bool
    ensures within { IsTrue result ↔ AreBitsWithin part whole }
    ensures none_missed { (inner outer : Clause) → IsSignature inner part → IsSignature outer whole → is_part_of inner outer ≡ true → IsTrue result }
{
    part & !whole == 0
}
