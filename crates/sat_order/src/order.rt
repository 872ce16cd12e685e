// Variables with the ranks that a closure gives, and which of them wait.
ghost use Rattle.std.specs.Prelude.{◌≡◌, ◌<◌, ◌≤◌, ◌+◌, ◌-◌, ◌++◌, [], true, false, length, max, replicate, slice_set, OnOk, OnErr, IfSome, IfNone};
ghost use Rattle.sat_order.specs.Waiting.{IsNext, NoneWaits};
ghost use Rattle.sat_order.specs.Rank.{IsRank, IsRanked, IsNextByRank};

use crate::queue::Queue;
use des_base::{Memory, VAR_LIMIT};
use std::alloc::Global;
use std::marker::Model;

/// Variables by the ranks that a closure gave them, some of which wait to be taken.
///
/// `grow` alone asks the closure, and needs of it what `new` does. Each call keeps the closure, and that the ranks are its answers.
#[derive(Drop)]
pub struct Order<R> {
    rank: R,
    queue: Queue,
}

impl<R> Model for Order<R> {
    ghost use Rattle.sat_order.specs.Rank.{OrderState};
    ghost use Rattle.sat_order.specs.Waiting.{IsWaitingList};

    ghost Value = { OrderState R };

    ghost view = { λ a. record { rank = a.rank; ranks = a.queue.ranks; waiting = a.queue.waiting } };

    ghost invariant = { λ a. IsWaitingList a.queue.ranks a.queue.waiting };
}

impl<R: Fn(u32) -> u64> Order<R> {
    /// No variables yet.
    pub fn new(alloc: Global, rank: R) -> Order<R>
        requires { IsRank R.pre R.post rank }
        ensures value { result ≡ record { rank = rank; ranks = []; waiting = [] } }
        ensures ranked { IsRanked R.pre R.post result }
    {
        Order {
            rank,
            queue: Queue::new(alloc),
        }
    }

    /// How many variables there are.
    pub fn vars(&self) -> u32
        ensures { result ≡ length self.now.waiting }
    {
        self.queue.len() as u32
    }

    /// The rank of each variable, as it was stored.
    pub fn ranks(&self) -> &[u64]
        ensures { result.now ≡ self.now.ranks }
    {
        self.queue.ranks()
    }

    /// Adds variables until there are this many. Those that are added wait.
    pub fn grow(&mut self, vars: u32) -> Result<(), Memory>
        requires rank { IsRank R.pre R.post self.old.rank }
        requires limit { vars ≤ VAR_LIMIT }
        ensures ranked { IsRanked R.pre R.post self.old → IsRanked R.pre R.post self.new }
        ensures rank { self.new.rank ≡ self.old.rank }
        ensures vars { OnOk result (length self.new.ranks ≡ max vars (length self.old.ranks)) }
        ensures waiting { OnOk result (self.new.waiting ≡ self.old.waiting ++ replicate (vars - length self.old.waiting) true) }
        ensures err { OnErr result (self.new ≡ self.old) }
    {
        let first = self.queue.len() as u32;
        let more = vars.saturating_sub(first);
        self.queue.reserve(more as usize)?;
        for var in first..vars {
            let rank = (self.rank)(var);
            self.queue.add(rank);
        }
        Ok(())
    }

    /// Lets a variable wait. One that waits goes on waiting.
    pub fn put_back(&mut self, var: u32)
        requires { var < length self.old.waiting }
        ensures { self.new ≡ record self.old { waiting = slice_set self.old.waiting var true } }
    {
        self.queue.put_back(var);
    }

    /// Takes the waiting variable with the greatest rank, and of equal ranks the smallest number.
    pub fn take(&mut self) -> Option<u32>
        ensures next { IfSome result (λ var. IsNext self.old.ranks self.old.waiting var) }
        ensures by_rank { IfSome result (λ var. IsRanked R.pre R.post self.old → IsNextByRank R.post self.old var) }
        ensures taken { IfSome result (λ var. self.new ≡ record self.old { waiting = slice_set self.old.waiting var false }) }
        ensures none { IfNone result (NoneWaits self.old.waiting) }
        ensures same { IfNone result (self.new ≡ self.old) }
    {
        self.queue.take()
    }
}
