// The pairs of a log, by their first alarms, and whether a further pair closes a cycle.
ghost use Rattle.std.specs.Prelude.{◌≡◌, ◌+◌, ◌<◌, ◌≤◌, ◌∷◌, ◌++◌, [], ℕ, true, false, not, length, Err, None, IfOk, OnOk, OnErr};
ghost use Rattle.des_base.specs.Names.{place_of};
ghost use Rattle.des_base.specs.Refusing.{SucceedsUnless};
ghost use Rattle.log_order.specs.Log.{has_pair, reaches, ListsOnce, Keeps, AreOrdered, StandOnce};
ghost use Rattle.log_order.specs.Adding.{before_refusal, with_pair};
ghost use Rattle.log_order.specs.declared.TheConstants.{MOST_ALARMS, MOST_PAIRS};
ghost use Rattle.log_order.specs.Precedence.{no_precedence, is_marked, moved, with_follower};
ghost use Rattle.log_order.specs.Order.{least_order};

use crate::MOST_PAIRS;
use crate::marks::{is_marked, mark_all, push_marked, push_unmarked};
use crate::order::least_order;
use crate::refusal::LogRefusal;
use des_base::{ListOf, Memory, Name, NameTable};
use std::alloc::Global;
use std::marker::Model;

// Pairs of numbers below a count, "the first before the second", without a cycle.
//
// An order that keeps the pairs stands beside them. So one pass along it finds all that comes after a number, and a new
// pair moves what comes after its second number behind the rest.
#[derive(Drop)]
pub struct Precedence {
    pairs: Vec<(u32, u32)>,
    order: Vec<u32>,
    followers: Vec<ListOf<u32>>,
    alloc: Global,
}

impl Model for Precedence {
    ghost use Rattle.log_order.specs.Precedence.{Precedence};

    ghost Value = { Precedence };

    ghost use Rattle.log_order.specs.View.{precedence_view, IsPrecedence};

    ghost view = { precedence_view };

    ghost invariant = { IsPrecedence };
}

impl Precedence {
    pub fn new(alloc: Global) -> Self
        ensures { result ≡ no_precedence }
    {
        Precedence {
            pairs: Vec::new(alloc),
            order: Vec::new(alloc),
            followers: Vec::new(alloc),
            alloc,
        }
    }

    pub fn count(&self) -> u32
        ensures count { result ≡ self.now.count }
        ensures ordered { AreOrdered self.now.count self.now.pairs }
        ensures few { self.now.count ≤ MOST_ALARMS }
    {
        self.order.len() as u32
    }

    pub fn pairs(&self) -> &[(u32, u32)]
        ensures { result.now ≡ self.now.pairs }
    {
        self.pairs.as_slice()
    }

    // How many pairs there are.
    pub fn pair_count(&self) -> usize
        ensures count { result ≡ length self.now.pairs }
        ensures once { StandOnce self.now.pairs }
    {
        self.pairs.len()
    }

    // Whether the pair is there.
    pub fn has(&self, first: u32, second: u32) -> bool
        ensures { result ≡ has_pair self.now.pairs first second }
    {
        match self.followers.get(first as usize) {
            Some(followers) => followers.as_slice().contains(&second),
            None => false,
        }
    }

    // Marks for what a number reaches.
    fn reached(&self, from: u32) -> Result<Vec<bool>, Memory>
        requires { from < self.now.count }
        ensures marks { IfOk result (λ marks. (i : ℕ) → is_marked marks.items i ≡ reaches self.now.pairs from i) }
    {
        let mut marks = vec![in self.alloc; false; self.order.len()]?;
        marks[from as usize] = true;
        for number in &self.order {
            if is_marked(marks.as_slice(), *number) {
                mark_all(self.followers[*number as usize].as_slice(), &mut marks);
            }
        }
        Ok(marks)
    }

    // What the second number reaches, if the pair is accepted.
    #[tactic(auto, unfolding(crate::specs::Adding::before_refusal))]
    fn admit(&self, first: u32, second: u32) -> Result<Vec<bool>, LogRefusal>
        ensures refused { SucceedsUnless (before_refusal self.now.count self.now.pairs first second) LogRefusal.Memory result }
        ensures marks { IfOk result (λ marks. (i : ℕ) → is_marked marks.items i ≡ reaches self.now.pairs second i) }
        ensures apart { OnOk result (reaches self.now.pairs second first ≡ false) }
        ensures first { OnOk result (first < self.now.count) }
        ensures second { OnOk result (second < self.now.count) }
        ensures ordered { AreOrdered self.now.count self.now.pairs }
        ensures cycle { result ≡ Err LogRefusal.Cycle → reaches self.now.pairs second first ≡ true }
        ensures room { OnOk result (has_pair self.now.pairs first second ≡ false → length self.now.pairs < MOST_PAIRS) }
    {
        if first >= self.count() || second >= self.count() {
            return Err(LogRefusal::Unknown);
        }
        let marks = self.reached(second)?;
        if is_marked(marks.as_slice(), first) {
            return Err(LogRefusal::Cycle);
        }
        if !self.has(first, second) && self.pairs.len() >= MOST_PAIRS {
            return Err(LogRefusal::Limit);
        }
        Ok(marks)
    }

    // The order that takes, of the numbers whose predecessors are all taken, the smallest first.
    pub fn least_order(&self) -> Result<Vec<u32>, Memory>
        ensures least { IfOk result (λ order. order.items ≡ least_order self.now.count self.now.pairs) }
        ensures listed { IfOk result (λ order. ListsOnce self.now.count order.items) }
        ensures kept { IfOk result (λ order. Keeps order.items self.now.pairs) }
    {
        let order = least_order(self.alloc, self.count(), self.pairs.as_slice())?;
        Ok(order)
    }

    // Whether the pair would be accepted.
    pub fn test(&self, first: u32, second: u32) -> Result<(), LogRefusal>
        ensures refused { SucceedsUnless (before_refusal self.now.count self.now.pairs first second) LogRefusal.Memory result }
        ensures ordered { OnOk result (AreOrdered self.now.count (with_pair self.now.pairs first second)) }
        ensures cycle { result ≡ Err LogRefusal.Cycle → ¬ AreOrdered self.now.count (with_pair self.now.pairs first second) }
    {
        let _marks = self.admit(first, second)?;
        Ok(())
    }

    // Adds a number, which stands in no pair, and its id to the table: both or none.
    pub fn add_number(&mut self, ids: &mut NameTable, id: Name) -> Result<u32, Memory>
        requires room { self.old.count < MOST_ALARMS }
        requires few { length ids.old < MOST_ALARMS }
        requires new { place_of id ids.old ≡ None }
        ensures ok { OnOk result (self.new ≡ record self.old { count = self.old.count + 1 }) }
        ensures ids { OnOk result (ids.new ≡ ids.old ++ id ∷ []) }
        ensures place { IfOk result (λ number. number ≡ self.old.count) }
        ensures err { OnErr result (self.new ≡ self.old) }
        ensures err_ids { OnErr result (ids.new ≡ ids.old) }
    {
        let number = self.order.len() as u32;
        self.order.reserve(1)?;
        self.followers.reserve(1)?;
        ids.add(id)?;
        self.order.push_reserved(number);
        self.followers.push_reserved(ListOf::new(self.alloc));
        Ok(number)
    }

    // Adds a new pair that closes no cycle, with the marks of what its second number reaches.
    fn put(&mut self, first: u32, second: u32, marks: &[bool]) -> Result<(), Memory>
        requires first { first < self.old.count }
        requires second { second < self.old.count }
        requires marks { (i : ℕ) → is_marked marks.now i ≡ reaches self.old.pairs second i }
        requires apart { reaches self.old.pairs second first ≡ false }
        requires new { has_pair self.old.pairs first second ≡ false }
        ensures ok { OnOk result (self.new ≡ record self.old { pairs = self.old.pairs ++ (first, second) ∷ [] }) }
        ensures err { OnErr result (self.new ≡ self.old) }
    {
        let order = moved(self.alloc, self.order.as_slice(), marks)?;
        self.pairs.reserve(1)?;
        push_follower(&mut self.followers, first, second)?;
        self.pairs.push_reserved((first, second));
        self.order = order;
        Ok(())
    }

    // Adds a pair, if it isn't there.
    pub fn add(&mut self, first: u32, second: u32) -> Result<bool, LogRefusal>
        ensures refused { SucceedsUnless (before_refusal self.old.count self.old.pairs first second) LogRefusal.Memory result }
        ensures ok { OnOk result (self.new ≡ record self.old { pairs = with_pair self.old.pairs first second }) }
        ensures few { OnOk result (length self.old.pairs ≤ MOST_PAIRS → length self.new.pairs ≤ MOST_PAIRS) }
        ensures fresh { IfOk result (λ fresh. fresh ≡ not (has_pair self.old.pairs first second)) }
        ensures err { OnErr result (self.new ≡ self.old) }
    {
        let marks = self.admit(first, second)?;
        if self.has(first, second) {
            return Ok(false);
        }
        self.put(first, second, marks.as_slice())?;
        Ok(true)
    }
}

// The order for a further pair: the numbers that have a mark, behind the others.
fn moved(alloc: Global, order: &[u32], marks: &[bool]) -> Result<Vec<u32>, Memory>
    ensures { IfOk result (λ new. new.items ≡ moved (is_marked marks.now) order.now) }
{
    let mut new = Vec::with_capacity(alloc, order.len())?;
    push_unmarked(order, marks, &mut new)?;
    push_marked(order, marks, &mut new)?;
    Ok(new)
}

// Adds a follower of one of the numbers.
pub fn push_follower(
    followers: &mut Vec<ListOf<u32>>,
    first: u32,
    second: u32,
) -> Result<(), Memory>
    requires { first < length followers.old.items }
    ensures ok { OnOk result (followers.new.items ≡ with_follower followers.old.items first second) }
    ensures err { OnErr result (followers.new.items ≡ followers.old.items) }
{
    let there = &mut followers[first as usize];
    there.push(second)?;
    Ok(())
}
