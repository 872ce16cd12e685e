// The order of the smallest free alarms.
ghost use Rattle.std.specs.Prelude.{◌≡◌, ◌<◌, ℕ, ◌^◌, List, [], All, not, length, IfOk, OnOk};
ghost use Rattle.std.specs.List.{list_all};
ghost use Rattle.log_order.specs.Precedence.{is_in, is_marked};
ghost use Rattle.log_order.specs.Order.{first_below, with_next, least_order};
ghost use Rattle.log_order.specs.Waiting.{AreBefore, is_held_back_in};

use crate::marks::is_marked;
use crate::precedence::push_follower;
use des_base::{ListOf, Memory};
use std::alloc::Global;

// For each of `count` numbers, none before it.
fn none_before(alloc: Global, count: u32) -> Result<Vec<ListOf<u32>>, Memory>
    ensures long { IfOk result (λ lists. length lists.items ≡ count) }
    ensures none { IfOk result (λ lists. AreBefore [] lists.items) }
{
    let mut lists = Vec::with_capacity(alloc, count as usize)?;
    for _ in 0..count {
        lists.push(ListOf::new(alloc))?;
    }
    Ok(lists)
}

// For each number below the count, those that a pair puts before it.
fn before_each(alloc: Global, count: u32, pairs: &[(u32, u32)]) -> Result<Vec<ListOf<u32>>, Memory>
    requires { All (λ pair. pair.1 < count) pairs.now }
    ensures long { IfOk result (λ lists. length lists.items ≡ count) }
    ensures before { IfOk result (λ lists. AreBefore pairs.now lists.items) }
{
    let mut lists = none_before(alloc, count)?;
    for pair in pairs {
        push_follower(&mut lists, pair.1, pair.0)?;
    }
    Ok(lists)
}

// Whether the number isn't taken, and all that stand before it are.
fn is_free(before: &[ListOf<u32>], taken: &[bool], number: u32) -> bool
    requires { number < length before.now }
    ensures { result ≡ not (is_held_back_in before.now (is_marked taken.now) number) }
{
    !is_marked(taken, number) && are_taken(taken, before[number as usize].as_slice())
}

// Whether all of the numbers are taken.
fn are_taken(taken: &[bool], numbers: &[u32]) -> bool
    ensures { result ≡ list_all (is_marked taken.now) numbers.now }
{
    numbers.iter().all(|number| is_marked(taken, *number))
}

// The smallest number that is free.
fn first_free(before: &[ListOf<u32>], taken: &[bool]) -> Option<u32>
    requires { length before.now < 2 ^ 32 }
    ensures { result ≡ first_below (length before.now) (λ i. not (is_held_back_in before.now (is_marked taken.now) i)) }
{
    let count = before.len() as u32;
    for number in 0..count {
        if is_free(before, taken, number) {
            return Some(number);
        }
    }
    None
}

// Takes the smallest free number.
fn take_next(
    before: &[ListOf<u32>],
    order: &mut Vec<u32>,
    taken: &mut Vec<bool>,
) -> Result<(), Memory>
    requires few { length taken.old.items < 2 ^ 32 }
    requires long { length before.now ≡ length taken.old.items }
    requires taken { (i : ℕ) → is_marked taken.old.items i ≡ is_in order.old.items i }
    ensures order { OnOk result ((pairs : List (ℕ × ℕ)) → AreBefore pairs before.now → order.new.items ≡ with_next (length taken.old.items) pairs order.old.items) }
    ensures taken { OnOk result ((i : ℕ) → is_marked taken.new.items i ≡ is_in order.new.items i) }
    ensures long { length taken.new.items ≡ length taken.old.items }
{
    let Some(next) = first_free(before, taken.as_slice()) else {
        return Ok(());
    };
    order.push(next)?;
    taken[next as usize] = true;
    Ok(())
}

// The order that takes, of the numbers whose predecessors are all taken, the smallest first.
pub fn least_order(alloc: Global, count: u32, pairs: &[(u32, u32)]) -> Result<Vec<u32>, Memory>
    requires { All (λ pair. pair.1 < count) pairs.now }
    ensures { IfOk result (λ order. order.items ≡ least_order count pairs.now) }
{
    let before = before_each(alloc, count, pairs)?;
    let mut order = Vec::with_capacity(alloc, count as usize)?;
    let mut taken = vec![in alloc; false; count as usize]?;
    for _ in 0..count {
        take_next(before.as_slice(), &mut order, &mut taken)?;
    }
    Ok(order)
}
