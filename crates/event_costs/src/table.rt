// What each event costs.
ghost use Rattle.std.specs.Prelude.{◌≡◌, ◌<◌, length, is_some, IfOk};
ghost use Rattle.event_costs.specs.Prices.{IsPrice, given_at, cost_at};
ghost use Rattle.event_costs.specs.Reading.{HasGiven, IsEmptyTable};

use crate::MOST_COST;
use des_base::{EventId, Memory};
use des_net::Network;
use std::alloc::Global;
use std::marker::Model;

/// A fault event, and what it costs.
#[derive(Clone, Copy)]
pub struct Price {
    pub event: EventId,
    pub cost: u32,
}

/// What the events of a network cost: for each the cost that a text gives it, or none, and then it costs 1.
#[derive(Drop)]
pub struct CostTable {
    given: Vec<Option<u32>>,
}

impl Model for CostTable {
    ghost use Rattle.std.specs.Prelude.{ℕ, List, Option, All};
    ghost use Rattle.event_costs.specs.Prices.{IsPriceIfGiven};

    ghost Value = { List (Option ℕ) };

    ghost view = { λ a. a.given.items };

    ghost invariant = { λ a. All IsPriceIfGiven a.given.items };
}

impl CostTable {
    /// No cost is given yet.
    pub(crate) fn new(alloc: Global, net: &Network) -> Result<CostTable, Memory>
        ensures { IfOk result (IsEmptyTable (length net.now.events)) }
    {
        let mut given = Vec::new(alloc);
        given.resize(net.events() as usize, None)?;
        Ok(CostTable { given })
    }

    /// What the event of this number costs: 1 if it isn't a fault.
    pub fn cost(&self, event: u32) -> u32
        requires { event < length self.now }
        ensures cost { result ≡ cost_at self.now event }
        ensures price { IsPrice result }
    {
        self.given[event as usize].unwrap_or(1)
    }

    /// Whether a cost is given to the event.
    pub(crate) fn has(&self, event: EventId) -> bool
        requires { event < length self.now }
        ensures { result ≡ is_some (given_at self.now event) }
    {
        self.given[event.0 as usize].is_some()
    }

    /// Gives the event this cost.
    pub(crate) fn put(&mut self, price: Price)
        requires event { price.event < length self.old }
        requires price { IsPrice price.cost }
        ensures { HasGiven price self.old self.new }
    {
        self.given[price.event.0 as usize] = Some(price.cost);
    }
}
