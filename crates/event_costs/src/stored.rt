// What events cost, by a closure that is stored with its network.
ghost use Rattle.std.specs.Prelude.{◌≡◌, ℕ, ◌<◌, length, true};
ghost use Rattle.des_net.specs.Network.{is_fault};
ghost use Rattle.event_costs.specs.Prices.{IsPrice};
ghost use Rattle.event_costs.specs.StoredCosts.{IsCost, GivesCosts};

use des_base::EventId;
use des_net::Network;
use std::marker::Model;
use std::snapshot::Snapshot;

/// What the fault events of a network cost, by a closure that is kept beside the network that it was made for.
#[derive(Drop)]
pub struct Costs<C> {
    net: Snapshot<Network>,
    cost: C,
}

impl<C> Model for Costs<C> {
    ghost use Rattle.event_costs.specs.StoredCosts.{StoredCosts};

    ghost Value = { StoredCosts C };

    ghost view = { λ a. record { net = a.net.value; cost = a.cost } };
}

impl<C: Fn(u32) -> u32> Costs<C> {
    /// Keeps a closure that answers on the number of a fault event of this network what the event costs, 1 to 1,000. Any two of its
    /// answers for one number must be equal.
    pub fn new(net: &Network, cost: C) -> Costs<C>
        requires right { IsCost C.pre C.post cost net.now }
        ensures { result ≡ record { net = net.now; cost = cost } }
    {
        Costs {
            net: Snapshot::of(net),
            cost,
        }
    }

    /// What a fault event costs.
    ///
    /// That the closure is right was shown when it was stored; it is shown again here, since a stored closure can't keep what is
    /// known of it.
    pub fn cost(&self, event: EventId) -> u32
        requires right { IsCost C.pre C.post self.now.cost self.now.net }
        requires event { event < length self.now.net.events }
        requires fault { is_fault self.now.net event ≡ true }
        ensures answer { C.post self.now.cost event result }
        ensures price { IsPrice result }
        ensures cost { (cost : ℕ → ℕ) → GivesCosts C.post self.now.cost self.now.net cost → result ≡ cost event }
    {
        (self.cost)(event.0)
    }
}
