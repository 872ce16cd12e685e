// What a run costs.
ghost use Rattle.std.specs.Prelude.{◌≡◌, ◌<◌, ◌≤◌, ◌*◌, ℕ, All, length, sum_by, IfSome};
ghost use Rattle.event_costs.specs.StoredCosts.{IsCost, GivesCosts};
ghost use Rattle.replay.specs.Traced.{event_of, word_of};
ghost use Rattle.cost_least.specs.Entries.{entry_cost};
ghost use Rattle.replay.specs.declared.TheConstants.{MOST_RUN_STEPS};

use des_net::Network;
use event_costs::Costs;
use replay::RunStep;

// What the entries of a run cost together: fault events their costs, and false alarms 1 each.
pub fn run_cost<C: Fn(u32) -> u32>(net: &Network, costs: &Costs<C>, entries: &[RunStep]) -> u32
    requires cost { IsCost C.pre C.post costs.now.cost costs.now.net }
    requires net { costs.now.net ≡ net.now }
    requires known { All (λ e. e < length net.now.events) (word_of entries.now) }
    requires few { length entries.now ≤ MOST_RUN_STEPS }
    ensures { (cost : ℕ → ℕ) → GivesCosts C.post costs.now.cost net.now cost → result ≡ sum_by (entry_cost net.now cost) entries.now }
{
    let mut cost = 0;
    for entry in entries {
        cost += entry_cost(net, costs, entry);
    }
    cost
}

// What an entry costs.
fn entry_cost<C: Fn(u32) -> u32>(net: &Network, costs: &Costs<C>, entry: &RunStep) -> u32
    requires cost { IsCost C.pre C.post costs.now.cost costs.now.net }
    requires net { costs.now.net ≡ net.now }
    requires known { IfSome (event_of entry.now) (λ e. e < length net.now.events) }
    ensures cost { (cost : ℕ → ℕ) → GivesCosts C.post costs.now.cost net.now cost → result ≡ entry_cost net.now cost entry.now }
    ensures few { result ≤ 1000 }
{
    match entry {
        RunStep::Happens { event, .. } => {
            if net.is_fault(*event) {
                costs.cost(*event)
            } else {
                0
            }
        }
        RunStep::Dropped { .. } => 1,
    }
}
