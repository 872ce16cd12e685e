// The least total cost by a stored closure that has the costs itself. What one finds that looks them up in a text is a case of files.
ghost use Rattle.std.specs.Prelude.{◌≡◌, ◌≤◌, [], true};
ghost use Rattle.cost_least.specs.Costs.{cost_size};
ghost use Rattle.des_base.specs.declared.TheConstants.{MOST_STEPS};
ghost use Rattle.event_costs.specs.Prices.{IsPrice};
ghost use Rattle.event_costs.specs.StoredCosts.{IsCost};
ghost use Rattle.indep.specs.StoredTest.{IsTest};
ghost use Rattle.least_faults.specs.Building.{IsUnused};
ghost use Rattle.least_faults.specs.Parts.{AreReady, BelongTo};
ghost use Rattle.least_faults.specs.declared.TheConstants.{MOST_SIZE};

use crate::models::{ModelCase, VALVE, alarm_log, passes_on};
use cost_least::{Cheap, cheapest, cost_size};
use des_base::{EventId, Memory};
use des_net::Network;
use event_costs::{Costs, MOST_COST};
use indep::{Indep, plain_touch};
use least_faults::{MOST_SIZE, Parts, build};
use log_order::AlarmLog;
use proof_ledger::Ledger;
use sat_order::Order;
use sat_solve::Solver;
use std::alloc::Global;

// A question, and the least total, or none if it is above 1,000. The first event has the first price, and each other fault event has the
// second.
pub struct CostRow {
    log: &'static str,
    prices: (u32, u32),
    steps: u32,
    least: Option<u32>,
}

// Of three faults one leads to the alarm, and so do the two others together.
const TWO_WAYS: &str =
    "des 1\ncomponent c\nstate s init\nstate m\nstate t\ntrans s f t\ntrans s g m\ntrans m h t\ntrans t a t\nevent ef fault : c.f\nevent eg fault : c.g\nevent eh fault : c.h\nevent ea alarm A : c.a\n";

const TWO_FAULTS_ARE_CHEAPER: CostRow = CostRow {
    log: "alarm,x,A\n",
    prices: (10, 2),
    steps: 3,
    least: Some(4),
};

// There are not steps enough for two faults.
const ONE_FAULT_IS_LEFT: CostRow = CostRow {
    log: "alarm,x,A\n",
    prices: (10, 2),
    steps: 2,
    least: Some(10),
};

// The valve trips twice.
const TWO_JAMS_ARE_DEAR: CostRow = CostRow {
    log: "alarm,a1,T\nalarm,a2,F\nalarm,a3,T\nbefore,a1,a2\nbefore,a2,a3\n",
    prices: (600, 1),
    steps: 5,
    least: None,
};

fn is_least(answer: Result<Cheap, Memory>, want: Option<u32>) -> bool {
    match answer {
        Ok(Cheap::Found(priced)) => want == Some(priced.cost),
        Ok(Cheap::Dear(_)) => want.is_none(),
        _ => false,
    }
}

// Whether this is the least total, if the question is built.
fn weighs<C: Fn(u32) -> u32, R: Fn(u32) -> u64>(
    alloc: Global,
    net: &Network,
    log: &AlarmLog,
    built: Parts<R>,
    costs: &Costs<C>,
    book: &mut Ledger,
    want: Option<u32>,
) -> bool
    requires cost { IsCost C.pre C.post costs.now.cost costs.now.net }
    requires net { costs.now.net ≡ net.now }
    requires belong { BelongTo net.now log.now built }
    requires steps { built.step.steps ≤ MOST_STEPS }
    requires ready { AreReady R.pre R.post built book.old.entries }
    requires size { cost_size net.now log.now built.step.steps ≤ MOST_SIZE }
{
    let mut parts = built;
    let answer = cheapest(alloc, net, log, &mut parts, costs, book, 1000);
    drop(parts);
    is_least(answer, want)
}

// The same with an empty book, with a test and a solver that are given.
fn builds<T: Fn(u32, u32) -> bool, C: Fn(u32) -> u32, R: Fn(u32) -> u64>(
    alloc: Global,
    net: &Network,
    log: &AlarmLog,
    steps: u32,
    test: &Indep<T>,
    solver: Solver<R>,
    costs: &Costs<C>,
    book: &mut Ledger,
    want: Option<u32>,
) -> bool
    requires right { IsTest T.pre T.post test.now.test test.now.net }
    requires same { test.now.net ≡ net.now }
    requires unused { IsUnused R.pre R.post solver }
    requires cost { IsCost C.pre C.post costs.now.cost costs.now.net }
    requires net { costs.now.net ≡ net.now }
    requires steps { steps ≤ MOST_STEPS }
    requires size { cost_size net.now log.now steps ≤ MOST_SIZE }
    requires empty { book.old.entries ≡ [] }
{
    match build(alloc, net, log, steps, test, solver, book) {
        Ok(parts) => weighs(alloc, net, log, parts, costs, book, want),
        Err(unbuilt) => {
            drop(unbuilt);
            false
        }
    }
}

// The same by the test that looks at the parts, where the last variable is decided first.
fn builds_plainly<C: Fn(u32) -> u32>(
    alloc: Global,
    net: &Network,
    log: &AlarmLog,
    steps: u32,
    costs: &Costs<C>,
    book: &mut Ledger,
    want: Option<u32>,
) -> bool
    requires cost { IsCost C.pre C.post costs.now.cost costs.now.net }
    requires net { costs.now.net ≡ net.now }
    requires steps { steps ≤ MOST_STEPS }
    requires size { cost_size net.now log.now steps ≤ MOST_SIZE }
    requires empty { book.old.entries ≡ [] }
{
    let test = Indep::new(net, |a: u32, b: u32| {
        plain_touch(net, EventId(a), EventId(b))
    });
    let solver = Solver::new(alloc, Order::new(alloc, |var: u32| var as u64));
    builds(alloc, net, log, steps, &test, solver, costs, book, want)
}

// The same of a question that is not too large.
fn finds<C: Fn(u32) -> u32>(
    alloc: Global,
    net: &Network,
    log: &AlarmLog,
    steps: u32,
    costs: &Costs<C>,
    want: Option<u32>,
) -> bool
    requires cost { IsCost C.pre C.post costs.now.cost costs.now.net }
    requires net { costs.now.net ≡ net.now }
{
    if steps > 1000 || cost_size(net, log, steps) > MOST_SIZE {
        return false;
    }
    builds_plainly(alloc, net, log, steps, costs, &mut Ledger::new(alloc), want)
}

// By a closure that has the costs itself: two, of which the first is that of the first event.
fn finds_by_numbers(
    alloc: Global,
    net: &Network,
    log: &AlarmLog,
    steps: u32,
    prices: (u32, u32),
    want: Option<u32>,
) -> bool
    requires first { IsPrice prices.0 }
    requires others { IsPrice prices.1 }
{
    let (first, others) = prices;
    let costs = Costs::new(net, |event: u32| if event == 0 { first } else { others });
    finds(alloc, net, log, steps, &costs, want)
}

fn is_price(price: u32) -> bool
    ensures { result ≡ true → IsPrice price }
{
    price >= 1 && price <= MOST_COST
}

fn finds_row(alloc: Global, net: &Network, log: &AlarmLog, row: &CostRow) -> bool {
    is_price(row.prices.0)
        && is_price(row.prices.1)
        && finds_by_numbers(alloc, net, log, row.steps, row.prices, row.least)
}

// Whether it is found.
pub fn finds_least(alloc: Global, net: &Network, row: &CostRow) -> bool {
    match alarm_log(alloc, row.log) {
        Some(log) => {
            let found = finds_row(alloc, net, &log, row);
            drop(log);
            found
        }
        None => false,
    }
}

#[test]
fn finds_least_totals(rt: HostRuntime) {
    assert!(rt;
        passes_on(
            &rt,
            rt.alloc(),
            TWO_WAYS,
            &ModelCase::Least(&TWO_FAULTS_ARE_CHEAPER)
        )
    );
    assert!(rt;
        passes_on(
            &rt,
            rt.alloc(),
            TWO_WAYS,
            &ModelCase::Least(&ONE_FAULT_IS_LEFT)
        )
    );
    assert!(rt;
        passes_on(
            &rt,
            rt.alloc(),
            VALVE,
            &ModelCase::Least(&TWO_JAMS_ARE_DEAR)
        )
    );
}
