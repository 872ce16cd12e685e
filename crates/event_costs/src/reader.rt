// Reading a cost text, line by line.
ghost use Rattle.std.specs.Prelude.{◌≡◌, ◌<◌, ◌^◌, length, None, IfOk, OnOk, IfErr};
ghost use Rattle.event_costs.specs.CostText.{first_cost_fault, IsTableOf, IsCostDue};
ghost use Rattle.event_costs.specs.Reading.{ReadsPrices};

use crate::fault::{CostFault, CostRefusal};
use crate::line::{fault_at, is_cost_header, read_price};
use crate::table::CostTable;
use des_base::Lines;
use des_net::Network;
use std::alloc::Global;

const NO_HEADER: u8 = 1;

/// What the text says that the fault events of the network cost, or its first fault.
///
/// The first line is `costs 1`. Each other line is `cost EVENT C`, where C is a number from 1 to 1,000, and no event is named
/// twice. A fault event that isn't named costs 1. Blank lines are skipped, and so are lines that begin with `#`.
pub fn read_costs(alloc: Global, bytes: &[u8], net: &Network) -> Result<CostTable, CostRefusal>
    requires { length bytes.now < 2 ^ 32 }
    ensures table { IfOk result (IsTableOf net.now bytes.now) }
    ensures well { OnOk result (first_cost_fault net.now bytes.now ≡ None) }
    ensures refused { IfErr result (IsCostDue (first_cost_fault net.now bytes.now)) }
{
    let mut lines = Lines::new(bytes, b'#');
    let Some(header) = lines.next_line() else {
        return Err(CostRefusal::Fault(fault_at(1, NO_HEADER)));
    };
    if !is_cost_header(header.tokens()) {
        return Err(CostRefusal::Fault(fault_at(header.number, NO_HEADER)));
    }
    read_prices(alloc, net, lines)
}

// The table that the lines after the first give.
fn read_prices(alloc: Global, net: &Network, mut lines: Lines) -> Result<CostTable, CostRefusal>
    ensures { ReadsPrices net.now lines.entry result }
{
    let mut table = CostTable::new(alloc, net)?;
    while let Some(line) = lines.next_line() {
        match read_price(net, &table, line) {
            Ok(price) => table.put(price),
            Err(fault) => return Err(CostRefusal::Fault(fault)),
        }
    }
    Ok(table)
}
