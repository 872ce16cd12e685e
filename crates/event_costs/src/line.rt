// The lines of a cost text.
ghost use Rattle.std.specs.Prelude.{◌≡◌, ◌<◌, length, true, IfOk, IfSome, option_map};
ghost use Rattle.des_base.specs.CountedLines.{texts_of, tokens_of};
ghost use Rattle.event_costs.specs.CostText.{is_cost_header, cost_line, cost_number, fault_event_of};
ghost use Rattle.event_costs.specs.Prices.{IsPrice};
ghost use Rattle.event_costs.specs.LineWords.{said_by};
ghost use Rattle.event_costs.specs.Reading.{ReadsPrice};
ghost use Rattle.des_net.specs.Network.{is_fault};

use crate::MOST_COST;
use crate::fault::CostFault;
use crate::table::{CostTable, Price};
use des_base::{EventId, Line, Tokens, is_name, read_number};
use des_net::Network;

const NO_SHAPE: u8 = 2;

const NO_NAME: u8 = 3;

const NAMED_BEFORE: u8 = 4;

const NO_FAULT_EVENT: u8 = 5;

const NO_PRICE: u8 = 6;

// The words of a line: an event, and what it costs.
#[derive(Clone, Copy)]
pub(crate) struct CostWords<'a> {
    pub event: &'a [u8],
    pub cost: &'a [u8],
}

// Whether the tokens are `costs 1`.
pub(crate) fn is_cost_header(mut tokens: Tokens) -> bool
    ensures { result ≡ is_cost_header (texts_of tokens.entry) }
{
    let Some(word) = tokens.next_token() else {
        return false;
    };
    let Some(version) = tokens.next_token() else {
        return false;
    };
    tokens.next_token().is_none()
        && word.text == b"costs".as_slice()
        && version.text == b"1".as_slice()
}

// The two words behind `cost`.
fn cost_words<'a>(mut tokens: Tokens<'a>) -> Option<CostWords<'a>>
    ensures { cost_line (texts_of tokens.entry) ≡ option_map said_by result }
{
    let word = tokens.next_token()?.text;
    let event = tokens.next_token()?.text;
    let cost = tokens.next_token()?.text;
    if tokens.next_token().is_some() || word != b"cost".as_slice() {
        return None;
    }
    Some(CostWords { event, cost })
}

/// The fault event of this name, if there is one.
pub fn find_fault(net: &Network, name: &[u8]) -> Option<EventId>
    ensures event { result ≡ fault_event_of net.now name.now }
    ensures within { IfSome result (λ e. e < length net.now.events) }
    ensures fault { IfSome result (λ e. is_fault net.now e ≡ true) }
{
    let event = net.find_event(name)?;
    if net.is_fault(event) {
        Some(event)
    } else {
        None
    }
}

// The cost that the text spells.
fn read_cost(text: &[u8]) -> Option<u32>
    ensures cost { result ≡ cost_number text.now }
    ensures price { IfSome result IsPrice }
{
    let cost = read_number(text, MOST_COST as u64)?;
    if cost >= 1 { Some(cost as u32) } else { None }
}

// The event of a line and its cost, with the earlier lines in the table.
pub(crate) fn read_price(
    net: &Network,
    table: &CostTable,
    line: Line<'_>,
) -> Result<Price, CostFault>
    requires { length table.now ≡ length net.now.events }
    ensures price { ReadsPrice net.now table.now line.entry.number (cost_line (tokens_of line.entry.text.now)) result }
    ensures good { IfOk result (λ price. IsPrice price.cost) }
{
    let number = line.number;
    let Some(words) = cost_words(line.tokens()) else {
        return Err(fault_at(number, NO_SHAPE));
    };
    if !is_name(words.event) {
        return Err(fault_at(number, NO_NAME));
    }
    let Some(event) = find_fault(net, words.event) else {
        return Err(fault_at(number, NO_FAULT_EVENT));
    };
    if table.has(event) {
        return Err(fault_at(number, NAMED_BEFORE));
    }
    match read_cost(words.cost) {
        Some(cost) => Ok(Price { event, cost }),
        None => Err(fault_at(number, NO_PRICE)),
    }
}

// The fault of this code on this line.
pub(crate) fn fault_at(line: u32, code: u8) -> CostFault
    ensures { result ≡ record { line = line; code = code } }
{
    CostFault { line, code }
}
