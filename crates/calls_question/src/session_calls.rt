// The calls of a session one by one. What each answers is said by its contract, and what a script's rows come to is among the cases of files.
ghost use Rattle.sat_order.specs.Rank.{IsRanked};

use crate::models::{ModelCase, VALVE, passes_on};
use alarm_session::Session;
use des_base::{EventId, Name};
use des_net::Network;
use indep::{Indep, plain_touch};
use proof_ledger::Ledger;
use sat_order::Order;
use std::alloc::Global;

// Adds an alarm, or one that is perhaps false, and says whether it could.
fn alarm<R: Fn(u32) -> u64>(
    session: &mut Session<'_, R>,
    id: Name,
    labels: &[Name],
    maybe: bool,
) -> bool
    requires ranked { IsRanked R.pre R.post session.old.order }
    ensures ranked { IsRanked R.pre R.post session.new.order }
{
    if maybe {
        session.maybe(id, labels).is_ok()
    } else {
        session.alarm(id, labels).is_ok()
    }
}

// The same by a copy of the name.
fn adds<R: Fn(u32) -> u64>(
    session: &mut Session<'_, R>,
    id: &Name,
    labels: &[Name],
    maybe: bool,
) -> bool
    requires ranked { IsRanked R.pre R.post session.old.order }
    ensures ranked { IsRanked R.pre R.post session.new.order }
{
    match id.copy() {
        Ok(id) => alarm(session, id, labels, maybe),
        Err(_) => false,
    }
}

// Whether two alarms of these names, of which the second is perhaps false, and their order can be added, and it is asked what explains them.
fn answers<R: Fn(u32) -> u64>(session: &mut Session<'_, R>, names: &[Name; 2]) -> bool
    requires ranked { IsRanked R.pre R.post session.old.order }
{
    adds(session, &names[0], names.as_slice(), false)
        && adds(session, &names[1], names.as_slice(), true)
        && session.before(&names[0], &names[1]) == Ok(true)
        && session.ask(1000).is_ok()
        && session.log().alarms() == 2
        && session.book().entries() > 0
}

fn answers_anew<R: Fn(u32) -> u64>(given: Session<'_, R>, names: &[Name; 2]) -> bool
    requires { IsRanked R.pre R.post given.order }
{
    let mut session = given;
    let answered = answers(&mut session, names);
    let book = session.into_book();
    drop(book);
    answered
}

// The same by a session that decides the last variable first.
fn answers_by(alloc: Global, net: &Network, names: &[Name; 2]) -> bool {
    let test = Indep::new(net, |a: u32, b: u32| {
        plain_touch(net, EventId(a), EventId(b))
    });
    let rank = Order::new(alloc, |var: u32| var as u64);
    match Session::new(alloc, net, 2, &test, rank, Ledger::new(alloc)) {
        Ok(session) => answers_anew(session, names),
        Err(_) => false,
    }
}

fn name(alloc: Global, text: &[u8]) -> Option<Name> {
    Name::new(alloc, text).ok()
}

// Whether it is, where the alarms are named like their labels.
pub fn is_answered(alloc: Global, net: &Network) -> bool {
    match (name(alloc, b"T"), name(alloc, b"F")) {
        (Some(one), Some(other)) => answers_by(alloc, net, &[one, other]),
        _ => false,
    }
}

#[test]
fn answers_call_by_call(rt: HostRuntime) {
    assert!(rt; passes_on(&rt, rt.alloc(), VALVE, &ModelCase::Answers));
}
