// What each search about a network begins with: a table of the events that touch a common component, and an order of variables.
ghost use Rattle.std.specs.Prelude.{◌≡◌, ◌≤◌, List, [], IfOk, OnErr};
ghost use Rattle.des_base.specs.declared.TheConstants.{MOST_STEPS};
ghost use Rattle.des_net.specs.Network.{Net};
ghost use Rattle.indep.specs.StoredTest.{IsTest};
ghost use Rattle.proof_ledger.specs.Book.{BookEntry};
ghost use Rattle.sat_order.specs.Rank.{IsRanked};

use des_base::{EventId, Memory};
use des_net::Network;
use indep::{Indep, Table};
use proof_ledger::Ledger;
use sat_order::Order;
use std::alloc::Global;
use step_encode::step_variables;

/// A search that begins over an empty book, and may put something meanwhile: into `Out`, which is `()` if it puts nothing.
pub trait NetworkSearch<Out> {
    /// What comes of it.
    type Answer;

    /// The network that it is about.
    ghost about: { Self → Net };

    /// What has to hold before it begins.
    ghost may: { Self → Type 0 };

    /// What the answer means, by what was put before, what is put now, and the book that is left.
    ghost says: { Self → Out → Out → List BookEntry → Self.Answer → Type 0 };

    /// Searches, with a test of touching events and an order that has no variables yet.
    fn begin<T: Fn(u32, u32) -> bool, R: Fn(u32) -> u64>(
        &self,
        alloc: Global,
        test: &Indep<T>,
        order: Order<R>,
        book: &mut Ledger,
        out: &mut Out,
    ) -> Self::Answer
        requires right { IsTest T.pre T.post test.now.test test.now.net }
        requires net { test.now.net ≡ about self.now }
        requires ranked { IsRanked R.pre R.post order }
        requires no_variables { order.waiting ≡ [] }
        requires may { may self.now }
        requires empty { book.old.entries ≡ [] }
        ensures { says self.now out.old out.new book.new.entries result };
}

/// Begins a search over an empty book, about runs of a network within `steps` parallel steps. If memory runs out before it begins, nothing has
/// been put.
///
/// Which events touch a common component is looked up in a table.
pub fn set_up<Out, Q: NetworkSearch<Out>>(
    alloc: Global,
    net: &Network,
    steps: u32,
    search: &Q,
    book: &mut Ledger,
    out: &mut Out,
) -> Result<Q::Answer, Memory>
    requires about { Q.about search.now ≡ net.now }
    requires steps { steps ≤ MOST_STEPS }
    requires may { Q.may search.now }
    requires empty { book.old.entries ≡ [] }
    ensures says { IfOk result (Q.says search.now out.old out.new book.new.entries) }
    ensures no_book { OnErr result (book.new ≡ book.old) }
    ensures nothing_put { OnErr result (out.new ≡ out.old) }
{
    let table = Table::new(alloc, net)?;
    let test = Indep::new(net, |a: u32, b: u32| table.get(EventId(a), EventId(b)));
    set_up_by(alloc, net, steps, &test, search, book, out)
}

// Begins it by a test. What comes behind the variables of the steps is decided first, those of the log and of the counter; then the
// events, which are the last of the steps, and then the states.
fn set_up_by<T: Fn(u32, u32) -> bool, Out, Q: NetworkSearch<Out>>(
    alloc: Global,
    net: &Network,
    steps: u32,
    test: &Indep<T>,
    search: &Q,
    book: &mut Ledger,
    out: &mut Out,
) -> Result<Q::Answer, Memory>
    requires right { IsTest T.pre T.post test.now.test test.now.net }
    requires net { test.now.net ≡ net.now }
    requires about { Q.about search.now ≡ net.now }
    requires steps { steps ≤ MOST_STEPS }
    requires may { Q.may search.now }
    requires empty { book.old.entries ≡ [] }
    ensures says { IfOk result (Q.says search.now out.old out.new book.new.entries) }
    ensures no_book { OnErr result (book.new ≡ book.old) }
    ensures nothing_put { OnErr result (out.new ≡ out.old) }
{
    let first = step_variables(alloc, net, steps, test)?;
    let events = first - net.events() * steps;
    let order = Order::new(alloc, |var: u32| {
        u64::from(var >= events) + u64::from(var >= first)
    });
    Ok(search.begin(alloc, test, order, book, out))
}
