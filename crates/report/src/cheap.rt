// The text of what is found of the least total cost.
ghost use Rattle.std.specs.Prelude.{◌≡◌, ◌<◌, ◌++◌, All, length, IfSome, OnErr, OnOk};
ghost use Rattle.des_base.specs.Lists.{Extends};
ghost use Rattle.replay.specs.Traced.{word_of};
ghost use Rattle.report.specs.Replies.{CheapEventsKnown, text_of_cheap, text_of_totals};

use crate::pieces::{push_numbered, push_placed, push_text, whole_or_nothing};
use crate::run::push_run;
use answers::{Cheap, Priced};
use des_base::{Memory, push_decimal};
use des_net::Network;

/// Appends what was found of the least total cost within n steps.
///
/// It is `CHEAPEST` and that total, `NONE` and n, `DEAR 1000`, or `UNDECIDED`, the total below which nothing explains and that of
/// the run that is known, or `-` if none is. If a run is known, it follows.
pub fn print_cheap(cheap: &Cheap, net: &Network, n: u32, out: &mut Vec<u8>) -> Result<(), Memory>
    requires { CheapEventsKnown net.now cheap.now }
    ensures ok { OnOk result (out.new.items ≡ out.old.items ++ text_of_cheap net.now n cheap.now) }
    ensures err { OnErr result (out.new.items ≡ out.old.items) }
{
    let before = out.len();
    let pushed = push_cheap(cheap, net, n, out);
    whole_or_nothing(pushed, before, out)
}

// The same, but if memory runs out some of it may be there.
fn push_cheap(cheap: &Cheap, net: &Network, n: u32, out: &mut Vec<u8>) -> Result<(), Memory>
    requires { CheapEventsKnown net.now cheap.now }
    ensures ok { OnOk result (out.new.items ≡ out.old.items ++ text_of_cheap net.now n cheap.now) }
    ensures kept { Extends out.old.items out.new.items }
{
    match cheap {
        Cheap::Found(priced) => {
            push_numbered("CHEAPEST ", u64::from(priced.cost), out)?;
            push_run(&priced.run, net, out)
        }
        Cheap::Absent => push_numbered("NONE ", u64::from(n), out),
        Cheap::Dear(run) => {
            push_text("DEAR 1000\n", out)?;
            push_run(run, net, out)
        }
        Cheap::Undecided { lo, best } => push_undecided(*lo, best, net, out),
    }
}

// Appends what is known if the budget was spent.
fn push_undecided(
    lo: u32,
    best: &Option<Priced>,
    net: &Network,
    out: &mut Vec<u8>,
) -> Result<(), Memory>
    requires { IfSome best.now (λ priced. All (λ e. e < length net.now.events) (word_of priced.run)) }
    ensures ok { OnOk result (out.new.items ≡ out.old.items ++ text_of_totals net.now lo best.now) }
    ensures kept { Extends out.old.items out.new.items }
{
    match best {
        Some(priced) => {
            push_placed("UNDECIDED ", u64::from(lo), u64::from(priced.cost), out)?;
            push_run(&priced.run, net, out)
        }
        None => {
            push_text("UNDECIDED ", out)?;
            push_decimal(out, u64::from(lo))?;
            push_text(" -\n", out)
        }
    }
}
