// The text of what is found for a log.
ghost use Rattle.std.specs.Prelude.{◌≡◌, ◌<◌, ◌++◌, All, length, IfOk, IfSome, OnErr, OnOk};
ghost use Rattle.replay.specs.Traced.{word_of};
ghost use Rattle.des_base.specs.Lists.{Extends};
ghost use Rattle.report.specs.Replies.{EventsKnown, text_of_bounds, text_of_found};

use crate::pieces::{push_numbered, push_placed, push_text, whole_or_nothing};
use crate::run::push_run;
use answers::{Best, Found};
use des_base::{Memory, push_decimal};
use des_net::Network;
use std::alloc::Global;

/// Appends what was found of the least number of faults within n steps.
///
/// It is `EXPLAINED` and that number, `NONE` and n, `MANY 255`, or `UNDECIDED`, the number that is known to be needed and that
/// of the run that is known, or `-` if none is. If a run is known, it follows.
pub fn print_found(found: &Found, net: &Network, n: u32, out: &mut Vec<u8>) -> Result<(), Memory>
    requires { EventsKnown net.now found.now }
    ensures ok { OnOk result (out.new.items ≡ out.old.items ++ text_of_found net.now n found.now) }
    ensures err { OnErr result (out.new.items ≡ out.old.items) }
{
    let before = out.len();
    let pushed = push_found(found, net, n, out);
    whole_or_nothing(pushed, before, out)
}

/// The text of that.
pub fn found_text(alloc: Global, net: &Network, n: u32, found: &Found) -> Result<Vec<u8>, Memory>
    requires { EventsKnown net.now found.now }
    ensures { IfOk result (λ text. text.items ≡ text_of_found net.now n found.now) }
{
    let mut text = Vec::new(alloc);
    print_found(found, net, n, &mut text)?;
    Ok(text)
}

// The same, but if memory runs out some of it may be there.
fn push_found(found: &Found, net: &Network, n: u32, out: &mut Vec<u8>) -> Result<(), Memory>
    requires { EventsKnown net.now found.now }
    ensures ok { OnOk result (out.new.items ≡ out.old.items ++ text_of_found net.now n found.now) }
    ensures kept { Extends out.old.items out.new.items }
{
    match found {
        Found::Explained(best) => {
            push_numbered("EXPLAINED ", u64::from(best.faults), out)?;
            push_run(&best.run, net, out)
        }
        Found::Absent => push_numbered("NONE ", u64::from(n), out),
        Found::Many(best) => {
            push_text("MANY 255\n", out)?;
            push_run(&best.run, net, out)
        }
        Found::Undecided { lo, best } => push_undecided(*lo, best, net, out),
    }
}

// Appends what is known if the budget was spent.
fn push_undecided(
    lo: u32,
    best: &Option<Best>,
    net: &Network,
    out: &mut Vec<u8>,
) -> Result<(), Memory>
    requires { IfSome best.now (λ known. All (λ e. e < length net.now.events) (word_of known.run)) }
    ensures ok { OnOk result (out.new.items ≡ out.old.items ++ text_of_bounds net.now lo best.now) }
    ensures kept { Extends out.old.items out.new.items }
{
    match best {
        Some(best) => {
            push_placed("UNDECIDED ", u64::from(lo), u64::from(best.faults), out)?;
            push_run(&best.run, net, out)
        }
        None => {
            push_text("UNDECIDED ", out)?;
            push_decimal(out, u64::from(lo))?;
            push_text(" -\n", out)
        }
    }
}
