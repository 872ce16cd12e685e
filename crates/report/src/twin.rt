// The text of what a twin test came to.
ghost use Rattle.std.specs.Prelude.{◌≡◌, ◌<◌, ◌++◌, All, length, OnErr, OnOk};
ghost use Rattle.des_base.specs.Lists.{Extends};
ghost use Rattle.replay.specs.Traced.{word_of};
ghost use Rattle.report.specs.Replies.{TwinEventsKnown, text_of_both, text_of_run, text_of_twin};

use crate::pieces::{push_numbered, push_text, whole_or_nothing};
use crate::run::push_run;
use answers::Twin;
use des_base::Memory;
use des_net::Network;
use replay::Run;

/// Appends what a twin test within n steps came to.
///
/// It is `AMBIGUOUS` and n, and then both runs, each behind a line that says which it is: `faulty`, or `healthy`. Else it is
/// `CLEAR` and n, or `UNDECIDED`.
pub fn print_twin(twin: &Twin, net: &Network, n: u32, out: &mut Vec<u8>) -> Result<(), Memory>
    requires { TwinEventsKnown net.now twin.now }
    ensures ok { OnOk result (out.new.items ≡ out.old.items ++ text_of_twin net.now n twin.now) }
    ensures err { OnErr result (out.new.items ≡ out.old.items) }
{
    let before = out.len();
    let pushed = push_twin(twin, net, n, out);
    whole_or_nothing(pushed, before, out)
}

// The same, but if memory runs out some of it may be there.
fn push_twin(twin: &Twin, net: &Network, n: u32, out: &mut Vec<u8>) -> Result<(), Memory>
    requires { TwinEventsKnown net.now twin.now }
    ensures ok { OnOk result (out.new.items ≡ out.old.items ++ text_of_twin net.now n twin.now) }
    ensures kept { Extends out.old.items out.new.items }
{
    match twin {
        Twin::Ambiguous { faulty, healthy } => {
            push_numbered("AMBIGUOUS ", u64::from(n), out)?;
            push_both(faulty, healthy, net, out)
        }
        Twin::Clear => push_numbered("CLEAR ", u64::from(n), out),
        Twin::Undecided => push_text("UNDECIDED\n", out),
    }
}

// Appends both runs.
fn push_both(faulty: &Run, healthy: &Run, net: &Network, out: &mut Vec<u8>) -> Result<(), Memory>
    requires faulty { All (λ e. e < length net.now.events) (word_of faulty.now) }
    requires healthy { All (λ e. e < length net.now.events) (word_of healthy.now) }
    ensures ok { OnOk result (out.new.items ≡ out.old.items ++ text_of_both net.now faulty.now healthy.now) }
    ensures kept { Extends out.old.items out.new.items }
{
    push_named_run("faulty\n", faulty, net, out)?;
    push_named_run("healthy\n", healthy, net, out)
}

// Appends a line that says which run it is, and the run.
fn push_named_run(which: &str, run: &Run, net: &Network, out: &mut Vec<u8>) -> Result<(), Memory>
    requires { All (λ e. e < length net.now.events) (word_of run.now) }
    ensures ok { OnOk result (out.new.items ≡ out.old.items ++ (which.now ++ text_of_run net.now run.now)) }
    ensures kept { Extends out.old.items out.new.items }
{
    push_text(which, out)?;
    push_run(run, net, out)
}
