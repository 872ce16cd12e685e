// The text of a verdict on a fault event.
ghost use Rattle.std.specs.Prelude.{◌≡◌, ◌<◌, ◌++◌, length, OnErr, OnOk};
ghost use Rattle.des_base.specs.Lists.{Extends};
ghost use Rattle.report.specs.VerdictTexts.{RunKnown, named_event_line, text_of_verdict};

use crate::pieces::{push_named, whole_or_nothing};
use crate::run::{name_of, push_run};
use answers::Verdict;
use des_base::{EventId, Memory};
use des_net::Network;

/// Appends what all best explanations say of a fault event: `CERTAIN`, `EXCLUDED` or `POSSIBLE`, or `OPEN` if the budget was
/// spent, and the name of the event. If it is possible, the run that shows it follows.
pub fn print_verdict(
    verdict: &Verdict,
    event: EventId,
    net: &Network,
    out: &mut Vec<u8>,
) -> Result<(), Memory>
    requires event { event < length net.now.events }
    requires known { RunKnown net.now verdict.now }
    ensures ok { OnOk result (out.new.items ≡ out.old.items ++ text_of_verdict net.now event verdict.now) }
    ensures err { OnErr result (out.new.items ≡ out.old.items) }
{
    let before = out.len();
    let pushed = push_verdict(verdict, event, net, out);
    whole_or_nothing(pushed, before, out)
}

// The same, but if memory runs out some of it may be there.
fn push_verdict(
    verdict: &Verdict,
    event: EventId,
    net: &Network,
    out: &mut Vec<u8>,
) -> Result<(), Memory>
    requires event { event < length net.now.events }
    requires known { RunKnown net.now verdict.now }
    ensures ok { OnOk result (out.new.items ≡ out.old.items ++ text_of_verdict net.now event verdict.now) }
    ensures kept { Extends out.old.items out.new.items }
{
    match verdict {
        Verdict::Certain => push_event("CERTAIN ", event, net, out),
        Verdict::Excluded => push_event("EXCLUDED ", event, net, out),
        Verdict::Possible(run) => {
            push_event("POSSIBLE ", event, net, out)?;
            push_run(run, net, out)
        }
        Verdict::Open => push_event("OPEN ", event, net, out),
    }
}

// Appends a word, the name of the event, and the end of the line.
fn push_event(word: &str, event: EventId, net: &Network, out: &mut Vec<u8>) -> Result<(), Memory>
    requires { event < length net.now.events }
    ensures ok { OnOk result (out.new.items ≡ out.old.items ++ named_event_line net.now word.now event) }
    ensures kept { Extends out.old.items out.new.items }
{
    push_named(word, name_of(net, event), out)
}
