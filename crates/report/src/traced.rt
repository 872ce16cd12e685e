// The text of the result of tracing a run.
ghost use Rattle.std.specs.Prelude.{◌≡◌, ◌++◌, OnErr, OnOk};
ghost use Rattle.des_base.specs.Lists.{Extends};
ghost use Rattle.report.specs.Replies.{text_of_traced};

use crate::pieces::{push_numbered, whole_or_nothing};
use des_base::Memory;
use replay::Traced;

/// Appends the result of tracing a run: `RAN` and the number of its faults, or `REJECTED STUCK` and the place of the first event
/// that the network can't perform.
pub fn print_traced(traced: &Traced, out: &mut Vec<u8>) -> Result<(), Memory>
    ensures ok { OnOk result (out.new.items ≡ out.old.items ++ text_of_traced traced.now) }
    ensures err { OnErr result (out.new.items ≡ out.old.items) }
{
    let before = out.len();
    let pushed = push_traced(traced, out);
    whole_or_nothing(pushed, before, out)
}

// The same, but if memory runs out some of it may be there.
fn push_traced(traced: &Traced, out: &mut Vec<u8>) -> Result<(), Memory>
    ensures ok { OnOk result (out.new.items ≡ out.old.items ++ text_of_traced traced.now) }
    ensures kept { Extends out.old.items out.new.items }
{
    match traced {
        Traced::Ran { faults } => push_numbered("RAN ", u64::from(*faults), out),
        Traced::Stuck { at } => push_numbered("REJECTED STUCK ", u64::from(*at), out),
    }
}
