// The text of the result of checking a proof.
ghost use Rattle.std.specs.Prelude.{◌≡◌, ◌++◌, OnErr, OnOk};
ghost use Rattle.des_base.specs.Lists.{Extends};
ghost use Rattle.report.specs.Replies.{text_of_checked};

use crate::pieces::{push_placed, push_text, whole_or_nothing};
use des_base::Memory;
use proof_ledger::Checked;

/// Appends the result of checking a proof: `VERIFIED`, or `REJECTED`, the line of the first step that doesn't derive and the kind
/// of its fault; line 0 and kind 4 where all steps derive and none has the empty clause.
pub fn print_checked(checked: &Checked, out: &mut Vec<u8>) -> Result<(), Memory>
    ensures ok { OnOk result (out.new.items ≡ out.old.items ++ text_of_checked checked.now) }
    ensures err { OnErr result (out.new.items ≡ out.old.items) }
{
    let before = out.len();
    let pushed = push_checked(checked, out);
    whole_or_nothing(pushed, before, out)
}

// The same, but if memory runs out some of it may be there.
fn push_checked(checked: &Checked, out: &mut Vec<u8>) -> Result<(), Memory>
    ensures ok { OnOk result (out.new.items ≡ out.old.items ++ text_of_checked checked.now) }
    ensures kept { Extends out.old.items out.new.items }
{
    match checked {
        Checked::Verified => push_text("VERIFIED\n", out),
        Checked::Rejected { line, kind } => {
            push_placed("REJECTED ", u64::from(*line), u64::from(*kind), out)
        }
    }
}
