// The text for a refused row of a script.
ghost use Rattle.std.specs.Prelude.{◌≡◌, ◌++◌, OnErr, OnOk};
ghost use Rattle.report.specs.Replies.{text_of_refused};

use crate::pieces::{push_numbered, whole_or_nothing};
use des_base::Memory;

/// Appends the reply to a refused row of a script: `REFUSED` and the number of the refusal.
pub fn print_refused(number: u32, out: &mut Vec<u8>) -> Result<(), Memory>
    ensures ok { OnOk result (out.new.items ≡ out.old.items ++ text_of_refused number) }
    ensures err { OnErr result (out.new.items ≡ out.old.items) }
{
    let before = out.len();
    let pushed = push_numbered("REFUSED ", u64::from(number), out);
    whole_or_nothing(pushed, before, out)
}
