// Numbers in decimal digits, appended to a text.
ghost use Rattle.std.specs.Prelude.{◌≡◌, ◌++◌, OnOk, OnErr};
ghost use Rattle.des_base.specs.Lists.{Extends};
ghost use Rattle.std.specs.Fmt.{decimal};

use crate::memory::Memory;

/// Appends the decimal digits of the number. If memory runs out, the text is as it was.
#[tactic(auto, using(std::proofs::lemmas::Fmt::decimal_step, std::proofs::lemmas::Fmt::decimal_digit))]
pub fn push_decimal(out: &mut Vec<u8>, n: u64) -> Result<(), Memory>
    ensures ok { OnOk result (out.new.items ≡ out.old.items ++ decimal n) }
    ensures kept { Extends out.old.items out.new.items }
    ensures err { OnErr result (out.new.items ≡ out.old.items) }
{
    if n < 10 {
        out.push(b'0' + n as u8)?;
        return Ok(());
    }
    let before = out.len();
    push_decimal(out, n / 10)?;
    match out.push(b'0' + (n % 10) as u8) {
        Ok(()) => Ok(()),
        Err(_) => {
            out.truncate(before);
            Err(Memory)
        }
    }
}
