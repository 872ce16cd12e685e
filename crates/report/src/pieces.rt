// The pieces of lines. If memory runs out, some of what is to be appended may be there.
ghost use Rattle.std.specs.Prelude.{◌≡◌, ◌++◌, take, OnErr, OnOk};
ghost use Rattle.des_base.specs.Lists.{Extends};
ghost use Rattle.report.specs.Replies.{named, paired};
ghost use Rattle.telling.specs.Lines.{line_with_number, line_with_two_numbers};

use des_base::{Memory, push_decimal};

/// Appends the text.
pub fn push_text(text: &str, out: &mut Vec<u8>) -> Result<(), Memory>
    ensures ok { OnOk result (out.new.items ≡ out.old.items ++ text.now) }
    ensures kept { Extends out.old.items out.new.items }
{
    out.extend_from_slice(text.as_bytes())?;
    Ok(())
}

/// Appends words, a number and the end of the line.
pub fn push_numbered(words: &str, n: u64, out: &mut Vec<u8>) -> Result<(), Memory>
    ensures ok { OnOk result (out.new.items ≡ out.old.items ++ line_with_number words.now n) }
    ensures kept { Extends out.old.items out.new.items }
{
    push_text(words, out)?;
    push_decimal(out, n)?;
    push_text("\n", out)
}

/// Appends words, two numbers and the end of the line.
pub fn push_placed(words: &str, first: u64, second: u64, out: &mut Vec<u8>) -> Result<(), Memory>
    ensures ok { OnOk result (out.new.items ≡ out.old.items ++ line_with_two_numbers words.now first second) }
    ensures kept { Extends out.old.items out.new.items }
{
    push_text(words, out)?;
    push_decimal(out, first)?;
    push_numbered(" ", second, out)
}

/// Appends words, a name and the end of the line.
pub fn push_named(words: &str, name: &str, out: &mut Vec<u8>) -> Result<(), Memory>
    ensures ok { OnOk result (out.new.items ≡ out.old.items ++ named words.now name.now) }
    ensures kept { Extends out.old.items out.new.items }
{
    push_text(words, out)?;
    push_text(name, out)?;
    push_text("\n", out)
}

/// Appends words, two names and the end of the line.
pub fn push_paired(words: &str, first: &str, second: &str, out: &mut Vec<u8>) -> Result<(), Memory>
    ensures ok { OnOk result (out.new.items ≡ out.old.items ++ paired words.now first.now second.now) }
    ensures kept { Extends out.old.items out.new.items }
{
    push_text(words, out)?;
    push_text(first, out)?;
    push_named(" ", second, out)
}

/// Hands on the outcome. If memory ran out, what stands behind the first `before` bytes is cut off.
pub fn whole_or_nothing(
    pushed: Result<(), Memory>,
    before: usize,
    out: &mut Vec<u8>,
) -> Result<(), Memory>
    ensures same { result ≡ pushed }
    ensures ok { OnOk result (out.new.items ≡ out.old.items) }
    ensures err { OnErr result (out.new.items ≡ take before out.old.items) }
{
    if pushed.is_err() {
        out.truncate(before);
    }
    pushed
}
