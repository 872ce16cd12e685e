// Reading a number in decimal digits.
ghost use Rattle.std.specs.Prelude.{◌≡◌, [], ◌∷◌};
ghost use Rattle.des_base.specs.Numbers.{digits_value, up_to, number_up_to};

/// The number that the text spells in decimal digits, if it is at most `max`.
///
/// There is no sign, and no leading zero unless the text is `0`.
pub fn read_number(text: &[u8], max: u64) -> Option<u64>
    ensures { result ≡ number_up_to max text.now }
{
    match text {
        [] => None,
        [b'0', _, ..] => None,
        _ => read_digits(text, max),
    }
}

// The same, but there may be leading zeros, or no digits at all.
fn read_digits(text: &[u8], max: u64) -> Option<u64>
    ensures { result ≡ up_to max (digits_value 0 text.now) }
{
    let mut value: u64 = 0;
    for digit in text {
        value = with_digit(value, *digit, max)?;
    }
    Some(value)
}

// The value with one more digit. A value above `max` stays above it with every further digit, so it may stop there.
fn with_digit(value: u64, digit: u8, max: u64) -> Option<u64>
    ensures { result ≡ up_to max (digits_value value (digit ∷ [])) }
{
    if !digit.is_ascii_digit() {
        return None;
    }
    let value = value.checked_mul(10)?.checked_add((digit - b'0') as u64)?;
    if value <= max { Some(value) } else { None }
}
