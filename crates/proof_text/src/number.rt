// The numbers of formulas and proofs, with a sign and without.
ghost use Rattle.std.specs.Prelude.{◌≡◌, ◌≤◌, is_some, nat_lt};
ghost use Rattle.std.specs.Char.{is_ascii_digit};
ghost use Rattle.std.specs.List.{list_all};
ghost use Rattle.des_base.specs.Numbers.{digits_value, number_of};
ghost use Rattle.proof_text.specs.SignedNumbers.{is_number, is_negative, is_zero, size_of, item_within};

use des_base::{VAR_LIMIT, read_number};
use prop_core::Lit;

// A number among the literals of a clause.
#[derive(Clone, Copy)]
pub(crate) enum ClauseItem {
    Literal(Lit),
    // `0`
    End,
}

// The literal that the text spells, or the end of a clause. None where it's no number, or its variable isn't one of the first `vars`.
pub(crate) fn read_item(text: &[u8], vars: u32) -> Option<ClauseItem>
    requires { vars ≤ VAR_LIMIT }
    ensures { result ≡ item_within vars text.now }
{
    match text {
        [b'-', digits @ ..] => match read_number(digits, u64::from(vars))? {
            0 => None,
            size => Some(ClauseItem::Literal(Lit::new(size as u32 - 1, false))),
        },
        _ => match read_number(text, u64::from(vars))? {
            0 => Some(ClauseItem::End),
            size => Some(ClauseItem::Literal(Lit::new(size as u32 - 1, true))),
        },
    }
}

// Whether the text is decimal digits without a leading zero, or `0`.
pub(crate) fn is_decimal(text: &[u8]) -> bool
    ensures { result ≡ is_some (number_of text.now) }
{
    match text {
        [] => false,
        [b'0', _, ..] => false,
        _ => is_read_by_digits(text),
    }
}

// Whether the text has a value, digit by digit, leading zeros or not.
#[tactic(auto, using(crate::proofs::NumberLemmas::spelled_by_digits))]
fn is_read_by_digits(text: &[u8]) -> bool
    ensures { result ≡ is_some (digits_value 0 text.now) }
{
    all_digits(text)
}

fn all_digits(text: &[u8]) -> bool
    ensures { result ≡ list_all is_ascii_digit text.now }
{
    text.iter().all(|byte| byte.is_ascii_digit())
}

// The same, perhaps behind a `-`. There is no `-0`.
pub(crate) fn is_number(text: &[u8]) -> bool
    ensures { result ≡ is_number text.now }
{
    match text {
        [b'-', digits @ ..] => is_decimal(digits) && !is_zero(digits),
        _ => is_decimal(text),
    }
}

// Whether the text is `0`.
pub(crate) fn is_zero(text: &[u8]) -> bool
    ensures { result ≡ is_zero text.now }
{
    read_number(text, 0).is_some()
}

// Whether the text is a number with a `-`.
pub(crate) fn is_negative(text: &[u8]) -> bool
    ensures { result ≡ is_negative text.now }
{
    match text {
        [b'-', ..] => is_number(text),
        _ => false,
    }
}

// Whether the text is a number whose digits are above this.
pub(crate) fn exceeds(text: &[u8], max: u64) -> bool
    ensures { result ≡ nat_lt max (size_of text.now) }
{
    match text {
        [b'-', digits @ ..] => is_decimal(digits) && read_number(digits, max).is_none(),
        _ => is_decimal(text) && read_number(text, max).is_none(),
    }
}
