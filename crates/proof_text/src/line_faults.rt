// The first fault of a line of a proof.
ghost use Rattle.std.specs.Prelude.{◌≡◌, ◌&&◌, ◌||◌, nat_lt};
ghost use Rattle.std.specs.List.{list_all, list_any};
ghost use Rattle.des_base.specs.CountedLines.{texts_of, tokens_of};
ghost use Rattle.proof_text.specs.SignedNumbers.{is_number, is_negative, size_of};
ghost use Rattle.proof_text.specs.LratText.{cut_at_zero, is_too_large, some_rest, first_lrat_code, lrat_line_code, lrat_line, addition_line, deletion_of};

use crate::fault::{
    NEGATIVE_HINT, NOT_A_NUMBER, NOT_ASCENDING, NOT_ENDED, OVER_LIMIT, UNKNOWN_VARIABLE,
};
use crate::lrat_line::is_deletion_mark;
use crate::number::{exceeds, is_negative, is_number, is_zero};
use des_base::{Line, Tokens};

// What is amiss with a line of a proof.
#[derive(Clone, Copy)]
struct LineFaults {
    // a number of a clause is over its limit
    large: bool,
    // a token isn't a number that can stand there
    strange: bool,
    // the last `0` is missing, or something follows it
    unended: bool,
    // the number isn't greater than those before it
    low: bool,
    // a literal's variable isn't known
    unknown: bool,
    // a hint is negative
    negative: bool,
}

impl LineFaults {
    fn first_lrat_code(self) -> Option<u8>
        ensures { result ≡ first_lrat_code self.large self.strange self.unended self.low self.unknown self.negative }
    {
        if self.large {
            Some(OVER_LIMIT)
        } else if self.strange {
            Some(NOT_A_NUMBER)
        } else if self.unended {
            Some(NOT_ENDED)
        } else if self.low {
            Some(NOT_ASCENDING)
        } else if self.unknown {
            Some(UNKNOWN_VARIABLE)
        } else if self.negative {
            Some(NEGATIVE_HINT)
        } else {
            None
        }
    }
}

// What stands among the tokens up to a `0`.
#[derive(Clone, Copy)]
struct Section {
    large: bool,
    numbers: bool,
    negative: bool,
    unknown: bool,
    ended: bool,
}

impl Section {
    // The section with one more token.
    fn with(self, token: &[u8], vars: u32) -> Section
        ensures large { result.large ≡ (self.large || is_too_large token.now) }
        ensures numbers { result.numbers ≡ (self.numbers && is_number token.now) }
        ensures negative { result.negative ≡ (self.negative || is_negative token.now) }
        ensures unknown { result.unknown ≡ (self.unknown || nat_lt vars (size_of token.now)) }
        ensures ended { result.ended ≡ self.ended }
    {
        Section {
            large: self.large || exceeds(token, u64::MAX),
            numbers: self.numbers && is_number(token),
            negative: self.negative || is_negative(token),
            unknown: self.unknown || exceeds(token, u64::from(vars)),
            ended: self.ended,
        }
    }
}

// Looks at the tokens up to a `0`, and leaves those behind it.
fn survey(tokens: &mut Tokens<'_>, vars: u32) -> Section
    ensures large { result.large ≡ list_any is_too_large (cut_at_zero (texts_of tokens.old)).front }
    ensures numbers { result.numbers ≡ list_all is_number (cut_at_zero (texts_of tokens.old)).front }
    ensures negative { result.negative ≡ list_any is_negative (cut_at_zero (texts_of tokens.old)).front }
    ensures unknown { result.unknown ≡ list_any (λ token. nat_lt vars (size_of token)) (cut_at_zero (texts_of tokens.old)).front }
    ensures ended { result.ended ≡ (cut_at_zero (texts_of tokens.old)).ended }
    ensures behind { texts_of tokens.new ≡ (cut_at_zero (texts_of tokens.old)).behind }
{
    let mut section = Section {
        large: false,
        numbers: true,
        negative: false,
        unknown: false,
        ended: false,
    };
    while let Some(token) = tokens.next_token() {
        if is_zero(token.text) {
            section.ended = true;
            return section;
        }
        section = section.with(token.text, vars);
    }
    section
}

// Whether all tokens are numbers.
fn are_numbers(mut tokens: Tokens<'_>) -> bool
    ensures { result ≡ list_all is_number (texts_of tokens.entry) }
{
    while let Some(token) = tokens.next_token() {
        if !is_number(token.text) {
            return false;
        }
    }
    true
}

fn is_some_rest(tokens: &Tokens<'_>) -> bool
    ensures { result ≡ some_rest (texts_of tokens.now) }
{
    tokens.again().next_token().is_some()
}

// The code of a line, where an addition's number has to be greater than `last`.
pub(crate) fn lrat_line_code(line: Line<'_>, vars: u32, last: u64) -> Option<u8>
    ensures { result ≡ lrat_line_code vars last (lrat_line (tokens_of line.entry.text.now)) }
{
    let mut tokens = line.tokens();
    let Some(id) = tokens.next_token() else {
        return addition_code(b"", tokens, vars, last);
    };
    let mut ahead = tokens.again();
    if let Some(second) = ahead.next_token()
        && is_deletion_mark(second.text)
    {
        return deletion_code(id.text, ahead);
    }
    addition_code(id.text, tokens, vars, last)
}

fn addition_code(id: &[u8], mut tokens: Tokens<'_>, vars: u32, last: u64) -> Option<u8>
    ensures { result ≡ lrat_line_code vars last (addition_line id.now (texts_of tokens.entry)) }
{
    let literals = survey(&mut tokens, vars);
    let hints = survey(&mut tokens, vars);
    let is_positive = is_number(id) && !is_negative(id) && !is_zero(id);
    let more = is_some_rest(&tokens);
    let faults = LineFaults {
        large: exceeds(id, u64::MAX) || hints.large,
        strange: !is_positive || !literals.numbers || !hints.numbers || !are_numbers(tokens),
        unended: !hints.ended || more,
        low: !exceeds(id, last),
        unknown: literals.unknown,
        negative: hints.negative,
    };
    faults.first_lrat_code()
}

fn deletion_code(id: &[u8], mut tokens: Tokens<'_>) -> Option<u8>
    ensures { result ≡ lrat_line_code 0 0 (deletion_of id.now (cut_at_zero (texts_of tokens.entry))) }
{
    let ids = survey(&mut tokens, 0);
    let is_unsigned = is_number(id) && !is_negative(id);
    let more = is_some_rest(&tokens);
    let faults = LineFaults {
        large: exceeds(id, u64::MAX) || ids.large,
        strange: !is_unsigned || !ids.numbers || ids.negative || !are_numbers(tokens),
        unended: !ids.ended || more,
        low: false,
        unknown: false,
        negative: false,
    };
    faults.first_lrat_code()
}
