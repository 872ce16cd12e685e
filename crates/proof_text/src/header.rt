// The header of a formula.
ghost use Rattle.std.specs.Prelude.{◌≡◌, ◌≤◌, None, Some, MatchOption, MatchResult, IfOk};
ghost use Rattle.des_base.specs.CountedLines.{tokens_of};
ghost use Rattle.proof_text.specs.CnfText.{header_words, header_of, header_code};

use crate::fault::{NO_HEADER, OVER_LIMIT};
use crate::number::is_decimal;
use des_base::{Line, read_number};

// The greatest number of variables, and of clauses, that a header may state.
const MOST: u64 = 100_000_000;

// How many variables and clauses the header of a formula states.
#[derive(Clone, Copy)]
pub(crate) struct Header {
    pub vars: u32,
    pub clauses: u32,
}

#[derive(Clone, Copy)]
struct HeaderWords<'a> {
    vars: &'a [u8],
    clauses: &'a [u8],
}

// What the header line states, or its code.
pub(crate) fn read_header(line: Line<'_>) -> Result<Header, u8>
    ensures well { MatchResult result (λ header. header_of (tokens_of line.entry.text.now) ≡ Some header) (λ code. header_code (header_of (tokens_of line.entry.text.now)) ≡ Some code) }
    ensures vars { IfOk result (λ header. header.vars ≤ MOST) }
    ensures clauses { IfOk result (λ header. header.clauses ≤ MOST) }
{
    let Some(words) = header_words(line) else {
        return Err(NO_HEADER);
    };
    if !is_decimal(words.vars) || !is_decimal(words.clauses) {
        return Err(NO_HEADER);
    }
    let Some(vars) = read_number(words.vars, MOST) else {
        return Err(OVER_LIMIT);
    };
    let Some(clauses) = read_number(words.clauses, MOST) else {
        return Err(OVER_LIMIT);
    };
    Ok(Header {
        vars: vars as u32,
        clauses: clauses as u32,
    })
}

// The two words behind `p cnf`.
fn header_words<'a>(line: Line<'a>) -> Option<HeaderWords<'a>>
    ensures { MatchOption result (header_words (tokens_of line.entry.text.now) ≡ None) (λ words. header_words (tokens_of line.entry.text.now) ≡ Some (words.vars.now, words.clauses.now)) }
{
    let mut tokens = line.tokens();
    let p = tokens.next_token()?.text;
    let cnf = tokens.next_token()?.text;
    let vars = tokens.next_token()?.text;
    let clauses = tokens.next_token()?.text;
    if tokens.next_token().is_some() || p != b"p".as_slice() || cnf != b"cnf".as_slice() {
        return None;
    }
    Some(HeaderWords { vars, clauses })
}
