// The tokens of a line.
ghost use Rattle.std.specs.Prelude.{◌≡◌, ◌+◌, ◌^◌, ◌<◌, ◌≤◌, [], ◌∷◌, length, not, IfNone, IfSome, MatchOption};
ghost use Rattle.std.specs.List.{prefix_len};
ghost use Rattle.des_base.specs.CountedLines.{is_blank, placed, placed_tokens};

use std::marker::Model;

/// A token of a line, and how many bytes of the line stand before it.
#[derive(Clone, Copy, PartialEq, Eq)]
pub struct Token<'a> {
    pub start: usize,
    pub text: &'a [u8],
}

/// The tokens of a line that are still to come.
#[derive(Drop)]
pub struct Tokens<'a> {
    start: usize,
    rest: &'a [u8],
}

impl<'a> Model for Tokens<'a> {
    ghost use Rattle.std.specs.Prelude.{◌+◌, ◌^◌, ◌<◌, List, length};
    ghost use Rattle.des_base.specs.CountedLines.{PlacedToken, tokens_from};

    ghost Value = { List PlacedToken };

    ghost view = { λ a. tokens_from a.start a.rest.now };

    ghost invariant = { λ a. a.start + length a.rest.now < 2 ^ 64 };
}

impl<'a> Tokens<'a> {
    pub(crate) fn of(line: &'a [u8]) -> Tokens<'a>
        ensures { result ≡ placed_tokens line.now }
    {
        Tokens {
            start: 0,
            rest: line,
        }
    }

    /// The next token.
    pub fn next_token(&mut self) -> Option<Token<'a>>
        ensures token { MatchOption result (self.old ≡ []) (λ token. self.old ≡ placed token.start token.text.now ∷ self.new) }
        ensures end { IfNone result (self.new ≡ []) }
        ensures place_behind { IfSome result (λ token. token.start + length token.text.now < 2 ^ 64) }
    {
        let (blanks, rest) = self.rest.split_at(blank_len(self.rest));
        let (text, rest) = rest.split_at(word_len(rest));
        let start = self.start + blanks.len();
        self.start = start + text.len();
        self.rest = rest;
        if text.is_empty() {
            return None;
        }
        Some(Token { start, text })
    }

    /// The same tokens, to look ahead.
    pub fn again(&self) -> Tokens<'a>
        ensures { result ≡ self.now }
    {
        Tokens {
            start: self.start,
            rest: self.rest,
        }
    }
}

/// A space or a tab.
pub(crate) fn is_blank(byte: u8) -> bool
    ensures { result ≡ is_blank byte }
{
    byte == b' ' || byte == b'\t'
}

// How many blanks stand in front.
fn blank_len(text: &[u8]) -> usize
    ensures blanks { result ≡ prefix_len is_blank text.now }
    ensures within { result ≤ length text.now }
{
    text.iter().take_while(|byte| is_blank(**byte)).count()
}

// How many bytes stand before the first blank, or all if there is none.
fn word_len(text: &[u8]) -> usize
    ensures word { result ≡ prefix_len (λ byte. not (is_blank byte)) text.now }
    ensures within { result ≤ length text.now }
{
    text.iter().take_while(|byte| !is_blank(**byte)).count()
}
