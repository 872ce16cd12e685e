// The counted lines of a text.
ghost use Rattle.std.specs.Prelude.{◌≡◌, ◌+◌, ◌<◌, ◌^◌, [], ◌∷◌, length, drop, find, not, ◌==◌, ◌≤◌, None, Some, IfNone, IfSome, MatchOption};
ghost use Rattle.std.specs.List.{position_or_len};
ghost use Rattle.std.specs.Str.Lines.{strip_carriage_return};
ghost use Rattle.des_base.specs.CountedLines.{is_counted, text_lines, counted_lines, last_line, numbered, placed, placed_tokens, token_from, is_blank};

use crate::tokens::{Token, Tokens, is_blank};
use std::marker::Model;

/// A counted line of a text: its number among all lines, from 1, and its text without the line's end.
#[derive(Clone, Copy)]
pub struct Line<'a> {
    pub number: u32,
    pub text: &'a [u8],
}

impl<'a> Line<'a> {
    /// The tokens of the line.
    pub fn tokens(&self) -> Tokens<'a>
        ensures { result ≡ placed_tokens self.now.text.now }
    {
        Tokens::of(self.text)
    }

    /// The first token that begins at this place of the line, or after it.
    pub fn token(&self, from: usize) -> Option<Token<'a>>
        ensures token { MatchOption result (token_from from self.now.text.now ≡ None) (λ token. token_from from self.now.text.now ≡ Some (placed token.start token.text.now)) }
        ensures place_behind { IfSome result (λ token. token.start + length token.text.now < 2 ^ 64) }
    {
        let mut tokens = self.tokens();
        while let Some(token) = tokens.next_token() {
            if from <= token.start {
                return Some(token);
            }
        }
        None
    }
}

/// The counted lines of a text, one after another: lines that are blank are skipped, and those whose first byte that
/// isn't blank begins a comment.
#[derive(Drop)]
pub struct Lines<'a> {
    rest: &'a [u8],
    // how many lines stand before the rest
    number: u32,
    comment: u8,
}

impl<'a> Model for Lines<'a> {
    ghost use Rattle.std.specs.Prelude.{◌+◌, ◌^◌, ◌<◌, List, length};
    ghost use Rattle.des_base.specs.CountedLines.{NumberedLine, counted_from};

    ghost Value = { List NumberedLine };

    ghost view = { λ a. counted_from a.comment (a.number + 1) a.rest.now };

    ghost invariant = { λ a. a.number + length a.rest.now < 2 ^ 32 };
}

impl<'a> Lines<'a> {
    /// The counted lines of the text, where this byte begins a comment.
    pub fn new(bytes: &'a [u8], comment: u8) -> Lines<'a>
        requires { length bytes.now < 2 ^ 32 }
        ensures { result ≡ counted_lines comment bytes.now }
    {
        Lines {
            rest: bytes,
            number: 0,
            comment,
        }
    }

    /// The next counted line.
    pub fn next_line(&mut self) -> Option<Line<'a>>
        ensures line { MatchOption result (self.old ≡ []) (λ line. self.old ≡ numbered line.number line.text.now ∷ self.new) }
        ensures end { IfNone result (self.new ≡ []) }
    {
        while !self.rest.is_empty() {
            let (text, rest) = cut_line(self.rest);
            self.rest = rest;
            self.number += 1;
            if is_counted(text, self.comment) {
                return Some(Line {
                    number: self.number,
                    text,
                });
            }
        }
        None
    }
}

/// The number of the text's last line, or 1 if it has none. A fault that belongs to the end of a text has this number.
pub fn last_line(bytes: &[u8]) -> u32
    requires { length bytes.now < 2 ^ 32 }
    ensures { result ≡ last_line bytes.now }
{
    let mut rest = bytes;
    let mut count: u32 = 0;
    while !rest.is_empty() {
        rest = cut_line(rest).1;
        count += 1;
    }
    count.max(1)
}

// The first line of the text, without its end, and the text behind that end.
fn cut_line(text: &[u8]) -> (&[u8], &[u8])
    requires { 0 < length text.now }
    ensures lines { text_lines text.now ≡ result.0.now ∷ text_lines result.1.now }
    ensures shorter { length result.1.now < length text.now }
{
    let (line, rest) = text.split_at(line_len(text));
    (without_carriage_return(line), without_first(rest))
}

// How many bytes stand before the first line feed, or all if there is none.
fn line_len(text: &[u8]) -> usize
    ensures line { result ≡ position_or_len (λ byte. byte == 10) text.now }
    ensures within { result ≤ length text.now }
{
    text.iter().take_while(|byte| **byte != b'\n').count()
}

fn without_carriage_return(line: &[u8]) -> &[u8]
    ensures { result.now ≡ strip_carriage_return line.now }
{
    match line {
        [front @ .., b'\r'] => front,
        _ => line,
    }
}

fn without_first(text: &[u8]) -> &[u8]
    ensures { result.now ≡ drop 1 text.now }
{
    match text {
        [_, rest @ ..] => rest,
        [] => text,
    }
}

// Whether a byte that isn't blank stands in the line, and the first such byte doesn't begin a comment.
fn is_counted(line: &[u8], comment: u8) -> bool
    ensures { result ≡ is_counted comment line.now }
{
    first_byte(line).is_some_and(|byte| byte != comment)
}

fn first_byte(line: &[u8]) -> Option<u8>
    ensures { result ≡ find (λ byte. not (is_blank byte)) line.now }
{
    line.iter().copied().find(|byte| !is_blank(*byte))
}
