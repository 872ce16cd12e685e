// The tokens of the lines behind the header of a formula.
ghost use Rattle.std.specs.Prelude.{◌≡◌, [], ◌∷◌, MatchOption};
ghost use Rattle.proof_text.specs.CnfText.{lined, tokens_in};

use des_base::{Line, Lines, Tokens};
use std::marker::Model;

// A token, and the number of its line.
#[derive(Clone, Copy)]
pub(crate) struct BodyToken<'a> {
    pub line: u32,
    pub text: &'a [u8],
}

// The tokens of the lines that are still to come, one after another.
#[derive(Drop)]
pub(crate) struct BodyTokens<'a> {
    line: u32,
    tokens: Tokens<'a>,
    lines: Lines<'a>,
}

impl<'a> Model for BodyTokens<'a> {
    ghost use Rattle.std.specs.Prelude.{List, ◌++◌, map};
    ghost use Rattle.des_base.specs.CountedLines.{texts_of};
    ghost use Rattle.proof_text.specs.CnfText.{LinedToken, lined, tokens_in};

    ghost Value = { List LinedToken };

    ghost view = { λ a. map (lined a.line) (texts_of a.tokens) ++ tokens_in a.lines };
}

impl<'a> BodyTokens<'a> {
    // All tokens of these lines.
    pub fn new(lines: Lines<'a>) -> BodyTokens<'a>
        ensures { result ≡ tokens_in lines.entry }
    {
        let empty = Line {
            number: 0,
            text: b"".as_slice(),
        };
        BodyTokens {
            line: 0,
            tokens: empty.tokens(),
            lines,
        }
    }

    pub fn next_token(&mut self) -> Option<BodyToken<'a>>
        ensures { MatchOption result (self.old ≡ []) (λ token. self.old ≡ lined token.line token.text.now ∷ self.new) }
    {
        loop {
            if let Some(token) = self.tokens.next_token() {
                return Some(BodyToken {
                    line: self.line,
                    text: token.text,
                });
            }
            let line = self.lines.next_line()?;
            self.line = line.number;
            self.tokens = line.tokens();
        }
    }
}
