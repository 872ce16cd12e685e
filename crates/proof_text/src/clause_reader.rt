// Reading clauses, token by token.
ghost use Rattle.std.specs.Prelude.{◌≡◌, ℕ, ◌≤◌, ◌++◌, ◌∷◌, [], List, MatchResult, IfOk, OnOk, None, false};
ghost use Rattle.proof_text.specs.TextFaults.{text_fault_or, IsTextDue};
ghost use Rattle.proof_text.specs.ClauseReading.{ended_by, open_after, entry_code, spelled_clauses};
ghost use Rattle.proof_text.specs.CnfText.{LinedToken, lined, some_open, end_code, fault_of_tokens, clauses_in};

use crate::body::{BodyToken, BodyTokens};
use crate::fault::{NOT_A_NUMBER, NOT_ENDED, OTHER_COUNT, TextRefusal, UNKNOWN_VARIABLE, fault_at};
use crate::header::Header;
use crate::number::{ClauseItem, is_number, read_item};
use des_base::{Memory, VAR_LIMIT};
use prop_core::{Clauses, Lit};
use std::alloc::Global;

// What was read of a formula's clauses.
#[derive(Drop)]
pub(crate) struct ClauseReader {
    pub vars: u32,
    // how many clauses may still begin
    pub left: u32,
    pub clauses: Clauses,
    // the literals of a clause whose end is still to come
    pub front: Vec<Lit>,
}

impl ClauseReader {
    fn new(alloc: Global, header: Header) -> ClauseReader
        ensures vars { result.vars ≡ header.vars }
        ensures left { result.left ≡ header.clauses }
        ensures clauses { result.clauses.clauses ≡ [] }
        ensures front { result.front.items ≡ [] }
    {
        ClauseReader {
            vars: header.vars,
            left: header.clauses,
            clauses: Clauses::new(alloc),
            front: Vec::new(alloc),
        }
    }

    // Takes the next token.
    fn take(&mut self, token: BodyToken<'_>) -> Result<(), TextRefusal>
        requires { self.old.vars ≤ VAR_LIMIT }
        ensures vars { self.new.vars ≡ self.old.vars }
        ensures faults { (end : ℕ) (later : List LinedToken) → MatchResult result (λ _. fault_of_tokens self.old.vars end self.old.left (some_open self.old.front.items) (lined token.entry.line token.entry.text.now ∷ later) ≡ fault_of_tokens self.new.vars end self.new.left (some_open self.new.front.items) later) (IsTextDue (fault_of_tokens self.old.vars end self.old.left (some_open self.old.front.items) (lined token.entry.line token.entry.text.now ∷ later))) }
        ensures clauses { OnOk result ((later : List LinedToken) → self.new.clauses.clauses ++ spelled_clauses self.new.front.items later ≡ self.old.clauses.clauses ++ spelled_clauses self.old.front.items (lined token.entry.line token.entry.text.now ∷ later)) }
    {
        let Some(item) = read_item(token.text, self.vars) else {
            return Err(fault_at(token.line, entry_code(token.text)));
        };
        if !self.is_open() {
            if self.left == 0 {
                return Err(fault_at(token.line, OTHER_COUNT));
            }
            self.left -= 1;
        }
        self.put(item)?;
        Ok(())
    }

    // Whether some literals of a clause stand before its end.
    fn is_open(&self) -> bool
        ensures { result ≡ some_open self.now.front.items }
    {
        !self.front.is_empty()
    }

    // A literal goes on with the open clause, and an end ends it.
    fn put(&mut self, item: ClauseItem) -> Result<(), Memory>
        ensures vars { self.new.vars ≡ self.old.vars }
        ensures left { self.new.left ≡ self.old.left }
        ensures clauses { OnOk result (self.new.clauses.clauses ≡ self.old.clauses.clauses ++ ended_by item self.old.front.items) }
        ensures front { OnOk result (self.new.front.items ≡ open_after item self.old.front.items) }
    {
        match item {
            ClauseItem::Literal(lit) => self.front.push(lit)?,
            ClauseItem::End => {
                self.clauses.push(&self.front)?;
                self.front.clear();
            }
        }
        Ok(())
    }

    // The code that the text's end has, after these tokens.
    pub fn end_code(&self) -> Option<u8>
        ensures { result ≡ end_code self.now.left (some_open self.now.front.items) }
    {
        if self.is_open() {
            return Some(NOT_ENDED);
        }
        (self.left > 0).then_some(OTHER_COUNT)
    }
}

// The code of a token that isn't an item.
fn entry_code(text: &[u8]) -> u8
    ensures { result ≡ entry_code text.now }
{
    if is_number(text) {
        UNKNOWN_VARIABLE
    } else {
        NOT_A_NUMBER
    }
}

// Reads the clauses of the tokens.
pub(crate) fn read_clauses(
    alloc: Global,
    header: Header,
    mut tokens: BodyTokens<'_>,
) -> Result<ClauseReader, TextRefusal>
    requires { header.vars ≤ VAR_LIMIT }
    ensures faults { (end : ℕ) → MatchResult result (λ reader. fault_of_tokens header.vars end header.clauses false tokens.entry ≡ text_fault_or end (end_code reader.left (some_open reader.front.items)) None) (IsTextDue (fault_of_tokens header.vars end header.clauses false tokens.entry)) }
    ensures clauses { IfOk result (λ reader. reader.clauses.clauses ≡ clauses_in tokens.entry) }
{
    let mut reader = ClauseReader::new(alloc, header);
    while let Some(token) = tokens.next_token() {
        reader.take(token)?;
    }
    Ok(reader)
}
