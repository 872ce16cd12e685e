// A line of a proof, and the step that it says.
ghost use Rattle.std.specs.Prelude.{◌≡◌, ◌≤◌, option_map, IfOk};
ghost use Rattle.des_base.specs.CountedLines.{texts_of, tokens_of};
ghost use Rattle.proof_text.specs.LratText.{is_deletion_mark};
ghost use Rattle.proof_text.specs.LineReading.{if_read, ids_section, literals_section, ids_only, literals_and_hints, line_read};
ghost use Rattle.proof_text.specs.StepParts.{step_with};

use crate::number::{ClauseItem, read_item};
use des_base::{Line, Memory, Tokens, VAR_LIMIT, read_number};
use prop_core::{ClauseId, Lit};
use std::alloc::Global;

// The parts of a step: the clause of an addition, and its hints or the numbers of a deletion. Each line is read into the same vectors.
#[derive(Drop)]
pub(crate) struct StepParts {
    pub clause: Vec<Lit>,
    pub ids: Vec<ClauseId>,
}

impl StepParts {
    // Parts without anything in them. It has no `ensures`: whoever reads a step into parts empties them first.
    pub(crate) fn new(alloc: Global) -> StepParts {
        StepParts {
            clause: Vec::new(alloc),
            ids: Vec::new(alloc),
        }
    }
}

// What a step does with its parts.
#[derive(Clone, Copy)]
pub(crate) enum StepKind {
    Add { id: u64 },
    Delete,
}

// Reads the parts of the step of a line that has no fault, and says what it does with them. An addition's number has to be greater than `last`.
pub(crate) fn read_step(
    line: Line<'_>,
    vars: u32,
    last: u64,
    parts: &mut StepParts,
) -> Result<Option<StepKind>, Memory>
    requires { vars ≤ VAR_LIMIT }
    ensures { IfOk result (λ kind. option_map (step_with line.entry.number parts.new.clause.items parts.new.ids.items) kind ≡ line_read line.entry.number vars last (tokens_of line.entry.text.now)) }
{
    let mut tokens = line.tokens();
    let Some(first) = tokens.next_token() else {
        return Ok(None);
    };
    let Some(id) = read_number(first.text, u64::MAX) else {
        return Ok(None);
    };
    let mut ahead = tokens.again();
    if let Some(second) = ahead.next_token()
        && is_deletion_mark(second.text)
    {
        return Ok(if read_last_ids(ahead, &mut parts.ids)? {
            Some(StepKind::Delete)
        } else {
            None
        });
    }
    if id > last && read_addition(vars, tokens, parts)? {
        Ok(Some(StepKind::Add { id }))
    } else {
        Ok(None)
    }
}

pub(crate) fn is_deletion_mark(text: &[u8]) -> bool
    ensures { result ≡ is_deletion_mark text.now }
{
    text == b"d".as_slice()
}

// Reads an addition from the literals on, and says whether it is one.
fn read_addition(vars: u32, mut tokens: Tokens<'_>, parts: &mut StepParts) -> Result<bool, Memory>
    requires { vars ≤ VAR_LIMIT }
    ensures { IfOk result (λ read. literals_and_hints vars (texts_of tokens.entry) ≡ if_read read (parts.new.clause.items, parts.new.ids.items)) }
{
    if !read_literals(&mut tokens, vars, &mut parts.clause)? {
        return Ok(false);
    }
    read_last_ids(tokens, &mut parts.ids)
}

// Reads the clause numbers up to a `0`, and says whether that ends the line.
fn read_last_ids(mut tokens: Tokens<'_>, ids: &mut Vec<ClauseId>) -> Result<bool, Memory>
    ensures { IfOk result (λ read. ids_only (texts_of tokens.entry) ≡ if_read read ids.new.items) }
{
    if !read_ids(&mut tokens, ids)? {
        return Ok(false);
    }
    Ok(tokens.next_token().is_none())
}

// Reads the clause numbers up to a `0`, and says whether there is one and nothing else stands before it.
fn read_ids(tokens: &mut Tokens<'_>, ids: &mut Vec<ClauseId>) -> Result<bool, Memory>
    ensures { IfOk result (λ read. ids_section (texts_of tokens.old) ≡ if_read read (ids.new.items, texts_of tokens.new)) }
{
    ids.clear();
    while let Some(token) = tokens.next_token() {
        match read_number(token.text, u64::MAX) {
            None => return Ok(false),
            Some(0) => return Ok(true),
            Some(id) => ids.push(ClauseId(id))?,
        }
    }
    Ok(false)
}

// Reads the literals up to a `0`, in the same way.
fn read_literals(tokens: &mut Tokens<'_>, vars: u32, clause: &mut Vec<Lit>) -> Result<bool, Memory>
    requires { vars ≤ VAR_LIMIT }
    ensures { IfOk result (λ read. literals_section vars (texts_of tokens.old) ≡ if_read read (clause.new.items, texts_of tokens.new)) }
{
    clause.clear();
    while let Some(token) = tokens.next_token() {
        let Some(item) = read_item(token.text, vars) else {
            return Ok(false);
        };
        match item {
            ClauseItem::End => return Ok(true),
            ClauseItem::Literal(lit) => clause.push(lit)?,
        }
    }
    Ok(false)
}
