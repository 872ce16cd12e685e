// The parts of an event as they are named on its line.
ghost use Rattle.std.specs.Prelude.{◌≡◌, ◌≤◌, ◌==◌, drop, length, option_map, IfOk};
ghost use Rattle.std.specs.List.{position_or_len};
ghost use Rattle.model_text.specs.ModelLines.{part_of_token};
ghost use Rattle.des_base.specs.CountedLines.{texts_of};
ghost use Rattle.model_text.specs.LineAdditions.{ReadsParts};
ghost use Rattle.model_text.specs.Shapes.{part_said};

use crate::refusal::LineRefusal;
use des_base::Tokens;
use std::alloc::Global;

// A component and an action by name, as they stand in a token.
#[derive(Clone, Copy)]
pub(crate) struct PartName<'a> {
    pub component: &'a [u8],
    pub action: &'a [u8],
}

// The parts that the tokens name, if each has exactly one dot.
#[tactic(auto, using(crate::proofs::PieceLemmas::part_tokens))]
pub(crate) fn part_names<'a>(
    alloc: Global,
    mut tokens: Tokens<'a>,
) -> Result<Vec<PartName<'a>>, LineRefusal>
    ensures parts { ReadsParts (texts_of tokens.entry) result }
    ensures count { IfOk result (λ parts. length parts.items ≡ length tokens.entry) }
{
    let mut parts = Vec::new(alloc);
    while let Some(token) = tokens.next_token() {
        let Some(part) = part_name(token.text) else {
            return Err(LineRefusal::Shape);
        };
        parts.push(part)?;
    }
    Ok(parts)
}

// What stands before the only dot, and what stands behind it.
#[tactic(auto, using(crate::proofs::PieceLemmas::part_pieces))]
fn part_name(token: &[u8]) -> Option<PartName<'_>>
    ensures { part_of_token token.now ≡ option_map part_said result }
{
    let (component, rest) = token.split_at(dot_place(token));
    let action = without_first(rest);
    if rest.is_empty() || dot_place(action) < action.len() {
        return None;
    }
    Some(PartName { component, action })
}

fn without_first(text: &[u8]) -> &[u8]
    ensures { result.now ≡ drop 1 text.now }
{
    match text {
        [_, rest @ ..] => rest,
        [] => text,
    }
}

// How many bytes stand before the first dot, or all if there is none.
fn dot_place(text: &[u8]) -> usize
    ensures place { result ≡ position_or_len (λ byte. byte == 46) text.now }
    ensures within { result ≤ length text.now }
{
    text.iter().take_while(|byte| **byte != b'.').count()
}
