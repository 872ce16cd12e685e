// Names, and the labels in a field.
ghost use Rattle.std.specs.Prelude.{◌≡◌, ◌+◌, ◌<◌, ◌≤◌, ◌==◌, ◌∷◌, [], length};
ghost use Rattle.std.specs.List.{position_or_len, slice_split};
ghost use Rattle.std.specs.Option.{option_map_or};
ghost use Rattle.log_csv.specs.Records.{labels_in};
ghost use Rattle.log_csv.specs.Reading.{IsNamedInRow, AreNamed, pieces_in};

use crate::refusal::RowRefusal;
use des_base::{ListOf, Name};
use std::alloc::Global;

// The text as a name.
pub fn name_of(alloc: Global, text: &[u8]) -> Result<Name, RowRefusal>
    ensures { IsNamedInRow text.now result }
{
    Ok(Name::new(alloc, text)?)
}

// The labels in a field, which stand between bars.
pub fn read_labels(alloc: Global, field: &[u8]) -> Result<ListOf<Name>, RowRefusal>
    ensures { AreNamed (labels_in field.now) result }
{
    let mut labels = ListOf::new(alloc);
    let mut rest = first_piece(field);
    while let Some(text) = rest {
        let (label, others) = cut_label(text);
        let name = name_of(alloc, label)?;
        labels.push(name)?;
        rest = others;
    }
    Ok(labels)
}

// A field that has a byte.
fn first_piece(field: &[u8]) -> Option<&[u8]>
    ensures { pieces_in result ≡ labels_in field.now }
{
    if field.is_empty() { None } else { Some(field) }
}

// The label in front, and what follows its bar, if it has one.
fn cut_label(text: &[u8]) -> (&[u8], Option<&[u8]>)
    ensures pieces { slice_split (λ byte. byte == 124) text.now ≡ result.0.now ∷ pieces_in result.1 }
    ensures shorter { option_map_or (λ rest. length rest.now + 1) result.1 0 ≤ length text.now }
{
    let (label, rest) = text.split_at(bar_place(text));
    match rest {
        [_, others @ ..] => (label, Some(others)),
        [] => (label, None),
    }
}

// How many bytes stand before the first bar, or all if there is none.
fn bar_place(text: &[u8]) -> usize
    ensures place { result ≡ position_or_len (λ byte. byte == 124) text.now }
    ensures within { result ≤ length text.now }
{
    text.iter().take_while(|byte| **byte != b'|').count()
}
