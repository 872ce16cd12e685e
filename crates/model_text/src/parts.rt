// The parts of an event, by name.
ghost use Rattle.std.specs.Prelude.{◌≡◌, ◌&&◌, ◌||◌, false, true, map, option_map, IfOk};
ghost use Rattle.std.specs.List.{list_all};
ghost use Rattle.des_base.specs.Names.{is_name_text};
ghost use Rattle.model_text.specs.ModelFaults.{has_repeated, stands_in};
ghost use Rattle.model_text.specs.Growth.{part_of, parts_by_name};
ghost use Rattle.model_text.specs.LineCodes.{IsCoded, first_of};
ghost use Rattle.model_text.specs.Shapes.{part_said};

use crate::part_name::PartName;
use crate::refusal::LineRefusal;
use des_base::{Memory, Name, is_name};
use des_net::{Builder, Part};
use std::alloc::Global;
use std::collections::HashSet;

// Whether components and actions are named by names.
pub(crate) fn are_names(parts: &[PartName]) -> bool
    ensures { result ≡ list_all (λ part. is_name_text part.component.now && is_name_text part.action.now) parts.now }
{
    parts
        .iter()
        .all(|part| is_name(part.component) && is_name(part.action))
}

// The parts by number, if each is known.
pub(crate) fn find_parts(
    alloc: Global,
    builder: &Builder,
    parts: &[PartName],
) -> Result<Option<Vec<Part>>, Memory>
    ensures parts { IfOk result (λ found. parts_by_name builder.now (map part_said parts.now) ≡ option_map (λ found. found.items) found) }
{
    let mut found = Vec::new(alloc);
    for part in parts {
        let Some(part) = find_part(builder, *part) else {
            return Ok(None);
        };
        found.push(part)?;
    }
    Ok(Some(found))
}

fn find_part(builder: &Builder, name: PartName) -> Option<Part>
    ensures { result ≡ part_of builder.now (part_said name.entry) }
{
    let comp = builder.find_component(name.component)?;
    let action = builder.find_action(comp, name.action)?;
    Some(Part { comp, action })
}

// Why an event is refused if one of its parts isn't known.
pub(crate) fn refusal_of_unknown(
    alloc: Global,
    builder: &Builder,
    name: &Name,
    parts: &[PartName],
) -> LineRefusal
    ensures { IsCoded (first_of false true (stands_in builder.now.event_names name.now || has_repeated (map (λ part. part.component) (map part_said parts.now))) true false) result }
{
    if builder.find_event(name.as_str().as_bytes()).is_some() {
        return LineRefusal::Double;
    }
    match has_repeat(alloc, parts) {
        Ok(true) => LineRefusal::Double,
        Ok(false) => LineRefusal::Unknown,
        Err(_) => LineRefusal::Memory,
    }
}

// Whether two parts name one component. It takes memory, since it goes over the parts once, however many there are.
fn has_repeat(alloc: Global, parts: &[PartName]) -> Result<bool, Memory>
    ensures { IfOk result (λ repeated. repeated ≡ has_repeated (map (λ part. part.component) (map part_said parts.now))) }
{
    let mut seen = HashSet::new(alloc);
    for part in parts {
        if !seen.insert(part.component)? {
            return Ok(true);
        }
    }
    Ok(false)
}
