// What each line adds to the builder. The codes of a line are tried in their order.
ghost use Rattle.std.specs.Prelude.{◌<◌, Some, length, map, option_map};
ghost use Rattle.des_net.specs.Building.{IsDraft};
ghost use Rattle.des_base.specs.CountedLines.{texts_of, tokens_of};
ghost use Rattle.model_text.specs.ModelLines.{event, model_line, component_line, state_line, transition_line, event_line};
ghost use Rattle.model_text.specs.LineAdditions.{AddsLine, IsCurrent};
ghost use Rattle.model_text.specs.Shapes.{part_said};

use crate::keyword::{LineKeyword, line_keyword};
use crate::line_name::{label_of, name_of};
use crate::line_shape::{component_line, event_line, state_line, transition_line};
use crate::part_name::{PartName, part_names};
use crate::parts::{are_names, find_parts, refusal_of_unknown};
use crate::refusal::LineRefusal;
use des_base::{CompId, Line, Tokens, is_name};
use des_net::Builder;
use std::alloc::Global;

// Adds what the line says.
pub(crate) fn add_line(alloc: Global, builder: &mut Builder, line: &Line) -> Result<(), LineRefusal>
    ensures added { AddsLine builder.old (model_line (tokens_of line.now.text.now)) builder.new result }
    ensures whole { IsDraft builder.old }
{
    let current = current_component(builder);
    let mut tokens = line.tokens();
    let Some(word) = tokens.next_token() else {
        return Err(LineRefusal::Shape);
    };
    match line_keyword(word.text) {
        Some(LineKeyword::Component) => add_component(alloc, builder, tokens),
        Some(LineKeyword::State) => add_state(alloc, builder, current, tokens),
        Some(LineKeyword::Trans) => add_transition(alloc, builder, current, tokens),
        Some(LineKeyword::Event) => add_event(alloc, builder, tokens),
        None => Err(LineRefusal::Shape),
    }
}

// The component that was begun last.
fn current_component(builder: &Builder) -> Option<CompId>
    ensures current { IsCurrent builder.now result }
    ensures whole { IsDraft builder.now }
{
    match builder.components() {
        0 => None,
        count => Some(CompId(count - 1)),
    }
}

fn add_component(alloc: Global, builder: &mut Builder, tokens: Tokens) -> Result<(), LineRefusal>
    ensures { AddsLine builder.old (component_line (texts_of tokens.entry)) builder.new result }
{
    let Some(name) = component_line(tokens) else {
        return Err(LineRefusal::Shape);
    };
    let name = name_of(alloc, name)?;
    builder.add_component(name)?;
    Ok(())
}

#[tactic(auto, using(crate::proofs::AdditionLemmas::state_lines))]
fn add_state(
    alloc: Global,
    builder: &mut Builder,
    current: Option<CompId>,
    tokens: Tokens,
) -> Result<(), LineRefusal>
    requires { IsCurrent builder.old current }
    ensures { AddsLine builder.old (state_line (texts_of tokens.entry)) builder.new result }
{
    let Some(line) = state_line(tokens) else {
        return Err(LineRefusal::Shape);
    };
    let Some(comp) = current else {
        return Err(LineRefusal::Homeless);
    };
    let name = name_of(alloc, line.name)?;
    builder.add_state(comp, name, line.initial)?;
    Ok(())
}

fn add_transition(
    alloc: Global,
    builder: &mut Builder,
    current: Option<CompId>,
    tokens: Tokens,
) -> Result<(), LineRefusal>
    requires { IsCurrent builder.old current }
    ensures { AddsLine builder.old (transition_line (texts_of tokens.entry)) builder.new result }
{
    let Some(line) = transition_line(tokens) else {
        return Err(LineRefusal::Shape);
    };
    let Some(comp) = current else {
        return Err(LineRefusal::Homeless);
    };
    if !is_name(line.from) || !is_name(line.to) {
        return Err(LineRefusal::Name);
    }
    let action = name_of(alloc, line.action)?;
    let Some(from) = builder.find_state(comp, line.from) else {
        return Err(LineRefusal::Unknown);
    };
    let Some(to) = builder.find_state(comp, line.to) else {
        return Err(LineRefusal::Unknown);
    };
    builder.add_trans(comp, from, action, to)?;
    Ok(())
}

fn add_event(alloc: Global, builder: &mut Builder, tokens: Tokens) -> Result<(), LineRefusal>
    requires { IsDraft builder.old }
    ensures { AddsLine builder.old (event_line (texts_of tokens.entry)) builder.new result }
{
    let Some(line) = event_line(tokens) else {
        return Err(LineRefusal::Shape);
    };
    let parts = part_names(alloc, line.parts)?;
    add_named_event(
        alloc,
        builder,
        line.name,
        line.label,
        line.fault,
        parts.as_slice(),
    )
}

// Adds an event with these parts by name.
fn add_named_event(
    alloc: Global,
    builder: &mut Builder,
    name: &[u8],
    label: Option<&[u8]>,
    fault: bool,
    parts: &[PartName],
) -> Result<(), LineRefusal>
    requires whole { IsDraft builder.old }
    requires some { 0 < length parts.now }
    ensures { AddsLine builder.old (Some (event name.now (option_map (λ text. text.now) label.entry) fault (map part_said parts.now))) builder.new result }
{
    let name = name_of(alloc, name)?;
    let label = label_of(alloc, label)?;
    if !are_names(parts) {
        return Err(LineRefusal::Name);
    }
    match find_parts(alloc, builder, parts)? {
        Some(found) => {
            builder.add_event(name, found.as_slice(), label, fault)?;
            Ok(())
        }
        None => Err(refusal_of_unknown(alloc, builder, &name, parts)),
    }
}
