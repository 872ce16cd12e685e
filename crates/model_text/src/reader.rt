// Reading a model text, line by line.
ghost use Rattle.std.specs.Prelude.{◌≡◌, ◌^◌, ◌<◌, false, length, None, IfOk, OnOk, IfErr, slice_index};
ghost use Rattle.std.specs.Option.{option_map_or};
ghost use Rattle.des_base.specs.CountedLines.{counted_lines, tokens_of};
ghost use Rattle.model_text.specs.ModelLines.{model_line};
ghost use Rattle.model_text.specs.ModelNetwork.{begins_component};
ghost use Rattle.model_text.specs.ModelFaults.{model_body, component_numbers, first_model_fault, network_of, IsModelDue};
ghost use Rattle.model_text.specs.ReadBack.{IsAsRead};
ghost use Rattle.model_text.specs.LineAdditions.{BuildsLines};

use crate::addition::add_line;
use crate::fault::{ModelRefusal, fault_at};
use crate::header::is_model_header;
use crate::keyword::{LineKeyword, line_keyword};
use crate::line_shape::component_line;
use des_base::{CompId, Line, Lines};
use des_net::{Builder, Network};
use std::alloc::Global;

/// The network that the text says, or its first fault.
///
/// The first line is `des 1`. Each other line is one of `component NAME`, `state NAME`, `state NAME init`,
/// `trans FROM ACTION TO` and `event NAME alarm LABEL fault : COMPONENT.ACTION ..`, where `alarm LABEL` and `fault` may
/// be left out. States and transitions belong to the component that was begun last. What a line uses stands on earlier
/// lines, and an action is known once a transition of its component has it. Blank lines are skipped, and so are lines
/// that begin with `#`.
pub fn read_model(alloc: Global, bytes: &[u8]) -> Result<Network, ModelRefusal>
    requires { length bytes.now < 2 ^ 32 }
    ensures network { IfOk result (λ net. net ≡ network_of bytes.now) }
    ensures well { OnOk result (first_model_fault bytes.now ≡ None) }
    ensures as_read { IfOk result IsAsRead }
    ensures refused { IfErr result (IsModelDue (first_model_fault bytes.now)) }
{
    let mut lines = Lines::new(bytes, b'#');
    let Some(header) = lines.next_line() else {
        return Err(fault_at(1, 1));
    };
    if !is_model_header(header.tokens()) {
        return Err(fault_at(header.number, 1));
    }
    let builder = build(alloc, lines)?;
    match builder.finish() {
        Ok(net) => Ok(net),
        Err(lacking) => Err(fault_at(component_number(bytes, lacking.comp), 6)),
    }
}

// The builder with what the lines add.
fn build(alloc: Global, mut lines: Lines) -> Result<Builder, ModelRefusal>
    ensures { BuildsLines lines.entry result }
{
    let mut builder = Builder::new(alloc);
    while let Some(line) = lines.next_line() {
        match add_line(alloc, &mut builder, &line) {
            Ok(()) => {}
            Err(refusal) => return Err(refusal.at(line.number)),
        }
    }
    Ok(builder)
}

// The number of the line that begins this component. The text is gone over again, so that no number is kept for each.
fn component_number(bytes: &[u8], comp: CompId) -> u32
    requires { length bytes.now < 2 ^ 32 }
    ensures { result ≡ slice_index (component_numbers (model_body (counted_lines 35 bytes.now))) comp }
{
    let mut lines = Lines::new(bytes, b'#');
    match lines.next_line() {
        Some(_) => component_number_in(lines, comp.0),
        None => 0,
    }
}

// The number of the line that begins a component after `comp` others, or 0 if none does.
fn component_number_in(mut lines: Lines, comp: u32) -> u32
    ensures { result ≡ slice_index (component_numbers lines.entry) comp }
{
    let mut before = comp;
    while let Some(line) = lines.next_line() {
        if begins_component(&line) {
            if before == 0 {
                return line.number;
            }
            before -= 1;
        }
    }
    0
}

#[tactic(auto, using(crate::proofs::StartLemmas::no_beginnings))]
fn begins_component(line: &Line) -> bool
    ensures { result ≡ option_map_or begins_component (model_line (tokens_of line.now.text.now)) false }
{
    let mut tokens = line.tokens();
    let Some(word) = tokens.next_token() else {
        return false;
    };
    match line_keyword(word.text) {
        Some(LineKeyword::Component) => component_line(tokens).is_some(),
        Some(LineKeyword::State | LineKeyword::Trans | LineKeyword::Event) | None => false,
    }
}
