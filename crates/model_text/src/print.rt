// A network as a text.
ghost use Rattle.std.specs.Prelude.{◌≡◌, ◌<◌, ◌∷◌, ◌++◌, length, map, OnErr, OnOk, [], Some};
ghost use Rattle.std.specs.List.{AllByRecursion, flat_map};
ghost use Rattle.std.specs.Option.{option_copied};
ghost use Rattle.des_net.specs.Network.{IsPart, component_at, event_at};
ghost use Rattle.model_text.specs.ModelLines.{component, transition};
ghost use Rattle.model_text.specs.ReadBack.{IsAsRead, ReadsBack};
ghost use Rattle.model_text.specs.PrintedModel.{each_named, event_head, fault_tokens, label_tokens, line_of_event, line_of_state, line_of_transition, line_text, lines_of_component, mark_tokens, model_text, name_at, part_by_name, part_token, spaced};

use des_base::{CompId, EventId, Memory, Name, StateId};
use des_net::{Network, Part, Trans};

/// Appends the text of the network: `des 1`, then each component with its states and its transitions, and then the events, all
/// in their order. Between two tokens stands one space. The text of a network that was read reads back as that network, and so
/// is printed again as the same text.
///
/// A refused call changes nothing.
pub fn print_model(net: &Network, out: &mut Vec<u8>) -> Result<(), Memory>
    ensures text { OnOk result (out.new.items ≡ out.old.items ++ model_text net.now) }
    ensures reads_back { OnOk result (IsAsRead net.now → ReadsBack net.now) }
    ensures err { OnErr result (out.new.items ≡ out.old.items) }
{
    net.is_built();
    let mut text = Vec::new(*out.allocator());
    text.extend_from_slice(b"des 1\n")?;
    print_components(net, &mut text)?;
    print_events(net, &mut text)?;
    out.extend_from_slice(text.as_slice())?;
    Ok(())
}

fn print_components(net: &Network, text: &mut Vec<u8>) -> Result<(), Memory>
    ensures { OnOk result (text.new.items ≡ text.old.items ++ flat_map line_text (each_named lines_of_component net.now.component_names net.now.components)) }
{
    for comp in 0..net.components() {
        print_component(net, CompId(comp), text)?;
    }
    Ok(())
}

fn print_component(net: &Network, comp: CompId, text: &mut Vec<u8>) -> Result<(), Memory>
    requires { comp < length net.now.components }
    ensures { OnOk result (text.new.items ≡ text.old.items ++ flat_map line_text (lines_of_component (name_at net.now.component_names comp) (component_at net.now comp))) }
{
    print_component_line(net.comp_name(comp), text)?;
    print_states(net, comp, text)?;
    print_transitions(net, comp, text)?;
    Ok(())
}

fn print_component_line(name: &Name, text: &mut Vec<u8>) -> Result<(), Memory>
    ensures { OnOk result (text.new.items ≡ text.old.items ++ line_text (component name.now)) }
{
    text.extend_from_slice(b"component ")?;
    print_name(name, text)?;
    text.extend_from_slice(b"\n")?;
    Ok(())
}

fn print_states(net: &Network, comp: CompId, text: &mut Vec<u8>) -> Result<(), Memory>
    requires { comp < length net.now.components }
    ensures { OnOk result (text.new.items ≡ text.old.items ++ flat_map line_text (each_named line_of_state (component_at net.now comp).state_names (component_at net.now comp).initial)) }
{
    for state in 0..net.states(comp) {
        let state = StateId(state);
        print_state(net.state_name(comp, state), net.is_init(comp, state), text)?;
    }
    Ok(())
}

fn print_state(name: &Name, initial: bool, text: &mut Vec<u8>) -> Result<(), Memory>
    ensures { OnOk result (text.new.items ≡ text.old.items ++ flat_map line_text (line_of_state name.now initial)) }
{
    text.extend_from_slice(b"state ")?;
    print_name(name, text)?;
    print_mark(initial, text)?;
    text.extend_from_slice(b"\n")?;
    Ok(())
}

fn print_mark(initial: bool, text: &mut Vec<u8>) -> Result<(), Memory>
    ensures { OnOk result (text.new.items ≡ text.old.items ++ spaced (mark_tokens initial)) }
{
    if initial {
        text.extend_from_slice(b" init")?;
    }
    Ok(())
}

fn print_transitions(net: &Network, comp: CompId, text: &mut Vec<u8>) -> Result<(), Memory>
    requires { comp < length net.now.components }
    ensures { OnOk result (text.new.items ≡ text.old.items ++ flat_map line_text (map (line_of_transition (component_at net.now comp)) (component_at net.now comp).transitions)) }
{
    for trans in net.trans(comp) {
        print_transition(
            net.state_name(comp, trans.from),
            net.action_name(comp, trans.action),
            net.state_name(comp, trans.to),
            text,
        )?;
    }
    Ok(())
}

fn print_transition(from: &Name, action: &Name, to: &Name, text: &mut Vec<u8>) -> Result<(), Memory>
    ensures { OnOk result (text.new.items ≡ text.old.items ++ line_text (transition from.now action.now to.now)) }
{
    text.extend_from_slice(b"trans ")?;
    print_name(from, text)?;
    text.extend_from_slice(b" ")?;
    print_name(action, text)?;
    text.extend_from_slice(b" ")?;
    print_name(to, text)?;
    text.extend_from_slice(b"\n")?;
    Ok(())
}

fn print_events(net: &Network, text: &mut Vec<u8>) -> Result<(), Memory>
    ensures { OnOk result (text.new.items ≡ text.old.items ++ flat_map line_text (each_named (line_of_event net.now) net.now.event_names net.now.events)) }
{
    net.is_built();
    for event in 0..net.events() {
        print_event(net, EventId(event), text)?;
    }
    Ok(())
}

fn print_event(net: &Network, event: EventId, text: &mut Vec<u8>) -> Result<(), Memory>
    requires event { event < length net.now.events }
    requires known { AllByRecursion (IsPart net.now.components) (event_at net.now event).parts }
    ensures { OnOk result (text.new.items ≡ text.old.items ++ flat_map line_text (line_of_event net.now (name_at net.now.event_names event) (event_at net.now event))) }
{
    print_event_head(
        net.event_name(event),
        net.label(event),
        net.is_fault(event),
        text,
    )?;
    print_parts_of(net, event, text)?;
    text.extend_from_slice(b"\n")?;
    Ok(())
}

// All parts of the event.
fn print_parts_of(net: &Network, event: EventId, text: &mut Vec<u8>) -> Result<(), Memory>
    requires event { event < length net.now.events }
    requires known { AllByRecursion (IsPart net.now.components) (event_at net.now event).parts }
    ensures { OnOk result (text.new.items ≡ text.old.items ++ spaced (map part_token (map (part_by_name net.now) (event_at net.now event).parts))) }
{
    print_parts(net, parts_of(net, event), text)?;
    Ok(())
}

fn parts_of(net: &Network, event: EventId) -> &[Part]
    requires { event < length net.now.events }
    ensures { result.now ≡ (event_at net.now event).parts }
{
    net.event(event).parts.as_slice()
}

// An event up to its colon.
fn print_event_head(
    name: &Name,
    label: Option<&Name>,
    fault: bool,
    text: &mut Vec<u8>,
) -> Result<(), Memory>
    ensures { OnOk result (text.new.items ≡ text.old.items ++ event_head name.now (option_copied label.entry) fault) }
{
    text.extend_from_slice(b"event ")?;
    print_name(name, text)?;
    print_label(label, text)?;
    print_fault(fault, text)?;
    text.extend_from_slice(b" :")?;
    Ok(())
}

fn print_label(label: Option<&Name>, text: &mut Vec<u8>) -> Result<(), Memory>
    ensures { OnOk result (text.new.items ≡ text.old.items ++ spaced (label_tokens (option_copied label.entry))) }
{
    let Some(label) = label else {
        return Ok(());
    };
    text.extend_from_slice(b" alarm ")?;
    print_name(label, text)?;
    Ok(())
}

fn print_fault(fault: bool, text: &mut Vec<u8>) -> Result<(), Memory>
    ensures { OnOk result (text.new.items ≡ text.old.items ++ spaced (fault_tokens fault)) }
{
    if fault {
        text.extend_from_slice(b" fault")?;
    }
    Ok(())
}

fn print_parts(net: &Network, parts: &[Part], text: &mut Vec<u8>) -> Result<(), Memory>
    requires { AllByRecursion (IsPart net.now.components) parts.now }
    ensures { OnOk result (text.new.items ≡ text.old.items ++ spaced (map part_token (map (part_by_name net.now) parts.now))) }
{
    for part in parts {
        print_part(net, *part, text)?;
    }
    Ok(())
}

fn print_part(net: &Network, part: Part, text: &mut Vec<u8>) -> Result<(), Memory>
    requires { IsPart net.now.components part }
    ensures { OnOk result (text.new.items ≡ text.old.items ++ spaced (part_token (part_by_name net.now part) ∷ [])) }
{
    text.extend_from_slice(b" ")?;
    print_name(net.comp_name(part.comp), text)?;
    text.extend_from_slice(b".")?;
    print_name(net.action_name(part.comp, part.action), text)?;
    Ok(())
}

fn print_name(name: &Name, text: &mut Vec<u8>) -> Result<(), Memory>
    ensures { OnOk result (text.new.items ≡ text.old.items ++ name.now) }
{
    text.extend_from_slice(name.as_str().as_bytes())?;
    Ok(())
}
