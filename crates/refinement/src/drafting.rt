// The text of a network with more components.
ghost use Rattle.std.specs.Prelude.{◌≤◌, ◌<◌, ◌^◌, length};

use crate::additions::{Addition, Move, Planned, changes_in, moves_of};
use crate::change::FollowerChange;
use des_base::{Lines, Memory, Name, NameFault, NameTable, push_decimal};
use des_net::{MOST_COMPONENTS, Network};
use model_text::print_model;
use std::alloc::Global;

/// How many bytes the text of a model may have.
pub const MOST_BYTES: usize = 16_777_216;

// How the first event of a printed model begins. It comes after all components.
const FIRST_EVENT: &[u8] = b"\nevent ";

/// The text of the network with the additions that are chosen, or none if they can't be written.
///
/// It is the printed text of the network, with the lines of the additions before the events, and with their parts behind the
/// parts of each event.
pub fn draft(alloc: Global, net: &Network, plan: &Planned) -> Result<Option<Vec<u8>>, Memory> {
    let mut plain = Vec::new(alloc);
    print_model(net, &mut plain)?;
    if plain.len() > MOST_BYTES {
        return Ok(None);
    }
    let (components, events) = plain.as_slice().split_at(components_len(plain.as_slice()));
    let mut text = Vec::from_slice(alloc, components)?;
    let mut further = no_parts(alloc, net.events())?;
    if !push_additions(alloc, net, plan, &mut text, &mut further)? {
        return Ok(None);
    }
    push_events(events, further.as_slice(), &mut text)?;
    Ok(Some(text))
}

// How many bytes come before the first event.
fn components_len(plain: &[u8]) -> usize
    ensures { result ≤ length plain.now }
{
    match plain
        .windows(FIRST_EVENT.len())
        .position(|bytes| bytes == FIRST_EVENT)
    {
        Some(at) => plain.len().min(at.saturating_add(1)),
        None => plain.len(),
    }
}

// No text for each event.
fn no_parts(alloc: Global, events: u32) -> Result<Vec<Vec<u8>>, Memory> {
    let mut further = Vec::new(alloc);
    for _ in 0..events {
        further.push(Vec::new(alloc))?;
    }
    Ok(further)
}

// Appends the lines of the additions, and their parts to those of each event. No if they can't be written.
fn push_additions(
    alloc: Global,
    net: &Network,
    plan: &Planned,
    text: &mut Vec<u8>,
    further: &mut Vec<Vec<u8>>,
) -> Result<bool, Memory> {
    let mut names = Names::new(alloc);
    for addition in plan.additions.as_slice() {
        if addition.chosen {
            let Some(by_action) = plan.touching.get(addition.follower.comp.0 as usize) else {
                return Ok(false);
            };
            let Some(name) = names.name_of(alloc, net, addition.title.as_slice())? else {
                return Ok(false);
            };
            let moves = moves_of(alloc, addition.moving.as_slice(), by_action.as_slice())?;
            let changes = changes_in(alloc, moves.as_slice())?;
            push_component(&name, addition, changes.as_slice(), text)?;
            push_parts(&name, moves.as_slice(), further)?;
            if !add_name(&mut names.taken, name)? {
                return Ok(false);
            }
        }
    }
    Ok(true)
}

// The names of additions: those that are taken, and the number from which on `state-1`, `state-2` and so on may be free.
#[derive(Drop)]
struct Names {
    taken: NameTable,
    number: u64,
}

impl Names {
    fn new(alloc: Global) -> Names {
        Names {
            taken: NameTable::new(alloc),
            number: 1,
        }
    }

    // The title if it is a name and free, or else the first of `state-1`, `state-2` and so on that is free.
    fn name_of(
        &mut self,
        alloc: Global,
        net: &Network,
        title: &[u8],
    ) -> Result<Option<Name>, Memory> {
        if let Some(name) = free_name(alloc, net, &self.taken, title)? {
            return Ok(Some(name));
        }
        for number in self.number..=MOST_COMPONENTS as u64 {
            let mut text = Vec::from_slice(alloc, b"state-")?;
            push_decimal(&mut text, number)?;
            if let Some(name) = free_name(alloc, net, &self.taken, text.as_slice())? {
                self.number = number;
                return Ok(Some(name));
            }
        }
        Ok(None)
    }
}

// The text as a name, if it is one that neither a component of the network has nor another addition.
fn free_name(
    alloc: Global,
    net: &Network,
    names: &NameTable,
    text: &[u8],
) -> Result<Option<Name>, Memory> {
    if net.find_component(text).is_some() || names.find(text).is_some() {
        return Ok(None);
    }
    match Name::new(alloc, text) {
        Ok(name) => Ok(Some(name)),
        Err(NameFault::Shape) => Ok(None),
        Err(NameFault::Memory) => Err(Memory),
    }
}

// Adds a name, if it is new and there is room for it.
fn add_name(names: &mut NameTable, name: Name) -> Result<bool, Memory> {
    if names.find(name.as_str().as_bytes()).is_some() || names.len() as usize >= MOST_COMPONENTS {
        return Ok(false);
    }
    names.add(name)?;
    Ok(true)
}

fn push_component(
    name: &Name,
    addition: &Addition,
    changes: &[FollowerChange],
    text: &mut Vec<u8>,
) -> Result<(), Memory> {
    text.extend_from_slice(b"component ")?;
    text.extend_from_slice(name.as_str().as_bytes())?;
    text.extend_from_slice(b"\n")?;
    push_state("state no", addition.starts_out, text)?;
    push_state("state yes", addition.starts_in, text)?;
    for change in changes {
        text.extend_from_slice(change.lines().as_bytes())?;
    }
    Ok(())
}

fn push_state(state: &str, starts: bool, text: &mut Vec<u8>) -> Result<(), Memory> {
    text.extend_from_slice(state.as_bytes())?;
    if starts {
        text.extend_from_slice(b" init")?;
    }
    text.extend_from_slice(b"\n")?;
    Ok(())
}

// Appends to the parts of each event that moves the addition.
fn push_parts(name: &Name, moves: &[Move], further: &mut Vec<Vec<u8>>) -> Result<(), Memory> {
    for one in moves {
        if let Some(parts) = further.get_mut(one.event.0 as usize) {
            parts.extend_from_slice(b" ")?;
            parts.extend_from_slice(name.as_str().as_bytes())?;
            parts.extend_from_slice(b".")?;
            parts.extend_from_slice(one.change.name().as_bytes())?;
        }
    }
    Ok(())
}

// Appends the lines of the events, each with its further parts.
fn push_events(events: &[u8], further: &[Vec<u8>], text: &mut Vec<u8>) -> Result<(), Memory>
    requires { length events.now < 2 ^ 32 }
{
    let mut lines = Lines::new(events, b'#');
    for parts in further {
        let Some(line) = lines.next_line() else {
            return Ok(());
        };
        text.extend_from_slice(line.text)?;
        text.extend_from_slice(parts.as_slice())?;
        text.extend_from_slice(b"\n")?;
    }
    Ok(())
}
