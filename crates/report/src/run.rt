// The text of a run.
ghost use Rattle.std.specs.Prelude.{◌≡◌, ◌<◌, ◌++◌, ◌∷◌, [], All, IfSome, length, flat_map, slice_index_or, OnErr, OnOk};
ghost use Rattle.replay.specs.Traced.{event_of, word_of};
ghost use Rattle.des_base.specs.Lists.{Extends};
ghost use Rattle.report.specs.Replies.{text_of_alarm, text_of_run, text_of_step};

use crate::pieces::{push_named, push_numbered, push_text, whole_or_nothing};
use des_base::{EventId, Memory, Name};
use des_net::Network;
use replay::{Run, RunStep};

/// Appends a run: `run` and the number of its steps, and then a line for each step, with the name of its event and that of its
/// alarm. A false alarm stands behind the mark `!`.
pub fn print_run(run: &Run, net: &Network, out: &mut Vec<u8>) -> Result<(), Memory>
    requires { All (λ e. e < length net.now.events) (word_of run.now) }
    ensures ok { OnOk result (out.new.items ≡ out.old.items ++ text_of_run net.now run.now) }
    ensures err { OnErr result (out.new.items ≡ out.old.items) }
{
    let before = out.len();
    let pushed = push_run(run, net, out);
    whole_or_nothing(pushed, before, out)
}

/// The same as [`print_run`], but if memory runs out some of it may be there.
pub fn push_run(run: &Run, net: &Network, out: &mut Vec<u8>) -> Result<(), Memory>
    requires { All (λ e. e < length net.now.events) (word_of run.now) }
    ensures ok { OnOk result (out.new.items ≡ out.old.items ++ text_of_run net.now run.now) }
    ensures kept { Extends out.old.items out.new.items }
{
    let steps = run.steps();
    push_numbered("run ", steps.len() as u64, out)?;
    push_steps(steps, net, out)
}

fn push_steps(steps: &[RunStep], net: &Network, out: &mut Vec<u8>) -> Result<(), Memory>
    requires { All (λ e. e < length net.now.events) (word_of steps.now) }
    ensures ok { OnOk result (out.new.items ≡ out.old.items ++ flat_map (text_of_step net.now) steps.now) }
    ensures kept { Extends out.old.items out.new.items }
{
    for step in steps {
        push_step(step, net, out)?;
    }
    Ok(())
}

fn push_step(step: &RunStep, net: &Network, out: &mut Vec<u8>) -> Result<(), Memory>
    requires { IfSome (event_of step.now) (λ e. e < length net.now.events) }
    ensures ok { OnOk result (out.new.items ≡ out.old.items ++ text_of_step net.now step.now) }
    ensures kept { Extends out.old.items out.new.items }
{
    match step {
        RunStep::Happens { event, alarm } => push_event(*event, alarm, net, out),
        RunStep::Dropped { alarm } => push_named("! ", alarm.as_str(), out),
    }
}

// The line of an event, with its alarm.
fn push_event(
    event: EventId,
    alarm: &Option<Name>,
    net: &Network,
    out: &mut Vec<u8>,
) -> Result<(), Memory>
    requires { event < length net.now.events }
    ensures ok { OnOk result (out.new.items ≡ out.old.items ++ (slice_index_or net.now.event_names event [] ++ text_of_alarm alarm.now ++ 10 ∷ [])) }
    ensures kept { Extends out.old.items out.new.items }
{
    push_text(name_of(net, event), out)?;
    push_alarm(alarm, out)?;
    push_text("\n", out)
}

// The name of an event of the network.
pub fn name_of(net: &Network, event: EventId) -> &str
    requires { event < length net.now.events }
    ensures { result.now ≡ slice_index_or net.now.event_names event [] }
{
    net.event_name(event).as_str()
}

// Appends a space and the name of the alarm, if there is one.
fn push_alarm(alarm: &Option<Name>, out: &mut Vec<u8>) -> Result<(), Memory>
    ensures ok { OnOk result (out.new.items ≡ out.old.items ++ text_of_alarm alarm.now) }
    ensures kept { Extends out.old.items out.new.items }
{
    match alarm {
        Some(name) => {
            push_text(" ", out)?;
            push_text(name.as_str(), out)
        }
        None => Ok(()),
    }
}
