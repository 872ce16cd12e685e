// An alarm of a log: its id, its labels, and whether it is doubtful.
ghost use Rattle.std.specs.Prelude.{◌≡◌, ◌<◌, ◌≤◌, [], length, bytes_eq, IfOk, OnOk};
ghost use Rattle.std.specs.List.{list_any};
ghost use Rattle.des_base.specs.Names.{AreNames};
ghost use Rattle.log_order.specs.Adding.{with_text, with_texts};
ghost use Rattle.log_order.specs.declared.TheConstants.{MOST_LABELS};

use crate::certainty::Certainty;
use des_base::{Memory, Name};
use std::alloc::Global;
use std::marker::Model;

// What an alarm may stand for: events with its labels, or no event if it is perhaps false.
#[derive(Drop)]
pub struct AlarmMeaning {
    pub labels: Vec<Name>,
    pub certainty: Certainty,
}

impl Model for AlarmMeaning {
    ghost use Rattle.log_order.specs.Meanings.{AlarmMeaning};

    ghost Value = { AlarmMeaning };

    ghost use Rattle.log_order.specs.Certainty.{leaves_doubt};

    ghost view = { λ a. record { labels = a.labels.items; doubtful = leaves_doubt a.certainty } };
}

impl AlarmMeaning {
    pub fn labels(&self) -> &[Name]
        ensures { result.now ≡ self.now.labels }
    {
        self.labels.as_slice()
    }

    pub fn is_doubtful(&self) -> bool
        ensures { result ≡ self.now.doubtful }
    {
        self.certainty.is_doubtful()
    }
}

/// Whether the label is among the labels.
pub fn has_label(labels: &[Name], label: &Name) -> bool
    ensures { result ≡ list_any (bytes_eq label.now) labels.now }
{
    labels.iter().any(|other| label == other)
}

// Adds a label, if it isn't there.
#[tactic(auto, using(crate::proofs::AlarmLemmas::with_text_is))]
fn push_new(labels: &mut Vec<Name>, label: &Name) -> Result<(), Memory>
    requires { length labels.old.items < MOST_LABELS }
    ensures ok { OnOk result (labels.new.items ≡ with_text labels.old.items label.now) }
    ensures names { OnOk result (AreNames labels.old.items → AreNames labels.new.items) }
{
    let _text = label.as_str();
    if !has_label(labels.as_slice(), label) {
        labels.push(label.copy()?)?;
    }
    Ok(())
}

/// The labels, each once and at its first place: at most 64, as an alarm keeps them. It fails only if memory runs out.
pub fn each_once(alloc: Global, labels: &[Name]) -> Result<Vec<Name>, Memory>
    requires { length labels.now ≤ MOST_LABELS }
    ensures once { IfOk result (λ once. once.items ≡ with_texts [] labels.now) }
    ensures names { IfOk result (λ once. AreNames once.items) }
{
    let mut once: Vec<Name> = Vec::with_capacity(alloc, labels.len())?;
    for label in labels {
        push_new(&mut once, label)?;
    }
    Ok(once)
}
