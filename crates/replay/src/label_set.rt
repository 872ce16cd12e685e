// A set of labels.
ghost use Rattle.std.specs.Prelude.{◌≡◌, ◌<◌, bytes_eq, length};
ghost use Rattle.std.specs.List.{list_any};
ghost use Rattle.replay.specs.LabelPlaces.{mark_place};
ghost use Rattle.replay.specs.Explanation.{has_any_label};

use des_base::{EventId, Name};
use des_net::Network;
use log_order::has_label;
use std::marker::Model;

// How many places there are: few of an alarm's labels, at most 64, share one.
const PLACES: usize = 4096;

/// Labels, with a mark at the place of each.
#[derive(Drop)]
pub struct LabelSet<'a> {
    labels: &'a [Name],
    marks: [bool; PLACES],
}

impl<'a> Model for LabelSet<'a> {
    ghost use Rattle.std.specs.Prelude.{List, ℕ, length};
    ghost use Rattle.replay.specs.LabelPlaces.{HaveMarks};

    ghost Value = { List (List ℕ) };

    ghost view = { λ a. a.labels.now };

    ghost invariant = { λ a. HaveMarks a.marks a.labels.now (length a.labels.now) };
}

impl<'a> LabelSet<'a> {
    /// The set of these labels.
    pub fn of(labels: &'a [Name]) -> LabelSet<'a>
        ensures { result ≡ labels.now }
    {
        let mut marks = [false; PLACES];
        for label in labels {
            marks[mark_place(label)] = true;
        }
        LabelSet { labels, marks }
    }

    /// Whether the label is in the set.
    pub fn has(&self, label: &Name) -> bool
        ensures { result ≡ list_any (bytes_eq label.now) self.now }
    {
        self.marks[mark_place(label)] && has_label(self.labels, label)
    }

    /// Whether the event can be seen, and by a label of the set.
    pub fn has_label_of(&self, net: &Network, event: EventId) -> bool
        requires { event < length net.now.events }
        ensures { result ≡ has_any_label net.now self.now event }
    {
        match net.label(event) {
            Some(label) => self.has(label),
            None => false,
        }
    }
}

// The place that a label leads to.
fn mark_place(label: &Name) -> usize
    ensures is { result ≡ mark_place label.now }
    ensures within { result < PLACES }
{
    let mut place = 0;
    for byte in label.as_str().as_bytes() {
        place = (place * 31 + *byte as usize) % PLACES;
    }
    place
}
