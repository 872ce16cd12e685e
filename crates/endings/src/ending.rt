// How a command ends: its reply, or why it has none, and what is put then.
ghost use Rattle.std.specs.Prelude.{◌≡◌, ◌≢◌, [], ◌∷◌, IfOk, OnOk, Ok, Err};
ghost use Rattle.des_base.specs.Outside.{Rose};
ghost use Rattle.telling.specs.Telling.{RisesExactlyIf};
ghost use Rattle.endings.specs.Transcripts.{once};
ghost use Rattle.endings.specs.Puts.{Puts};
ghost use Rattle.endings.specs.declared.stop.Stop.TheVariants.{Memory as NoMemory};
ghost use Rattle.endings.specs.Endings.{HasStatus, ending_texts, status_of_kind};

use crate::stop::{Stop, status_of_stop, text_of_stop};
use des_base::{Memory, Sink};
use std::alloc::Global;
use std::marker::Model;

/// What a reply says.
#[derive(Clone, Copy)]
pub enum Kind {
    /// The yes of a command.
    Done,
    /// A run or a proof is rejected.
    Rejected,
    /// Nothing explains a log.
    Absent,
    /// The budget was spent on a question.
    Undecided,
    /// All that explains a log has more faults than are counted.
    Many,
    /// There is nothing to refute, since a run without faults explains the log.
    Nothing,
    /// A run with a fault and a run without it look alike.
    Ambiguous,
}

/// What a command answers: what it says, and the text.
#[derive(Drop)]
pub struct Reply {
    kind: Kind,
    text: Vec<u8>,
}

impl Model for Reply {
    ghost use Rattle.std.specs.Prelude.{List, ℕ};
    ghost use Rattle.endings.specs.declared.ending.Kind.{Kind};

    ghost Value = { Kind × List ℕ };

    ghost view = { λ a. (a.kind, a.text.items) };
}

impl Reply {
    /// The reply of this text.
    pub fn new(kind: Kind, text: Vec<u8>) -> Reply
        ensures { result ≡ (kind, text.items) }
    {
        Reply { kind, text }
    }

    pub fn kind(&self) -> Kind
        ensures { result ≡ self.now.0 }
    {
        self.kind
    }

    pub fn text(&self) -> &[u8]
        ensures { result.now ≡ self.now.1 }
    {
        self.text.as_slice()
    }
}

/// Puts the text of an ending by one put, and returns its status. Out of memory it puts nothing.
#[tactic(auto, using(telling::proofs::Taking::nothing_taken))]
pub fn put_once<S: Sink>(alloc: Global, ending: Result<Reply, Stop>, out: &mut S) -> u8
    ensures puts { Puts (once ending) (S.taken out.old) (S.taken out.new) (Rose (S.faults out.old) (S.faults out.new)) result }
    ensures failures { RisesExactlyIf (result ≡ 4) (S.failures out.old) (S.failures out.new) }
{
    match told(alloc, ending) {
        Ok((status, text)) => match out.put(text.as_slice()) {
            Ok(()) => status,
            Err(_) => 4,
        },
        Err(_) => 9,
    }
}

// The status of an ending and its text, unless memory runs out.
fn told(alloc: Global, ending: Result<Reply, Stop>) -> Result<(u8, Vec<u8>), Memory>
    ensures status { IfOk result (λ r. HasStatus (once ending) r.0) }
    ensures text { IfOk result (λ r. ending_texts (once ending) ≡ r.1.items ∷ []) }
    ensures memory { OnOk result (once ending ≢ Err NoMemory) }
{
    match ending {
        Ok(reply) => Ok((status_of_kind(reply.kind), reply.text)),
        Err(Stop::Memory) => Err(Memory),
        Err(stop) => Ok((status_of_stop(stop), text_of_stop(alloc, stop)?)),
    }
}

/// The exit status of a reply of this kind.
pub fn status_of_kind(kind: Kind) -> u8
    ensures { result ≡ status_of_kind kind }
{
    match kind {
        Kind::Done => 0,
        Kind::Rejected => 13,
        Kind::Absent => 10,
        Kind::Undecided => 11,
        Kind::Many => 12,
        Kind::Nothing => 14,
        Kind::Ambiguous => 17,
    }
}
