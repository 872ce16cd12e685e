// A log of alarms, which refuses what doesn't fit and otherwise adds one thing.
ghost use Rattle.std.specs.Prelude.{◌≡◌, ◌<◌, length, slice_get, option_map, not, true, false, IfOk, OnErr, OnOk, Some, None, Err};
ghost use Rattle.des_base.specs.Names.{place_of};
ghost use Rattle.des_base.specs.Refusing.{SucceedsUnless};
ghost use Rattle.log_order.specs.Log.{no_log, has_pair, ListsOnce, Keeps, IsValidLog, StandOnce};
ghost use Rattle.log_order.specs.Adding.{alarm_refusal, with_alarm, before_refusal, with_pair, names_of, IsLog};
ghost use Rattle.log_order.specs.Certainty.{leaves_doubt};
ghost use Rattle.log_order.specs.Order.{least_order};

use crate::alarm::{AlarmMeaning, each_once};
use crate::certainty::Certainty;
use crate::precedence::Precedence;
use crate::refusal::LogRefusal;
use crate::{MOST_ALARMS, MOST_LABELS};
use des_base::{Memory, Name, NameTable};
use std::alloc::Global;
use std::marker::Model;

/// A log: alarms, each with an id and labels, and certain or doubtful, and pairs of alarms, "the first before the second".
///
/// It is always valid: some order of all alarms keeps every pair. Alarms are numbered from 0 as they are added. A refused
/// call changes nothing. If several refusals hold, the first of `Double`, `Unknown`, `Cycle`, `NoLabels` and `Limit` is
/// answered, and `Memory` may come in place of any answer of a call that takes memory.
pub struct AlarmLog {
    ids: NameTable,
    meanings: Vec<AlarmMeaning>,
    precedence: Precedence,
    alloc: Global,
}

impl Model for AlarmLog {
    ghost use Rattle.log_order.specs.Log.{Log};

    ghost Value = { Log };

    ghost use Rattle.log_order.specs.View.{log_view, IsAlarmLog};

    ghost view = { log_view };

    ghost invariant = { IsAlarmLog };
}

// (Written out, so that it is proved once: a derived one is proved again in each crate that lets such a value go.)
impl Drop for AlarmLog {
    fn drop(self) {
        let Self {
            ids: _,
            meanings: _,
            precedence: _,
            alloc: _,
        } = self;
    }
}

impl AlarmLog {
    /// A log with nothing in it.
    pub fn new(alloc: Global) -> Self
        ensures { result ≡ no_log }
    {
        AlarmLog {
            ids: NameTable::new(alloc),
            meanings: Vec::new(alloc),
            precedence: Precedence::new(alloc),
            alloc,
        }
    }

    /// How many alarms there are.
    pub fn alarms(&self) -> u32
        ensures count { result ≡ length self.now.alarms }
        ensures whole { IsLog self.now }
    {
        self.precedence.count()
    }

    /// The id of an alarm.
    #[tactic(auto, using(crate::proofs::Meaning::id_is_known, crate::proofs::Meaning::id_is))]
    pub fn id(&self, alarm: u32) -> &Name
        requires { alarm < length self.now.alarms }
        ensures { option_map (λ a. a.name) (slice_get self.now.alarms alarm) ≡ Some result.now }
    {
        self.ids.name(alarm)
    }

    /// The labels of an alarm, each once.
    #[tactic(auto, using(crate::proofs::Meaning::meaning_is_known))]
    pub fn labels(&self, alarm: u32) -> &[Name]
        requires { alarm < length self.now.alarms }
        ensures { option_map (λ a. a.labels) (slice_get self.now.alarms alarm) ≡ Some result.now }
    {
        self.meanings[alarm as usize].labels()
    }

    /// Whether an alarm is doubtful: perhaps false, so that it stands for no event.
    #[tactic(auto, using(crate::proofs::Meaning::meaning_is_known))]
    pub fn is_maybe(&self, alarm: u32) -> bool
        requires { alarm < length self.now.alarms }
        ensures { option_map (λ a. a.doubtful) (slice_get self.now.alarms alarm) ≡ Some result }
    {
        self.meanings[alarm as usize].is_doubtful()
    }

    /// The pairs, in the order in which they were added.
    pub fn pairs(&self) -> &[(u32, u32)]
        ensures { result.now ≡ self.now.pairs }
    {
        self.precedence.pairs()
    }

    /// Whether the pair "the first before the second" is there. It need not be one of known alarms.
    pub fn has_pair(&self, first: u32, second: u32) -> bool
        ensures { result ≡ has_pair self.now.pairs first second }
    {
        self.precedence.has(first, second)
    }

    /// How many pairs there are. Each is there once.
    pub fn pair_count(&self) -> u32
        ensures count { result ≡ length self.now.pairs }
        ensures once { StandOnce self.now.pairs }
    {
        self.precedence.pair_count() as u32
    }

    /// A law: the log is whole, and each of its pairs stands in it once.
    pub fn is_whole(&self)
        ensures whole { IsLog self.now }
        ensures once { StandOnce self.now.pairs }
    {
        let _alarms = self.alarms();
        let _pairs = self.pair_count();
    }

    /// The alarm with this id.
    pub fn find(&self, text: &[u8]) -> Option<u32>
        ensures { result ≡ place_of text.now (names_of self.now.alarms) }
    {
        self.ids.find(text)
    }

    /// Why an alarm would be refused. `Double`: an alarm has the id. `NoLabels`: no label is given. `Limit`: there are 2,000
    /// alarms, or more than 64 labels are given. It takes no memory.
    #[tactic(auto, unfolding(crate::specs::Adding::alarm_refusal))]
    pub fn test_alarm(&self, id: &Name, labels: &[Name]) -> Option<LogRefusal>
        ensures { result ≡ alarm_refusal self.now id.now labels.now }
    {
        if self.find(id.as_str().as_bytes()).is_some() {
            return Some(LogRefusal::Double);
        }
        if labels.is_empty() {
            return Some(LogRefusal::NoLabels);
        }
        if self.alarms() as usize >= MOST_ALARMS || labels.len() > MOST_LABELS {
            return Some(LogRefusal::Limit);
        }
        None
    }

    /// Adds an alarm, certain or doubtful, and returns its number. A repeated label counts once, and keeps its first place.
    pub fn add(
        &mut self,
        id: Name,
        labels: &[Name],
        certainty: Certainty,
    ) -> Result<u32, LogRefusal>
        ensures refused { SucceedsUnless (alarm_refusal self.old id labels.now) LogRefusal.Memory result }
        ensures ok { OnOk result (self.new ≡ with_alarm self.old id labels.now (leaves_doubt certainty)) }
        ensures place { IfOk result (λ alarm. alarm ≡ length self.old.alarms) }
        ensures err { OnErr result (self.new ≡ self.old) }
    {
        match self.test_alarm(&id, labels) {
            Some(refusal) => Err(refusal),
            None => Ok(self.put_alarm(id, labels, certainty)?),
        }
    }

    /// Adds a certain alarm, and returns its number.
    pub fn add_alarm(&mut self, id: Name, labels: &[Name]) -> Result<u32, LogRefusal>
        ensures refused { SucceedsUnless (alarm_refusal self.old id labels.now) LogRefusal.Memory result }
        ensures ok { OnOk result (self.new ≡ with_alarm self.old id labels.now false) }
        ensures place { IfOk result (λ alarm. alarm ≡ length self.old.alarms) }
        ensures err { OnErr result (self.new ≡ self.old) }
    {
        self.add(id, labels, Certainty::Certain)
    }

    /// Adds a doubtful alarm, which is perhaps false, and returns its number.
    pub fn add_maybe(&mut self, id: Name, labels: &[Name]) -> Result<u32, LogRefusal>
        ensures refused { SucceedsUnless (alarm_refusal self.old id labels.now) LogRefusal.Memory result }
        ensures ok { OnOk result (self.new ≡ with_alarm self.old id labels.now true) }
        ensures place { IfOk result (λ alarm. alarm ≡ length self.old.alarms) }
        ensures err { OnErr result (self.new ≡ self.old) }
    {
        self.add(id, labels, Certainty::Doubtful)
    }

    /// Replaces `into` by the order that takes, of the alarms whose predecessors are all taken, the one with the smallest
    /// number.
    pub fn order(&self, into: &mut Vec<u32>) -> Result<(), Memory>
        ensures least { OnOk result (into.new.items ≡ least_order (length self.now.alarms) self.now.pairs) }
        ensures listed { OnOk result (ListsOnce (length self.now.alarms) into.new.items) }
        ensures kept { OnOk result (Keeps into.new.items self.now.pairs) }
        ensures err { OnErr result (into.new.items ≡ into.old.items) }
    {
        *into = self.precedence.least_order()?;
        Ok(())
    }

    // Adds an alarm that isn't refused.
    fn put_alarm(&mut self, id: Name, labels: &[Name], certainty: Certainty) -> Result<u32, Memory>
        requires { alarm_refusal self.old id labels.now ≡ None }
        ensures ok { OnOk result (self.new ≡ with_alarm self.old id labels.now (leaves_doubt certainty)) }
        ensures place { IfOk result (λ alarm. alarm ≡ length self.old.alarms) }
        ensures err { OnErr result (self.new ≡ self.old) }
    {
        let _text = id.as_str();
        let meaning = AlarmMeaning {
            labels: each_once(self.alloc, labels)?,
            certainty,
        };
        self.meanings.reserve(1)?;
        let number = self.precedence.add_number(&mut self.ids, id)?;
        self.meanings.push_reserved(meaning);
        Ok(number)
    }

    /// Why a pair would be refused. `Unknown`: an alarm isn't there. `Cycle`: the pairs would have one, and no order of the
    /// alarms would keep them all. `Limit`: the pair is new, and there are 20,000.
    pub fn test_before(&self, first: u32, second: u32) -> Result<(), LogRefusal>
        ensures refused { SucceedsUnless (before_refusal (length self.now.alarms) self.now.pairs first second) LogRefusal.Memory result }
        ensures valid { OnOk result (IsValidLog (record self.now { pairs = with_pair self.now.pairs first second })) }
        ensures cycle { result ≡ Err LogRefusal.Cycle → ¬ (IsValidLog (record self.now { pairs = with_pair self.now.pairs first second })) }
    {
        self.precedence.test(first, second)
    }

    /// Adds a pair of alarms, "the first before the second": true if it is new, and false if it was there.
    pub fn add_before(&mut self, first: u32, second: u32) -> Result<bool, LogRefusal>
        ensures refused { SucceedsUnless (before_refusal (length self.old.alarms) self.old.pairs first second) LogRefusal.Memory result }
        ensures ok { OnOk result (self.new ≡ record self.old { pairs = with_pair self.old.pairs first second }) }
        ensures fresh { IfOk result (λ fresh. fresh ≡ not (has_pair self.old.pairs first second)) }
        ensures err { OnErr result (self.new ≡ self.old) }
    {
        self.precedence.add(first, second)
    }
}
