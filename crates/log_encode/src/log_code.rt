// The code of an alarm log, which grows by drafts.
ghost use Rattle.std.specs.Prelude.{◌≡◌, ◌<◌, ◌≤◌, ◌+◌, ◌*◌, ◌++◌, ◌∷◌, [], ℕ, Some, true, false, ◌&&◌, length, vec_len, vec_capacity, slice_get, nat_lt, is_some, IfOk, IfSome, OnOk, OnErr};
ghost use Rattle.question_clauses.specs.Additions.{alarm_added, pair_added};
ghost use Rattle.question_clauses.specs.Decoded.{alarm_at, is_false_alarm};
ghost use Rattle.question_clauses.specs.LogClauses.{guard_literals, matching_events};
ghost use Rattle.question_clauses.specs.LogNames.{first_meanings};
ghost use Rattle.prop_core.specs.Clauses.{value_in};
ghost use Rattle.prop_core.specs.NamedClauses.{value_by};
ghost use Rattle.prop_core.specs.VariableNames.{ReadsAs, meaning_of, named_clause, done};
ghost use Rattle.log_encode.specs.AlarmState.{variables_of, is_matched};
ghost use Rattle.log_encode.specs.AlarmVariables.{AreWithinLimit, alarm_width, done_variable, dropped_variable};
ghost use Rattle.log_encode.specs.CodedLog.{IsCodedLog, empty_code, code_after, log_meanings, false_literals, log_guards, read_meanings, addition_width};
ghost use Rattle.log_encode.specs.Drafted.{IsDraftOf, IsStepOfAlarm, IsUnpassed, HasRoomFor};
ghost use Rattle.log_encode.specs.LogEnds.{IsLogEnd};
ghost use Rattle.log_encode.specs.WrittenLog.{AppendsFirst};
ghost use Rattle.log_order.specs.Log.{an_alarm};

use crate::alarm_code::AlarmCode;
use crate::alarm_vars::AlarmVars;
use crate::chains::{first_ends, guards_of};
use crate::draft::{Change, Draft};
use crate::log_end::{LogEnd, draft_at};
use crate::taken::ChainEnd;
use crate::writing::{write_all_closed, write_pair};
use des_base::{EventId, Memory, Name, VAR_LIMIT};
use des_net::Network;
use prop_core::{Assignment, Clauses, Grid, Lit, Vars};
use std::alloc::Global;
use std::marker::Model;
use std::snapshot::Snapshot;

/// The code of an alarm log: the variables that stand for what the log says, and its guards.
///
/// It grows by drafts. Each is made by the code as it stands, then room is reserved for it, and then it is committed. Its
/// clauses go to whoever keeps them, and its variables are made by whoever counts them.
pub struct LogCode {
    alloc: Global,
    net: Snapshot<Network>,
    grid: Grid,
    asked: u32,
    ends: Vec<ChainEnd>,
    guards: Vec<Lit>,
    dropped: Vec<Lit>,
    alarms: Vec<AlarmCode>,
    pairs: Vec<(u32, u32)>,
    vars: u32,
    spare_alarms: usize,
    spare_pairs: usize,
}

impl Model for LogCode {
    ghost use Rattle.log_encode.specs.Drafted.{LogCodeState};

    ghost Value = { LogCodeState };

    ghost use Rattle.log_encode.specs.View.{code_view, KeepsLogCode};

    ghost view = { code_view };

    ghost invariant = { KeepsLogCode };
}

// (Written out, so that it is proved once: a derived one is proved again in each crate that lets such a value go.)
impl Drop for LogCode {
    fn drop(self) {
        let Self {
            alloc: _,
            net: _,
            grid: _,
            asked: _,
            ends: _,
            guards: _,
            dropped: _,
            alarms: _,
            pairs: _,
            vars: _,
            spare_alarms: _,
            spare_pairs: _,
        } = self;
    }
}

impl LogCode {
    /// The code of the empty log. It appends its clauses, and makes its variables.
    pub fn new(
        alloc: Global,
        net: &Network,
        grid: Grid,
        vars: &mut Vars,
        out: &mut Clauses,
    ) -> Result<LogCode, Memory>
        requires events { grid.events ≡ length net.now.events }
        requires made { grid.first + grid.events * grid.steps ≤ vars.old }
        requires few { vars.old + length (first_meanings net.now) ≤ VAR_LIMIT }
        ensures code { IfOk result (λ made. made.coded ≡ empty_code net.now grid vars.old) }
        ensures vars { OnOk result (vars.new ≡ vars.old + length (first_meanings net.now)) }
        ensures written { OnOk result (AppendsFirst net.now grid.steps (read_meanings (empty_code net.now grid vars.old)) out.old.clauses out.new.clauses) }
        ensures same_vars { OnErr result (vars.new ≡ vars.old) }
        ensures same_clauses { OnErr result (out.new ≡ out.old) }
    {
        let asked = vars.count();
        let ends = first_ends(alloc, net, asked)?;
        let guards = guards_of(alloc, asked, ends.as_slice())?;
        let mut clauses = Clauses::new(alloc);
        write_all_closed(grid, ends.as_slice(), &mut clauses)?;
        out.absorb(clauses)?;
        vars.fresh(guards.len() as u32);
        Ok(LogCode {
            alloc,
            net: Snapshot::of(net),
            grid,
            asked,
            ends,
            guards,
            dropped: Vec::new(alloc),
            alarms: Vec::new(alloc),
            pairs: Vec::new(alloc),
            vars: vars.count(),
            spare_alarms: 0,
            spare_pairs: 0,
        })
    }

    /// Drafts an alarm with these labels, in the network that the code was made for: with `maybe`, a doubtful one. It has no id here.
    ///
    /// Its variables begin at `first_var`: make them by one `fresh` before the draft is committed.
    pub fn draft_alarm(
        &self,
        net: &Network,
        labels: &[Name],
        maybe: bool,
        first_var: u32,
    ) -> Result<Draft, Memory>
        requires net { net.now ≡ self.now.coded.net }
        requires made { self.now.coded.vars ≤ first_var }
        requires few { first_var + addition_width self.now.coded (alarm_added (an_alarm [] labels.now maybe)) ≤ VAR_LIMIT }
        ensures { IfOk result (IsDraftOf self.now.coded (alarm_added (an_alarm [] labels.now maybe)) first_var) }
    {
        draft_at(self, self.end(net), None, labels, maybe, first_var)
    }

    /// Drafts an alarm like `draft_alarm`, one with this id. Its clauses and variables are the same, and the id takes no memory.
    pub fn draft_named_alarm(
        &self,
        net: &Network,
        id: &Name,
        labels: &[Name],
        maybe: bool,
        first_var: u32,
    ) -> Result<Draft, Memory>
        requires net { net.now ≡ self.now.coded.net }
        requires made { self.now.coded.vars ≤ first_var }
        requires few { first_var + addition_width self.now.coded (alarm_added (an_alarm id.now labels.now maybe)) ≤ VAR_LIMIT }
        ensures { IfOk result (IsDraftOf self.now.coded (alarm_added (an_alarm id.now labels.now maybe)) first_var) }
    {
        draft_at(
            self,
            self.end(net),
            Some(Snapshot::of(id)),
            labels,
            maybe,
            first_var,
        )
    }

    // Where an alarm is added to the code.
    fn end<'a>(&'a self, net: &'a Network) -> LogEnd<'a>
        requires { net.now ≡ self.now.coded.net }
        ensures { IsLogEnd self.now.coded result }
    {
        LogEnd {
            alloc: self.alloc,
            net,
            grid: self.grid,
            asked: self.asked,
            ends: self.ends.as_slice(),
            dropped: self.dropped.as_slice(),
        }
    }

    /// Drafts a pair of alarms, "the first before the second". It takes no variables, and may stand between alarms of one step.
    pub fn draft_before(&self, first: u32, second: u32, first_var: u32) -> Result<Draft, Memory>
        requires first { first < length self.now.coded.log.alarms }
        requires second { second < length self.now.coded.log.alarms }
        requires made { self.now.coded.vars ≤ first_var }
        requires few { first_var ≤ VAR_LIMIT }
        ensures { IfOk result (IsDraftOf self.now.coded (pair_added first second) first_var) }
    {
        let mut clauses = Clauses::new(self.alloc);
        write_pair(
            self.asked,
            self.done(first),
            self.done(second),
            self.grid.steps,
            &mut clauses,
        )?;
        Ok(Draft {
            code: Snapshot::of(self),
            change: Change::Pair(first, second),
            first: first_var,
            vars: 0,
            clauses,
        })
    }

    /// Makes sure that there is room for a draft.
    pub fn reserve(&mut self, draft: &Draft) -> Result<(), Memory>
        ensures code { self.new.coded ≡ self.old.coded }
        ensures room { OnOk result (HasRoomFor self.new draft.now.addition) }
        ensures err { OnErr result (self.new ≡ self.old) }
    {
        match &draft.change {
            Change::Alarm { .. } => {
                self.alarms.reserve(1)?;
                self.spare_alarms = self.spare_alarms.max(1);
            }
            Change::Pair(_, _) => {
                self.pairs.reserve(1)?;
                self.spare_pairs = self.spare_pairs.max(1);
            }
        }
        Ok(())
    }

    /// Makes the addition of a draft.
    pub fn commit(&mut self, draft: Draft)
        requires made_by { draft.code ≡ self.old.coded }
        requires room { HasRoomFor self.old draft.addition }
        ensures { self.new.coded ≡ code_after self.old.coded draft.addition draft.first }
    {
        let Draft {
            code: _,
            change,
            first,
            vars,
            clauses: _,
        } = draft;
        self.vars = first + vars;
        match change {
            Change::Alarm {
                alarm,
                ends,
                guards,
                dropped,
            } => {
                self.ends = ends;
                self.guards = guards;
                self.dropped = dropped;
                push_alarm(&mut self.alarms, alarm);
                self.spare_alarms -= 1;
            }
            Change::Pair(first, second) => {
                push_pair(&mut self.pairs, (first, second));
                self.spare_pairs -= 1;
            }
        }
    }

    /// The guards, which are to be assumed for the present log.
    pub fn guards(&self) -> &[Lit]
        ensures listed { named_clause (read_meanings self.now.coded) result.now ≡ Some (guard_literals self.now.coded.net self.now.coded.log) }
        ensures guards { ReadsAs (read_meanings self.now.coded) result.now (guard_literals self.now.coded.net self.now.coded.log) }
        ensures whole { IsCodedLog self.now.coded }
    {
        self.guards.as_slice()
    }

    /// A law: the guards of the log, in their order, are literals of its meanings, and the code is whole.
    pub fn has_guards(&self)
        ensures guards { ReadsAs (read_meanings self.now.coded) (log_guards self.now.coded) (guard_literals self.now.coded.net self.now.coded.log) }
        ensures whole { IsCodedLog self.now.coded }
    {
        let _guards = self.guards();
    }

    /// That an alarm is false, for each doubtful alarm of the log.
    pub fn false_lits(&self) -> &[Lit]
        ensures { named_clause (log_meanings self.now.coded) result.now ≡ Some (false_literals self.now.coded.log) }
    {
        self.dropped.as_slice()
    }

    /// A number above all its variables.
    pub fn vars(&self) -> u32
        ensures { result ≡ self.now.coded.vars }
    {
        self.vars
    }

    /// The alarm that stands for an event in a step, counted from 1. Where the clauses and the guards are true, it is the one such
    /// alarm, and there is one wherever the event can be seen and happens.
    pub fn alarm_of(&self, assign: &Assignment, event: EventId, step: u32) -> Option<u32>
        requires event { event < length self.now.coded.net.events }
        requires from_one { 1 ≤ step }
        requires step { step ≤ self.now.coded.grid.steps }
        requires values { self.now.coded.vars ≤ length assign.now }
        ensures { result ≡ alarm_at self.now.coded.net self.now.coded.log (value_by (log_meanings self.now.coded) (value_in assign.now)) event step }
    {
        for (number, alarm) in self.alarms.iter().enumerate() {
            if self.is_matched(alarm, assign, event, step - 1) {
                return Some(number as u32);
            }
        }
        None
    }

    /// Whether the alarm is false.
    pub fn is_false_alarm(&self, assign: &Assignment, alarm: u32) -> bool
        requires alarm { alarm < length self.now.coded.log.alarms }
        requires values { self.now.coded.vars ≤ length assign.now }
        ensures { result ≡ is_false_alarm self.now.coded.log (value_by (log_meanings self.now.coded) (value_in assign.now)) alarm }
    {
        self.is_dropped(&self.alarms[alarm as usize], assign)
    }

    /// The least number of steps within which the alarm is done. It must be done in the end, as it is if the clauses and the
    /// guards are true.
    pub fn step_of_alarm(&self, assign: &Assignment, alarm: u32) -> u32
        requires alarm { alarm < length self.now.coded.log.alarms }
        requires values { self.now.coded.vars ≤ length assign.now }
        requires last { value_by (log_meanings self.now.coded) (value_in assign.now) (done alarm self.now.coded.grid.steps) ≡ true }
        ensures { IsStepOfAlarm self.now.coded.grid.steps (value_by (log_meanings self.now.coded) (value_in assign.now)) alarm result }
    {
        first_done(self.vars_of(&self.alarms[alarm as usize]), assign)
    }

    /// How many steps there are.
    pub fn steps(&self) -> u32
        ensures { result ≡ self.now.coded.grid.steps }
    {
        self.grid.steps
    }

    /// That the alarm isn't done within `steps` steps.
    pub fn undone(&self, alarm: u32, steps: u32) -> Lit
        requires alarm { alarm < length self.now.coded.log.alarms }
        requires steps { steps ≤ self.now.coded.grid.steps }
        ensures name { meaning_of (log_meanings self.now.coded) result.var ≡ Some (done alarm steps) }
        ensures sign { result.positive ≡ false }
    {
        Lit::new(self.done(alarm) + steps, false)
    }

    /// An event that an alarm may stand for, by its link: the first has number 0, and behind the last one there is none.
    pub fn linked(&self, alarm: u32, link: u32) -> Option<EventId>
        requires { alarm < length self.now.coded.log.alarms }
        ensures event { result ≡ slice_get (matching_events self.now.coded.net self.now.coded.log alarm) link }
        ensures known { IfSome result (λ event. event < length self.now.coded.net.events) }
    {
        self.alarms[alarm as usize].event_of(link)
    }

    /// That an alarm doesn't pass an event on in the step after `step` steps: the event of the link of this number, exactly if there are such a link and step.
    pub fn unpassed(&self, alarm: u32, link: u32, step: u32) -> Option<Lit>
        requires { alarm < length self.now.coded.log.alarms }
        ensures there { is_some result ≡ (nat_lt link (length (matching_events self.now.coded.net self.now.coded.log alarm)) && nat_lt step self.now.coded.grid.steps) }
        ensures says { IfSome result (IsUnpassed self.now.coded alarm link step) }
    {
        let alarm = &self.alarms[alarm as usize];
        if link as usize >= alarm.takes.len() || step >= self.grid.steps {
            return None;
        }
        Some(Lit::new(self.vars_of(alarm).passed(link, step), false))
    }

    // Whether the alarm is false.
    fn is_dropped(&self, alarm: &AlarmCode, assign: &Assignment) -> bool
        requires within { AreWithinLimit (variables_of self.now.coded.grid.steps alarm.now) }
        requires values { alarm.now.start + alarm_width (variables_of self.now.coded.grid.steps alarm.now) ≤ length assign.now }
        ensures { result ≡ (alarm.now.noted.doubtful && value_in assign.now (dropped_variable (variables_of self.now.coded.grid.steps alarm.now))) }
    {
        alarm.doubtful && assign.value(self.vars_of(alarm).dropped())
    }

    // Whether the alarm stands for the event in the step after `step` steps.
    fn is_matched(&self, alarm: &AlarmCode, assign: &Assignment, event: EventId, step: u32) -> bool
        requires step { step < self.now.coded.grid.steps }
        requires within { AreWithinLimit (variables_of self.now.coded.grid.steps alarm.now) }
        requires values { alarm.now.start + alarm_width (variables_of self.now.coded.grid.steps alarm.now) ≤ length assign.now }
        ensures { result ≡ is_matched self.now.coded.grid.steps alarm.now (value_in assign.now) event step }
    {
        match alarm.link_of(event) {
            Some(link) => assign.value(self.vars_of(alarm).matched(link, step)),
            None => false,
        }
    }

    // Where the variables of an alarm stand.
    fn vars_of(&self, alarm: &AlarmCode) -> AlarmVars
        requires { AreWithinLimit (variables_of self.now.coded.grid.steps alarm.now) }
        ensures { result ≡ variables_of self.now.coded.grid.steps alarm.now }
    {
        AlarmVars {
            start: alarm.start,
            links: alarm.takes.len() as u32,
            steps: self.grid.steps,
            doubtful: alarm.doubtful,
        }
    }

    // Says that the alarm is done within 0 steps, with those for more steps behind it.
    fn done(&self, alarm: u32) -> u32
        requires { alarm < length self.now.coded.log.alarms }
        ensures within { result + self.now.coded.grid.steps < self.now.coded.vars }
        ensures few { self.now.coded.vars ≤ VAR_LIMIT }
        ensures names { (t : ℕ) → t ≤ self.now.coded.grid.steps → meaning_of (log_meanings self.now.coded) (result + t) ≡ Some (done alarm t) }
    {
        self.vars_of(&self.alarms[alarm as usize]).done(0)
    }
}

// The least number of steps within which the alarm of these variables is done, or the number of all steps.
fn first_done(vars: AlarmVars, assign: &Assignment) -> u32
    requires within { AreWithinLimit vars }
    requires values { vars.start + alarm_width vars ≤ length assign.now }
    ensures within { result ≤ vars.steps }
    ensures least { (t : ℕ) → t < result → value_in assign.now (done_variable vars t) ≡ false }
    ensures is { result < vars.steps → value_in assign.now (done_variable vars result) ≡ true }
{
    for step in 0..vars.steps {
        if assign.value(vars.done(step)) {
            return step;
        }
    }
    vars.steps
}

// Adds an alarm in room that is there.
fn push_alarm(alarms: &mut Vec<AlarmCode>, alarm: AlarmCode)
    requires { vec_len alarms.old < vec_capacity alarms.old }
    ensures added { alarms.new.items ≡ alarms.old.items ++ alarm ∷ [] }
    ensures len { vec_len alarms.new ≡ vec_len alarms.old + 1 }
    ensures capacity { vec_capacity alarms.old ≤ vec_capacity alarms.new }
{
    alarms.push(alarm).unwrap();
}

// Adds a pair in room that is there.
fn push_pair(pairs: &mut Vec<(u32, u32)>, pair: (u32, u32))
    requires { vec_len pairs.old < vec_capacity pairs.old }
    ensures added { pairs.new.items ≡ pairs.old.items ++ pair ∷ [] }
    ensures len { vec_len pairs.new ≡ vec_len pairs.old + 1 }
    ensures capacity { vec_capacity pairs.old ≤ vec_capacity pairs.new }
{
    pairs.push(pair).unwrap();
}
