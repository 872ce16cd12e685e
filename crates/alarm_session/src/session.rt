// A session: a log that grows, and questions about it, over one book.
ghost use Rattle.std.specs.Prelude.{◌≡◌, ◌≤◌, Some, [], false, length, true, IfOk, OnErr, OnOk};
ghost use Rattle.alarm_session.specs.Additions.{alarm_addition, pair_addition};
ghost use Rattle.alarm_session.specs.Refusals.{refusal_of_alarm, refusal_of_before, is_new_pair, large_refusal, log_with, numbers_of};
ghost use Rattle.alarm_session.specs.Rows.{IsLeftUndone, IsRowTold};
ghost use Rattle.alarm_session.specs.Session.{Becomes, BeginsAs, KeepsLog, IsSessionBook, IsToldBy, IsUnanswered, KeepsSetting};
ghost use Rattle.des_base.specs.declared.TheConstants.{MOST_STEPS};
ghost use Rattle.des_base.specs.Refusing.{SucceedsUnless};
ghost use Rattle.indep.specs.StoredTest.{IsTest};
ghost use Rattle.log_order.specs.Adding.{with_alarm};
ghost use Rattle.log_order.specs.Log.{no_log};
ghost use Rattle.replay.specs.QuestionSize.{question_size};
ghost use Rattle.sat_order.specs.Rank.{IsRanked};

use crate::adding::{put_alarm, put_before};
use crate::asking::{ask_kept, begin};
use crate::kept::{Kept, Setting};
use crate::refusal::SessionRefusal;
use crate::rows::{RowTold, carry_out_kept};
use crate::whole::is_session_book;
use des_base::{Memory, Name};
use des_net::Network;
use indep::Indep;
use least_faults::Found;
use log_csv::Row;
use log_order::{AlarmLog, Certainty};
use proof_ledger::Ledger;
use sat_order::Order;
use std::alloc::Global;
use std::marker::Model;

/// A log that grows, and questions about it, over one book that keeps what each question found.
///
/// Alarms and pairs are added one by one, and each question is about the log so far. Nothing starts over: the clauses of an
/// addition join those that are there, and a question goes on with what earlier ones learnt.
#[derive(Drop)]
pub struct Session<'a, R> {
    setting: Setting<'a>,
    kept: Kept<R>,
}

impl<'a, R> Model for Session<'a, R> {
    ghost use Rattle.alarm_session.specs.Session.{SessionState, IsKept, stage_of};

    ghost Value = { SessionState R };

    ghost view = { λ a. record { net = a.setting.net.now; steps = a.setting.steps; stage = stage_of a.kept; order = a.kept.parts.solver.order } };

    ghost invariant = { λ a. IsKept a.setting.net.now a.setting.steps a.kept };
}

impl<'a, R: Fn(u32) -> u64> Session<'a, R> {
    /// A session about runs within n steps, with an empty log, over an empty book. The order has no variables yet.
    ///
    /// It is refused as too large if the question of the empty log is. A refusal drops the book.
    pub fn new<T: Fn(u32, u32) -> bool>(
        alloc: Global,
        net: &'a Network,
        n: u32,
        test: &Indep<T>,
        rank: Order<R>,
        book: Ledger,
    ) -> Result<Session<'a, R>, SessionRefusal>
        requires right { IsTest T.pre T.post test.now.test test.now.net }
        requires net { test.now.net ≡ net.now }
        requires ranked { IsRanked R.pre R.post rank }
        requires no_variables { rank.waiting ≡ [] }
        requires steps { n ≤ MOST_STEPS }
        requires empty { book.entries ≡ [] }
        ensures refused { SucceedsUnless (large_refusal (question_size net.now no_log n)) SessionRefusal.Memory result }
        ensures begins { IfOk result (BeginsAs net.now n rank.rank) }
        ensures ranked { IfOk result (λ session. IsRanked R.pre R.post session.order) }
    {
        let setting = Setting {
            net,
            steps: n,
            alloc,
        };
        let kept = begin(setting, test, rank, book)?;
        Ok(Session { setting, kept })
    }

    /// Adds an alarm, and returns its number. A refusal leaves log, book and answers as they were.
    pub fn alarm(&mut self, id: Name, labels: &[Name]) -> Result<u32, SessionRefusal>
        requires ranked { IsRanked R.pre R.post self.old.order }
        ensures ranked { IsRanked R.pre R.post self.new.order }
        ensures kept { KeepsSetting self.old self.new }
        ensures refused { SucceedsUnless (refusal_of_alarm self.old.net self.old.steps self.old.stage.log id labels.now false) SessionRefusal.Memory result }
        ensures number { IfOk result (λ alarm. alarm ≡ length self.old.stage.log.alarms) }
        ensures added { OnOk result (Becomes self.old.net self.old.steps (with_alarm self.old.stage.log id labels.now false) (Some (alarm_addition labels.now false)) self.old.stage self.new.stage) }
        ensures same { OnErr result (self.new.stage ≡ self.old.stage) }
    {
        put_alarm(self.setting, id, labels, Certainty::Certain, &mut self.kept)
    }

    /// Adds an alarm that is perhaps false, and returns its number. A refusal leaves log, book and answers as they were.
    pub fn maybe(&mut self, id: Name, labels: &[Name]) -> Result<u32, SessionRefusal>
        requires ranked { IsRanked R.pre R.post self.old.order }
        ensures ranked { IsRanked R.pre R.post self.new.order }
        ensures kept { KeepsSetting self.old self.new }
        ensures refused { SucceedsUnless (refusal_of_alarm self.old.net self.old.steps self.old.stage.log id labels.now true) SessionRefusal.Memory result }
        ensures number { IfOk result (λ alarm. alarm ≡ length self.old.stage.log.alarms) }
        ensures added { OnOk result (Becomes self.old.net self.old.steps (with_alarm self.old.stage.log id labels.now true) (Some (alarm_addition labels.now true)) self.old.stage self.new.stage) }
        ensures same { OnErr result (self.new.stage ≡ self.old.stage) }
    {
        put_alarm(
            self.setting,
            id,
            labels,
            Certainty::Doubtful,
            &mut self.kept,
        )
    }

    /// Adds a pair of alarms, "the first before the second": true if it is new. A pair that is there already changes
    /// nothing. A refusal leaves log, book and answers as they were.
    pub fn before(&mut self, first: &Name, second: &Name) -> Result<bool, SessionRefusal>
        requires ranked { IsRanked R.pre R.post self.old.order }
        ensures ranked { IsRanked R.pre R.post self.new.order }
        ensures kept { KeepsSetting self.old self.new }
        ensures refused { SucceedsUnless (refusal_of_before self.old.net self.old.steps self.old.stage.log first.now second.now) SessionRefusal.Memory result }
        ensures new { IfOk result (λ new. new ≡ is_new_pair self.old.stage.log (numbers_of self.old.stage.log first.now second.now)) }
        ensures added { OnOk result (Becomes self.old.net self.old.steps (log_with self.old.stage.log (numbers_of self.old.stage.log first.now second.now)) (pair_addition self.old.stage.log (numbers_of self.old.stage.log first.now second.now)) self.old.stage self.new.stage) }
        ensures again { IfOk result (λ new. new ≡ false → self.new.stage ≡ self.old.stage) }
        ensures same { OnErr result (self.new.stage ≡ self.old.stage) }
    {
        put_before(self.setting, first, second, &mut self.kept)
    }

    /// The least number of faults that explains the log so far, by a search that may learn as many clauses as the budget says.
    ///
    /// If memory runs out, the log is as it was, and the session can go on. The book may have grown: by a mark 0 that opens the question, and
    /// no mark that closes it.
    pub fn ask(&mut self, budget: u64) -> Result<Found, Memory>
        requires ranked { IsRanked R.pre R.post self.old.order }
        ensures ranked { IsRanked R.pre R.post self.new.order }
        ensures kept { KeepsSetting self.old self.new }
        ensures goes_on { KeepsLog budget self.old.stage self.new.stage }
        ensures told { IfOk result (IsToldBy self.old.net self.old.steps budget self.old.stage self.new.stage) }
        ensures unanswered { OnErr result (IsUnanswered self.old.net self.old.steps budget self.old.stage self.new.stage) }
    {
        ask_kept(self.setting, &mut self.kept, budget)
    }

    /// Carries out a row of a script: adds what it says, or asks what explains the log so far.
    ///
    /// If memory runs out, the session can go on.
    pub fn carry_out(&mut self, row: &Row, budget: u64) -> Result<RowTold, Memory>
        requires ranked { IsRanked R.pre R.post self.old.order }
        ensures ranked { IsRanked R.pre R.post self.new.order }
        ensures kept { KeepsSetting self.old self.new }
        ensures told { IfOk result (IsRowTold self.old.net self.old.steps budget self.old.stage row.now self.new.stage) }
        ensures undone { OnErr result (IsLeftUndone self.old.net self.old.steps budget self.old.stage row.now self.new.stage) }
    {
        carry_out_kept(self.setting, row, &mut self.kept, budget)
    }

    /// The log so far.
    pub fn log(&self) -> &AlarmLog
        ensures { result.now ≡ self.now.stage.log }
    {
        &self.kept.log
    }

    /// A law: the book is that of the session, and asks about its log.
    pub fn is_sound(&self)
        ensures { IsSessionBook self.now.net self.now.steps self.now.stage }
    {
        is_session_book(self.setting, &self.kept);
    }

    /// The book so far. Its axioms are those of the question as it is built, in their order, and pose the question of the log. It
    /// is valid, and lean: the number of its axioms is bounded by the size of that question, however often it was asked.
    pub fn book(&self) -> &Ledger
        ensures book { result.now.entries ≡ self.now.stage.book }
        ensures told { IsSessionBook self.now.net self.now.steps self.now.stage }
    {
        is_session_book(self.setting, &self.kept);
        &self.kept.book
    }

    /// The book as it stands.
    pub fn into_book(self) -> Ledger
        ensures { result.entries ≡ self.entry.stage.book }
    {
        let Session { setting: _, kept } = self;
        let Kept {
            log,
            size: _,
            parts,
            book,
        } = kept;
        drop(log);
        drop(parts);
        book
    }
}
