// Additions to the log of a session: what can be refused first, and then all of it.
ghost use Rattle.std.specs.Prelude.{◌≡◌, [], false, length, IfOk, OnOk, OnErr, None, Some, true};
ghost use Rattle.des_base.specs.Refusing.{SucceedsUnless};
ghost use Rattle.alarm_session.specs.Additions.{alarm_addition, pair_addition};
ghost use Rattle.alarm_session.specs.Refusals.{refusal_of_alarm, refusal_of_before, is_new_pair, log_with, numbers_of, refusal_of_pair, refusal_with};
ghost use Rattle.alarm_session.specs.Session.{Becomes, IsDraftedFor, IsFor, IsRankedKept, stage_of};
ghost use Rattle.least_faults.specs.Parts.{AreParts};
ghost use Rattle.least_faults.specs.declared.TheConstants.{MOST_SIZE};
ghost use Rattle.question_clauses.specs.Additions.{alarm_added, pair_added};
ghost use Rattle.log_order.specs.Adding.{with_alarm, with_texts};
ghost use Rattle.log_order.specs.Certainty.{leaves_doubt};
ghost use Rattle.log_order.specs.Log.{an_alarm, has_pair};
ghost use Rattle.proof_ledger.specs.Book.{axioms_of};
ghost use Rattle.replay.specs.QuestionSize.{question_size};

use crate::kept::{Drafted, Kept, Setting};
use crate::refusal::{SessionRefusal, refusal_of};
use crate::size::{size_with_alarm, size_with_pair};
use des_base::Name;
use least_faults::{MOST_SIZE, add_draft, reserve_draft};
use log_order::{AlarmLog, Certainty, each_once};

// Adds an alarm, certain or doubtful, to the log and to the parts and the book of its question: to all or to none.
pub fn put_alarm<R: Fn(u32) -> u64>(
    setting: Setting<'_>,
    id: Name,
    labels: &[Name],
    certainty: Certainty,
    kept: &mut Kept<R>,
) -> Result<u32, SessionRefusal>
    requires kept { IsRankedKept R.pre R.post setting.net.now setting.steps kept.old }
    ensures kept { IsRankedKept R.pre R.post setting.entry.net.now setting.entry.steps kept.new }
    ensures rank { kept.new.parts.solver.order.rank ≡ kept.old.parts.solver.order.rank }
    ensures refused { SucceedsUnless (refusal_of_alarm setting.entry.net.now setting.entry.steps kept.old.log id labels.now (leaves_doubt certainty)) SessionRefusal.Memory result }
    ensures number { IfOk result (λ alarm. alarm ≡ length kept.old.log.alarms) }
    ensures added { OnOk result (Becomes setting.entry.net.now setting.entry.steps (with_alarm kept.old.log id labels.now (leaves_doubt certainty)) (Some (alarm_addition labels.now (leaves_doubt certainty))) (stage_of kept.old) (stage_of kept.new)) }
    ensures same { OnErr result (stage_of kept.new ≡ stage_of kept.old) }
{
    let doubtful = certainty.is_doubtful();
    let drafted = draft_alarm(setting, &id, labels, doubtful, kept)?;
    let reserved = reserve_draft(
        setting.alloc,
        drafted.draft,
        doubtful,
        &mut kept.parts,
        &mut kept.book,
    )?;
    match kept.log.add(id, labels, certainty) {
        Ok(alarm) => {
            kept.size = drafted.size;
            add_draft(reserved, &mut kept.parts, &mut kept.book);
            Ok(alarm)
        }
        Err(refusal) => Err(refusal_of(refusal)),
    }
}

// Drafts an alarm, unless the log or the size refuses it.
fn draft_alarm<R: Fn(u32) -> u64>(
    setting: Setting<'_>,
    id: &Name,
    labels: &[Name],
    doubtful: bool,
    kept: &Kept<R>,
) -> Result<Drafted, SessionRefusal>
    requires of_log { IsFor setting.net.now setting.steps kept.now }
    requires coded { AreParts kept.now.parts.step kept.now.parts.code.coded kept.now.parts.counter kept.now.parts.vars (axioms_of kept.now.book.entries) }
    ensures refused { SucceedsUnless (refusal_of_alarm setting.entry.net.now setting.entry.steps kept.now.log id.now labels.now doubtful) SessionRefusal.Memory result }
    ensures drafted { IfOk result (IsDraftedFor setting.entry.net.now setting.entry.steps kept.now (alarm_added (an_alarm id.now (with_texts [] labels.now) doubtful)) (with_alarm kept.now.log id.now labels.now doubtful)) }
{
    setting.net.is_built();
    kept.log.is_whole();
    if let Some(refusal) = kept.log.test_alarm(id, labels) {
        return Err(refusal_of(refusal));
    }
    let once = each_once(setting.alloc, labels)?;
    let labels = once.as_slice();
    let size = size_with_alarm(kept.size, setting.net, labels, doubtful, setting.steps);
    if size > MOST_SIZE {
        return Err(SessionRefusal::TooLarge { size });
    }
    let draft = kept
        .parts
        .code
        .draft_named_alarm(setting.net, id, labels, doubtful, kept.parts.vars.count())?;
    Ok(Drafted { draft, size })
}

// Adds a pair of alarms by their ids.
pub fn put_before<R: Fn(u32) -> u64>(
    setting: Setting<'_>,
    first: &Name,
    second: &Name,
    kept: &mut Kept<R>,
) -> Result<bool, SessionRefusal>
    requires kept { IsRankedKept R.pre R.post setting.net.now setting.steps kept.old }
    ensures kept { IsRankedKept R.pre R.post setting.entry.net.now setting.entry.steps kept.new }
    ensures rank { kept.new.parts.solver.order.rank ≡ kept.old.parts.solver.order.rank }
    ensures refused { SucceedsUnless (refusal_of_before setting.entry.net.now setting.entry.steps kept.old.log first.now second.now) SessionRefusal.Memory result }
    ensures new { IfOk result (λ new. new ≡ is_new_pair kept.old.log (numbers_of kept.old.log first.now second.now)) }
    ensures added { OnOk result (Becomes setting.entry.net.now setting.entry.steps (log_with kept.old.log (numbers_of kept.old.log first.now second.now)) (pair_addition kept.old.log (numbers_of kept.old.log first.now second.now)) (stage_of kept.old) (stage_of kept.new)) }
    ensures again { IfOk result (λ new. new ≡ false → stage_of kept.new ≡ stage_of kept.old) }
    ensures same { OnErr result (stage_of kept.new ≡ stage_of kept.old) }
{
    match numbers_of(&kept.log, first, second) {
        Some((first, second)) => put_pair(setting, first, second, kept),
        None => Err(SessionRefusal::Unknown),
    }
}

// The numbers of two alarms.
fn numbers_of(log: &AlarmLog, first: &Name, second: &Name) -> Option<(u32, u32)>
    ensures { result ≡ numbers_of log.now first.now second.now }
{
    let first = log.find(first.as_str().as_bytes())?;
    let second = log.find(second.as_str().as_bytes())?;
    Some((first, second))
}

// Adds a pair of alarms to the log and to the parts and the book of its question: to all or to none. If it is there
// already, nothing changes.
fn put_pair<R: Fn(u32) -> u64>(
    setting: Setting<'_>,
    first: u32,
    second: u32,
    kept: &mut Kept<R>,
) -> Result<bool, SessionRefusal>
    requires kept { IsRankedKept R.pre R.post setting.net.now setting.steps kept.old }
    ensures kept { IsRankedKept R.pre R.post setting.entry.net.now setting.entry.steps kept.new }
    ensures rank { kept.new.parts.solver.order.rank ≡ kept.old.parts.solver.order.rank }
    ensures refused { SucceedsUnless (refusal_with (refusal_of_pair kept.old.log (Some (first, second))) (question_size setting.entry.net.now (log_with kept.old.log (Some (first, second))) setting.entry.steps)) SessionRefusal.Memory result }
    ensures new { IfOk result (λ new. new ≡ is_new_pair kept.old.log (Some (first, second))) }
    ensures added { OnOk result (Becomes setting.entry.net.now setting.entry.steps (log_with kept.old.log (Some (first, second))) (pair_addition kept.old.log (Some (first, second))) (stage_of kept.old) (stage_of kept.new)) }
    ensures same { OnErr result (stage_of kept.new ≡ stage_of kept.old) }
    ensures again { IfOk result (λ new. new ≡ false → stage_of kept.new ≡ stage_of kept.old) }
{
    if let Err(refusal) = kept.log.test_before(first, second) {
        return Err(refusal_of(refusal));
    }
    if kept.log.has_pair(first, second) {
        return Ok(false);
    }
    put_new_pair(setting, first, second, kept)
}

// The same for a new pair that the log accepts.
fn put_new_pair<R: Fn(u32) -> u64>(
    setting: Setting<'_>,
    first: u32,
    second: u32,
    kept: &mut Kept<R>,
) -> Result<bool, SessionRefusal>
    requires kept { IsRankedKept R.pre R.post setting.net.now setting.steps kept.old }
    requires accepted { refusal_of_pair kept.old.log (Some (first, second)) ≡ None }
    requires new { has_pair kept.old.log.pairs first second ≡ false }
    ensures kept { IsRankedKept R.pre R.post setting.entry.net.now setting.entry.steps kept.new }
    ensures rank { kept.new.parts.solver.order.rank ≡ kept.old.parts.solver.order.rank }
    ensures refused { SucceedsUnless (refusal_with (refusal_of_pair kept.old.log (Some (first, second))) (question_size setting.entry.net.now (log_with kept.old.log (Some (first, second))) setting.entry.steps)) SessionRefusal.Memory result }
    ensures new { IfOk result (λ new. new ≡ true) }
    ensures added { OnOk result (Becomes setting.entry.net.now setting.entry.steps (log_with kept.old.log (Some (first, second))) (pair_addition kept.old.log (Some (first, second))) (stage_of kept.old) (stage_of kept.new)) }
    ensures same { OnErr result (stage_of kept.new ≡ stage_of kept.old) }
{
    let drafted = draft_pair(setting, first, second, kept)?;
    let reserved = reserve_draft(
        setting.alloc,
        drafted.draft,
        false,
        &mut kept.parts,
        &mut kept.book,
    )?;
    match kept.log.add_before(first, second) {
        Ok(fresh) => {
            kept.size = drafted.size;
            add_draft(reserved, &mut kept.parts, &mut kept.book);
            Ok(fresh)
        }
        Err(refusal) => Err(refusal_of(refusal)),
    }
}

// Drafts it, unless the size refuses it.
fn draft_pair<R: Fn(u32) -> u64>(
    setting: Setting<'_>,
    first: u32,
    second: u32,
    kept: &Kept<R>,
) -> Result<Drafted, SessionRefusal>
    requires of_log { IsFor setting.net.now setting.steps kept.now }
    requires coded { AreParts kept.now.parts.step kept.now.parts.code.coded kept.now.parts.counter kept.now.parts.vars (axioms_of kept.now.book.entries) }
    requires accepted { refusal_of_pair kept.now.log (Some (first, second)) ≡ None }
    requires new { has_pair kept.now.log.pairs first second ≡ false }
    ensures refused { SucceedsUnless (refusal_with (refusal_of_pair kept.now.log (Some (first, second))) (question_size setting.entry.net.now (log_with kept.now.log (Some (first, second))) setting.entry.steps)) SessionRefusal.Memory result }
    ensures drafted { IfOk result (IsDraftedFor setting.entry.net.now setting.entry.steps kept.now (pair_added first second) (log_with kept.now.log (Some (first, second)))) }
{
    setting.net.is_built();
    kept.log.is_whole();
    let size = size_with_pair(kept.size, setting.steps);
    if size > MOST_SIZE {
        return Err(SessionRefusal::TooLarge { size });
    }
    let draft = kept
        .parts
        .code
        .draft_before(first, second, kept.parts.vars.count())?;
    Ok(Drafted { draft, size })
}
