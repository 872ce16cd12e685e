// The command `session`: the rows of a script, additions to a log and questions about it, over one book.
ghost use Rattle.std.specs.Prelude.{◌≡◌, ◌≤◌, [], ◌∷◌, codes, IsErrOf, refl};
ghost use Rattle.alarm_session.specs.Session.{BeginsAs};
ghost use Rattle.des_base.specs.Outside.{Rose};
ghost use Rattle.des_base.specs.declared.TheConstants.{MOST_STEPS};
ghost use Rattle.diagnose_cli.specs.Commands.{session_speech};
ghost use Rattle.diagnose_cli.specs.Sessions.{MaySay, status_of_session};
ghost use Rattle.endings.specs.Puts.{Speaks};
ghost use Rattle.endings.specs.Texts.{model, script};
ghost use Rattle.endings.specs.declared.ending.Kind.TheVariants.{Done};
ghost use Rattle.indep.specs.StoredTest.{IsTest};
ghost use Rattle.log_order.specs.Log.{no_log};
ghost use Rattle.replay.specs.QuestionSize.{question_size};
ghost use Rattle.sat_order.specs.Rank.{IsRanked};
ghost use Rattle.telling.specs.Telling.{RisesExactlyIf};
ghost use Rattle.telling.specs.declared.each.Broken.TheVariants.{Put};

use crate::command::Limits;
use crate::reading::ScriptOver;
use crate::session_rows::{Plan, RowTeller};
use crate::speaking::Speaking;
use alarm_session::Session;
use des_base::{Memory, Sink};
use endings::Kind;
use indep::Indep;
use inquiries::{NetworkSearch, set_up};
use log_order::AlarmLog;
use proof_ledger::Ledger;
use sat_order::Order;
use sizing::question_size;
use std::alloc::Global;
use std::mem;
use telling::{Broken, put_each};

/// Carries out the rows of a script, and puts the reply to each before the next one is taken.
pub struct SessionCommand;

impl Speaking for SessionCommand {
    type Files = ScriptOver;

    type Told = ();

    ghost name = { codes "session" };

    ghost kinds = { model ∷ script ∷ [] };

    ghost speech = { session_speech };

    ghost listed = { λ words. refl };

    ghost sized = { λ files limits. question_size files.net no_log limits.steps };

    ghost kind = { λ told. Done };

    fn size(alloc: Global, files: &ScriptOver, limits: Limits) -> u64 {
        let empty = AlarmLog::new(alloc);
        let size = question_size(&files.net, &empty, limits.steps);
        drop(empty);
        size
    }

    fn kind_of(_told: ()) -> Kind {
        Kind::Done
    }

    fn tell<S: Sink>(
        alloc: Global,
        files: ScriptOver,
        limits: Limits,
        out: &mut S,
        book: &mut Ledger,
    ) -> Result<(), Broken> {
        let ScriptOver { net, script } = files;
        let plan = Plan {
            net,
            script,
            limits,
        };
        let told = carry_out_rows(alloc, &plan, out, book);
        drop(plan);
        told
    }

    ghost has_files = { refl };

    ghost has_words = { refl };

    ghost begun = { λ limits. refl };
}

// Carries out the rows.
fn carry_out_rows<S: Sink>(
    alloc: Global,
    plan: &Plan,
    out: &mut S,
    book: &mut Ledger,
) -> Result<(), Broken>
    requires steps { plan.now.limits.steps ≤ MOST_STEPS }
    requires empty { book.old.entries ≡ [] }
    ensures speaks { Speaks (MaySay plan.now.net plan.now.limits.steps plan.now.limits.budget plan.now.script book.new.entries) (book.new.entries ≡ []) (S.taken out.old) (S.taken out.new) (Rose (S.faults out.old) (S.faults out.new)) (status_of_session result) }
    ensures failures { RisesExactlyIf (IsErrOf result Broken.Put) (S.failures out.old) (S.failures out.new) }
{
    match set_up(alloc, &plan.net, plan.limits.steps, plan, book, out) {
        Ok(said) => said,
        Err(Memory) => Err(Broken::Memory),
    }
}

impl<S: Sink> NetworkSearch<S> for Plan {
    type Answer = Result<(), Broken>;

    ghost about = { λ s. s.net };

    ghost may = { λ s. s.limits.steps ≤ MOST_STEPS };

    ghost says = { λ s before now book said. Speaks (MaySay s.net s.limits.steps s.limits.budget s.script book) (book ≡ []) (S.taken before) (S.taken now) (Rose (S.faults before) (S.faults now)) (status_of_session said) × RisesExactlyIf (IsErrOf said Put) (S.failures before) (S.failures now) };

    fn begin<T: Fn(u32, u32) -> bool, R: Fn(u32) -> u64>(
        &self,
        alloc: Global,
        test: &Indep<T>,
        order: Order<R>,
        book: &mut Ledger,
        out: &mut S,
    ) -> Result<(), Broken> {
        carry_out_by_order(alloc, self, test, order, out, book)
    }
}

// Carries them out with a test and an order that are given. The book is the session's.
fn carry_out_by_order<T: Fn(u32, u32) -> bool, R: Fn(u32) -> u64, S: Sink>(
    alloc: Global,
    plan: &Plan,
    test: &Indep<T>,
    order: Order<R>,
    out: &mut S,
    book: &mut Ledger,
) -> Result<(), Broken>
    requires right { IsTest T.pre T.post test.now.test test.now.net }
    requires net { test.now.net ≡ plan.now.net }
    requires ranked { IsRanked R.pre R.post order }
    requires no_variables { order.waiting ≡ [] }
    requires steps { plan.now.limits.steps ≤ MOST_STEPS }
    requires empty { book.old.entries ≡ [] }
    ensures speaks { Speaks (MaySay plan.now.net plan.now.limits.steps plan.now.limits.budget plan.now.script book.new.entries) (book.new.entries ≡ []) (S.taken out.old) (S.taken out.new) (Rose (S.faults out.old) (S.faults out.new)) (status_of_session result) }
    ensures failures { RisesExactlyIf (IsErrOf result Broken.Put) (S.failures out.old) (S.failures out.new) }
{
    let own = mem::replace(book, Ledger::new(alloc));
    match Session::new(alloc, &plan.net, plan.limits.steps, test, order, own) {
        Ok(session) => tell_rows(alloc, plan, session, out, book),
        Err(_) => Err(Broken::Memory),
    }
}

// Carries out all rows, and puts the reply to each before the next one is taken. The book is put back.
fn tell_rows<'a, R: Fn(u32) -> u64, S: Sink>(
    alloc: Global,
    plan: &'a Plan,
    session: Session<'a, R>,
    out: &mut S,
    book: &mut Ledger,
) -> Result<(), Broken>
    requires begins { BeginsAs plan.now.net plan.now.limits.steps session.order.rank session }
    requires ranked { IsRanked R.pre R.post session.order }
    requires steps { plan.now.limits.steps ≤ MOST_STEPS }
    ensures speaks { Speaks (MaySay plan.now.net plan.now.limits.steps plan.now.limits.budget plan.now.script book.new.entries) (book.new.entries ≡ []) (S.taken out.old) (S.taken out.new) (Rose (S.faults out.old) (S.faults out.new)) (status_of_session result) }
    ensures failures { RisesExactlyIf (IsErrOf result Broken.Put) (S.failures out.old) (S.failures out.new) }
{
    session.is_sound();
    let mut teller = RowTeller { plan, session };
    let said = put_each(alloc, &mut teller, plan.script.rows(), out);
    let RowTeller { plan: _, session } = teller;
    *book = session.into_book();
    said
}
