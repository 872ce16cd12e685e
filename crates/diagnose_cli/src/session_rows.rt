// The rows of a script, each of which a session carries out and tells of.
ghost use Rattle.std.specs.Prelude.{◌≡◌, ◌≢◌, IfOk, OnErr, option_map};
ghost use Rattle.std.specs.Option.{option_to_list};
ghost use Rattle.alarm_session.specs.declared.rows.RowTold.TheVariants.{Made as NothingTold};
ghost use Rattle.diagnose_cli.specs.SessionReplies.{replies_to};
ghost use Rattle.diagnose_cli.specs.Sessions.{IsOfPlan, RowIsUntold, RowTells, TellsKnown};
ghost use Rattle.report.specs.Replies.{text_of_refused};

use crate::command::Limits;
use alarm_session::{RowTold, Session};
use des_base::Memory;
use des_net::Network;
use log_csv::{Row, Script};
use report::{found_text, print_refused};
use std::alloc::Global;
use telling::Teller;

/// A network, the script that is carried out over it, and what is asked of its questions.
#[derive(Drop)]
pub struct Plan {
    pub net: Network,
    pub script: Script,
    pub limits: Limits,
}

/// A session that tells of the rows of a plan.
pub struct RowTeller<'a, R> {
    pub plan: &'a Plan,
    pub session: Session<'a, R>,
}

impl<'a, R: Fn(u32) -> u64> Teller for RowTeller<'a, R> {
    type Item = Row;

    ghost goes = { RowTells (λ s. s.plan.now) (λ s. s.session.stage) };

    ghost undone = { RowIsUntold (λ s. s.plan.now) (λ s. s.session.stage) };

    ghost ready = { λ s. IsOfPlan R.pre R.post s.plan.now s.session };

    fn tell(&mut self, alloc: Global, row: &Row) -> Result<Option<Vec<u8>>, Memory> {
        let told = self.session.carry_out(row, self.plan.limits.budget)?;
        self.session.log().is_whole();
        self.plan.net.is_built();
        reply_to(alloc, &self.plan.net, self.plan.limits.steps, &told)
    }
}

// The reply to a row with this outcome: none if an addition was made.
fn reply_to(
    alloc: Global,
    net: &Network,
    steps: u32,
    told: &RowTold,
) -> Result<Option<Vec<u8>>, Memory>
    requires { TellsKnown net.now told.now }
    ensures reply { IfOk result (λ reply. replies_to net.now steps told.now ≡ option_to_list (option_map (λ text. text.items) reply)) }
    ensures has_one { OnErr result (told.now ≢ NothingTold) }
{
    match told {
        RowTold::Made => Ok(None),
        RowTold::Refused(refusal) => Ok(Some(refusal_text(alloc, refusal.number())?)),
        RowTold::Answered(found) => Ok(Some(found_text(alloc, net, steps, found)?)),
    }
}

fn refusal_text(alloc: Global, number: u32) -> Result<Vec<u8>, Memory>
    ensures { IfOk result (λ text. text.items ≡ text_of_refused number) }
{
    let mut text = Vec::new(alloc);
    print_refused(number, &mut text)?;
    Ok(text)
}
