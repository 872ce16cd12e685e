// `cnf MODEL LOG N K`: what explains the log within N parallel steps as a formula, with at most K faults, or with any number where K
// is `any`.
ghost use Rattle.std.specs.Prelude.{◌≡◌, All, IfOk, refl};
ghost use Rattle.diagnose_cli.specs.Questions.{cnf_question};
ghost use Rattle.diagnose_cli.specs.Replies.{reply_of_formula};
ghost use Rattle.diagnose_cli.specs.Words.{bound_of};
ghost use Rattle.proof_text.specs.CnfText.{formula};
ghost use Rattle.prop_core.specs.Clauses.{HasValues};

use crate::asking::Replying;
use des_base::{Memory, read_number};
use endings::{Kind, Reply};
use inquiries::{Case, FormulaWithin};
use proof_text::{Cnf, print_cnf};
use replay::MOST_FAULTS;
use std::alloc::Global;

impl Replying for FormulaWithin {
    ghost question = { cnf_question };

    ghost listed = { λ words. refl };

    ghost word = { λ s. s.bound };

    fn read(last: &str) -> Option<FormulaWithin> {
        let bound = bound_of(last)?;
        Some(FormulaWithin { bound })
    }

    fn reply(
        &self,
        alloc: Global,
        _case: &Case,
        _steps: u32,
        answer: Cnf,
    ) -> Result<Reply, Memory> {
        reply_of_formula(alloc, &answer)
    }

    ghost may_always = { λ s net log n within. within };

    ghost leaves_question = { λ s net log n book left. left };
}

// The bound on the faults that is asked for: `any` sets none.
fn bound_of(text: &str) -> Option<Option<u8>>
    ensures { result ≡ bound_of text.now }
{
    if text == "any" {
        return Some(None);
    }
    let bound = read_number(text.as_bytes(), u64::from(MOST_FAULTS))?;
    Some(Some(bound as u8))
}

// The reply that has the text of the formula.
fn reply_of_formula(alloc: Global, cnf: &Cnf) -> Result<Reply, Memory>
    requires { All (HasValues cnf.now.vars) cnf.now.clauses.clauses }
    ensures { IfOk result (λ reply. reply ≡ reply_of_formula (formula cnf.now.vars cnf.now.clauses.clauses)) }
{
    let mut text = Vec::new(alloc);
    print_cnf(cnf, &mut text)?;
    Ok(Reply::new(Kind::Done, text))
}
