// `proof MODEL LOG N BUDGET`: the refutation that `diagnose` finds of one fault fewer, or of any number if nothing explains the log.
ghost use Rattle.std.specs.Prelude.{◌≡◌, ◌++◌, All, codes, IfOk, OnOk, refl};
ghost use Rattle.diagnose_cli.specs.ProofText.{proof_head};
ghost use Rattle.diagnose_cli.specs.Questions.{proof_question};
ghost use Rattle.diagnose_cli.specs.Replies.{reply_of_proof};
ghost use Rattle.proof_text.specs.PrintedText.{ReadsBackAsProof, steps_text};
ghost use Rattle.proof_text.specs.ProofNumbers.{NumbersAscend, HasNoZero};

use crate::asking::Replying;
use crate::command::number_of;
use crate::diagnose_command::reply_of_found;
use des_base::{Memory, push_decimal};
use endings::{Kind, Reply};
use inquiries::{Case, Refutation, Refuted};
use proof_text::{Proof, print_lrat};
use std::alloc::Global;

impl Replying for Refutation {
    ghost question = { proof_question };

    ghost listed = { λ words. refl };

    ghost word = { λ s. s.budget };

    fn read(last: &str) -> Option<Refutation> {
        let budget = number_of(last)?;
        Some(Refutation { budget })
    }

    fn reply(
        &self,
        alloc: Global,
        case: &Case,
        steps: u32,
        answer: Refuted,
    ) -> Result<Reply, Memory> {
        case.net.is_built();
        case.log.is_whole();
        match answer {
            Refuted::Within { bound, proof } => reply_of_proof(alloc, bound, &proof),
            Refuted::Nothing => nothing(alloc),
            Refuted::Undecided(found) => reply_of_found(alloc, &case.net, steps, &found),
        }
    }

    ghost may_always = { λ s net log n within. within };

    ghost leaves_question = { λ s net log n book left. left };
}

// The reply if there is nothing to refute.
fn nothing(alloc: Global) -> Result<Reply, Memory>
    ensures { IfOk result (λ reply. reply ≡ (Kind.Nothing, codes "NOTHING\n")) }
{
    let mut text = Vec::new(alloc);
    text.extend_from_slice(b"NOTHING\n")?;
    Ok(Reply::new(Kind::Nothing, text))
}

// The reply that has the text of the proof.
fn reply_of_proof(alloc: Global, bound: Option<u8>, proof: &Proof) -> Result<Reply, Memory>
    requires ascend { NumbersAscend 0 proof.now }
    requires above { All HasNoZero proof.now }
    ensures reply { IfOk result (λ reply. reply ≡ reply_of_proof bound proof.now) }
    ensures reads_back { IfOk result (λ reply. ReadsBackAsProof proof.now (steps_text proof.now)) }
{
    let mut text = Vec::new(alloc);
    push_head(bound, &mut text)?;
    print_lrat(proof, &mut text)?;
    Ok(Reply::new(Kind::Done, text))
}

// Appends the comment that names the formula.
fn push_head(bound: Option<u8>, out: &mut Vec<u8>) -> Result<(), Memory>
    ensures { OnOk result (out.new.items ≡ out.old.items ++ proof_head bound) }
{
    out.extend_from_slice(b"c cnf ")?;
    match bound {
        Some(k) => push_decimal(out, u64::from(k))?,
        None => out.extend_from_slice(b"any")?,
    }
    out.push(b'\n')?;
    Ok(())
}
