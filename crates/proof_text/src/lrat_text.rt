// Checking the text of a proof.
ghost use Rattle.std.specs.Prelude.{◌≡◌, ◌<◌, ◌≤◌, ◌^◌, All, length, IfOk, IfErr, OnOk, Option, None};
ghost use Rattle.des_base.specs.CountedLines.{tokens_of};
ghost use Rattle.proof_ledger.specs.Checkers.{reached};
ghost use Rattle.proof_ledger.specs.Checking.{IsUnsatisfiable, after_next, check_proof};
ghost use Rattle.proof_text.specs.ProofNumbers.{NumbersAscend, HasNoZero};
ghost use Rattle.proof_text.specs.declared.fault.TextFault.{TextFault};
ghost use Rattle.proof_text.specs.TextFaults.{text_fault_or, IsTextDue};
ghost use Rattle.proof_text.specs.LratText.{lrat_line_code, lrat_line, proof_step_of, last_after, first_lrat_fault, proof_of};

use crate::cnf::Cnf;
use crate::fault::TextRefusal;
use crate::line_step::read_line;
use crate::lrat_line::{StepKind, StepParts};
use des_base::{Line, Lines, VAR_LIMIT};
use proof_ledger::{Checked, Checker};
use std::alloc::Global;

/// The outcome of the proof that the text says, over the formula: each line is a step, `ID LITERALS 0 HINTS 0` or `ID d IDS 0`.
///
/// Words stand between spaces and tabs. Blank lines and lines that begin with `c` are skipped. Literals are kept as written,
/// repeated ones too; variable 1 of the text is variable 0 of the formula. The number of an addition is greater than the count of the
/// formula's clauses and than that of each earlier addition; that of a deletion says nothing.
pub fn check_lrat(alloc: Global, bytes: &[u8], cnf: &Cnf) -> Result<Checked, TextRefusal>
    requires short { length bytes.now < 2 ^ 32 }
    requires few { cnf.now.vars ≤ VAR_LIMIT }
    ensures value { IfOk result (λ checked. checked ≡ check_proof cnf.now.clauses.clauses (proof_of bytes.now)) }
    ensures sound { IfOk result (λ checked. checked ≡ Checked.Verified → IsUnsatisfiable cnf.now.clauses.clauses) }
    ensures well { OnOk result (first_lrat_fault cnf.now.vars (length cnf.now.clauses.clauses) bytes.now ≡ None) }
    ensures ascend { OnOk result (NumbersAscend (length cnf.now.clauses.clauses) (proof_of bytes.now)) }
    ensures above { OnOk result (All HasNoZero (proof_of bytes.now)) }
    ensures refused { IfErr result (IsTextDue (first_lrat_fault cnf.now.vars (length cnf.now.clauses.clauses) bytes.now)) }
{
    let mut checker = Checker::new(alloc, &cnf.clauses)?;
    let mut lines = Lines::new(bytes, b'c');
    let mut last = cnf.clauses.len();
    let mut parts = StepParts::new(alloc);
    while let Some(line) = lines.next_line() {
        last = take_line(line, cnf.vars, last, &mut parts, &mut checker)?;
    }
    Ok(checker.outcome())
}

// Takes the step of a line, and answers the number that the next addition has to exceed. An addition's number has to be greater than `last`.
fn take_line(
    line: Line<'_>,
    vars: u32,
    last: u64,
    parts: &mut StepParts,
    checker: &mut Checker<'_>,
) -> Result<u64, TextRefusal>
    requires { vars ≤ VAR_LIMIT }
    ensures last { IfOk result (λ next. next ≡ last_after last (proof_step_of line.entry.number (lrat_line (tokens_of line.entry.text.now)))) }
    ensures taken { OnOk result (reached checker.new ≡ after_next (reached checker.old) (proof_step_of line.entry.number (lrat_line (tokens_of line.entry.text.now)))) }
    ensures well { OnOk result (lrat_line_code vars last (lrat_line (tokens_of line.entry.text.now)) ≡ None) }
    ensures refused { IfErr result (λ refusal. (later : Option TextFault) → IsTextDue (text_fault_or line.entry.number (lrat_line_code vars last (lrat_line (tokens_of line.entry.text.now))) later) refusal) }
{
    match read_line(line, vars, last, parts)? {
        StepKind::Add { id } => {
            checker.add(line.number, id, &parts.clause, &parts.ids)?;
            Ok(id)
        }
        StepKind::Delete => {
            checker.delete(&parts.ids);
            Ok(last)
        }
    }
}
