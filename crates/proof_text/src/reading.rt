// Reading the text of a proof.
ghost use Rattle.std.specs.Prelude.{◌≡◌, ◌<◌, ◌≤◌, ◌^◌, All, length, IfOk, IfErr, OnOk, Option, None};
ghost use Rattle.des_base.specs.CountedLines.{tokens_of};
ghost use Rattle.proof_text.specs.ProofNumbers.{NumbersAscend, HasNoZero};
ghost use Rattle.proof_text.specs.declared.fault.TextFault.{TextFault};
ghost use Rattle.proof_text.specs.TextFaults.{text_fault_or, IsTextDue};
ghost use Rattle.proof_text.specs.LratText.{lrat_line_code, lrat_line, proof_step_of, last_after, first_lrat_fault, proof_of};
ghost use Rattle.proof_text.specs.StepParts.{step_with};

use crate::fault::TextRefusal;
use crate::line_step::read_line;
use crate::lrat_line::{StepKind, StepParts};
use crate::proof::Proof;
use des_base::{Line, Lines, ListOf, Memory, VAR_LIMIT};
use proof_ledger::ProofStep;
use std::alloc::Global;

/// The proof that the text says, of a formula with `vars` variables and `clauses` clauses: each line is a step, `ID LITERALS 0 HINTS 0`
/// or `ID d IDS 0`.
///
/// Words stand between spaces and tabs. Blank lines and lines that begin with `c` are skipped. Literals are kept as written,
/// repeated ones too; variable 1 of the text is variable 0 of the formula. The number of an addition is greater than
/// `clauses` and than that of each earlier addition; that of a deletion says nothing.
pub fn read_lrat(alloc: Global, bytes: &[u8], vars: u32, clauses: u64) -> Result<Proof, TextRefusal>
    requires short { length bytes.now < 2 ^ 32 }
    requires few { vars ≤ VAR_LIMIT }
    ensures value { IfOk result (λ proof. proof ≡ proof_of bytes.now) }
    ensures well { OnOk result (first_lrat_fault vars clauses bytes.now ≡ None) }
    ensures ascend { IfOk result (λ proof. NumbersAscend clauses proof) }
    ensures above { IfOk result (λ proof. All HasNoZero proof) }
    ensures refused { IfErr result (IsTextDue (first_lrat_fault vars clauses bytes.now)) }
{
    let mut lines = Lines::new(bytes, b'c');
    let mut proof = Proof::new(alloc);
    let mut last = clauses;
    let mut parts = StepParts::new(alloc);
    while let Some(line) = lines.next_line() {
        let step = step_of_line(alloc, line, vars, last, &mut parts)?;
        last = last_after(&step, last);
        proof.push(step)?;
    }
    Ok(proof)
}

// The step of a line, or its fault. An addition's number has to be greater than `last`.
fn step_of_line(
    alloc: Global,
    line: Line<'_>,
    vars: u32,
    last: u64,
    parts: &mut StepParts,
) -> Result<ProofStep, TextRefusal>
    requires { vars ≤ VAR_LIMIT }
    ensures step { IfOk result (λ step. step ≡ proof_step_of line.entry.number (lrat_line (tokens_of line.entry.text.now))) }
    ensures well { OnOk result (lrat_line_code vars last (lrat_line (tokens_of line.entry.text.now)) ≡ None) }
    ensures refused { IfErr result (λ refusal. (later : Option TextFault) → IsTextDue (text_fault_or line.entry.number (lrat_line_code vars last (lrat_line (tokens_of line.entry.text.now))) later) refusal) }
{
    let kind = read_line(line, vars, last, parts)?;
    Ok(step_with(alloc, line.number, parts, kind)?)
}

// The step on a line that does this with a copy of the parts.
fn step_with(
    alloc: Global,
    line: u32,
    parts: &StepParts,
    kind: StepKind,
) -> Result<ProofStep, Memory>
    ensures { IfOk result (λ step. step ≡ step_with line parts.now.clause.items parts.now.ids.items kind) }
{
    let ids = ListOf::from_slice(alloc, parts.ids.as_slice())?;
    match kind {
        StepKind::Add { id } => Ok(ProofStep::Add {
            line,
            id,
            clause: ListOf::from_slice(alloc, parts.clause.as_slice())?,
            hints: ids,
        }),
        StepKind::Delete => Ok(ProofStep::Delete { ids }),
    }
}

// The number that the next addition has to exceed.
fn last_after(step: &ProofStep, last: u64) -> u64
    ensures { result ≡ last_after last step.now }
{
    match step {
        ProofStep::Add { id, .. } => *id,
        ProofStep::Delete { .. } => last,
    }
}
