// The step of a line of a proof, or the fault of the line.
ghost use Rattle.std.specs.Prelude.{◌≡◌, ◌≤◌, IfOk, IfErr, OnOk, Option, None};
ghost use Rattle.des_base.specs.CountedLines.{tokens_of};
ghost use Rattle.proof_text.specs.declared.fault.TextFault.{TextFault};
ghost use Rattle.proof_text.specs.TextFaults.{text_fault_or, IsTextDue};
ghost use Rattle.proof_text.specs.LratText.{lrat_line_code, lrat_line, proof_step_of};
ghost use Rattle.proof_text.specs.StepParts.{step_with};

use crate::fault::{TextRefusal, fault_at};
use crate::line_faults::lrat_line_code;
use crate::lrat_line::{StepKind, StepParts, read_step};
use des_base::{Line, VAR_LIMIT};

// Reads the parts of the step of a line, and says what it does with them, or gives the line's fault. An addition's number has to be greater than `last`.
pub(crate) fn read_line(
    line: Line<'_>,
    vars: u32,
    last: u64,
    parts: &mut StepParts,
) -> Result<StepKind, TextRefusal>
    requires { vars ≤ VAR_LIMIT }
    ensures kind { IfOk result (λ kind. step_with line.entry.number parts.new.clause.items parts.new.ids.items kind ≡ proof_step_of line.entry.number (lrat_line (tokens_of line.entry.text.now))) }
    ensures well { OnOk result (lrat_line_code vars last (lrat_line (tokens_of line.entry.text.now)) ≡ None) }
    ensures refused { IfErr result (λ refusal. (later : Option TextFault) → IsTextDue (text_fault_or line.entry.number (lrat_line_code vars last (lrat_line (tokens_of line.entry.text.now))) later) refusal) }
{
    match read_step(line, vars, last, parts)? {
        Some(kind) => Ok(kind),
        None => Err(fault_at(line.number, lrat_line_code(line, vars, last).unwrap())),
    }
}
