// Reading the text of a formula.
ghost use Rattle.std.specs.Prelude.{◌≡◌, ◌<◌, ◌≤◌, ◌^◌, length, All, IfOk, IfErr, OnOk, None};
ghost use Rattle.prop_core.specs.Clauses.{HasValues};
ghost use Rattle.proof_text.specs.TextFaults.{IsTextDue};
ghost use Rattle.proof_text.specs.CnfText.{formula, formula_of, first_cnf_fault};

use crate::body::BodyTokens;
use crate::clause_reader::{ClauseReader, read_clauses};
use crate::cnf::Cnf;
use crate::fault::{NO_HEADER, TextRefusal, fault_at};
use crate::header::read_header;
use des_base::{Lines, last_line};
use prop_core::Clauses;
use std::alloc::Global;

/// The formula that the text says: a line `p cnf V C`, and then C clauses of non-zero numbers, each ended by `0`.
///
/// Words stand between spaces and tabs. Blank lines and lines that begin with `c` are skipped. A clause may go over lines,
/// and a line may have several. There are at most 100,000,000 variables and as many clauses. Literals are kept as written,
/// repeated ones too; variable 1 of the text is variable 0 of the formula.
pub fn read_cnf(alloc: Global, bytes: &[u8]) -> Result<Cnf, TextRefusal>
    requires { length bytes.now < 2 ^ 32 }
    ensures value { IfOk result (λ cnf. formula cnf.vars cnf.clauses.clauses ≡ formula_of bytes.now) }
    ensures well { OnOk result (first_cnf_fault bytes.now ≡ None) }
    ensures few { IfOk result (λ cnf. cnf.vars ≤ 100000000) }
    ensures known { IfOk result (λ cnf. All (HasValues cnf.vars) cnf.clauses.clauses) }
    ensures refused { IfErr result (IsTextDue (first_cnf_fault bytes.now)) }
{
    let mut lines = Lines::new(bytes, b'c');
    let Some(line) = lines.next_line() else {
        return Err(fault_at(last_line(bytes), NO_HEADER));
    };
    let header = match read_header(line) {
        Ok(header) => header,
        Err(code) => return Err(fault_at(line.number, code)),
    };
    let reader = read_clauses(alloc, header, BodyTokens::new(lines))?;
    if let Some(code) = reader.end_code() {
        return Err(fault_at(last_line(bytes), code));
    }
    Ok(Cnf {
        vars: header.vars,
        clauses: into_clauses(reader),
    })
}

fn into_clauses(reader: ClauseReader) -> Clauses
    ensures { result ≡ reader.clauses }
{
    let ClauseReader { clauses, .. } = reader;
    clauses
}
