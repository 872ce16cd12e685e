// Printing formulas and proofs.
ghost use Rattle.std.specs.Prelude.{◌≡◌, ◌+◌, ◌<◌, ◌^◌, ◌++◌, ◌∷◌, [], All, drop, length, decimal, OnOk, OnErr};
ghost use Rattle.des_base.specs.Lists.{Extends};
ghost use Rattle.prop_core.specs.Clauses.{HasValues};
ghost use Rattle.proof_text.specs.ProofNumbers.{NumbersAscend, HasNoZero};
ghost use Rattle.proof_text.specs.CnfText.{formula};
ghost use Rattle.proof_text.specs.PrintedText.{KeepsLimits, IsFormulaText, ReadsBackAsProof, NumbersFit, literal_word, literals_text, numbers_text, header_text, clause_text, formula_text, step_words_text, step_text, steps_text};

use crate::cnf::Cnf;
use crate::proof::Proof;
use des_base::{Memory, push_decimal};
use proof_ledger::ProofStep;
use prop_core::{ClauseId, Lit};

// Appends the bytes.
fn push_bytes(out: &mut Vec<u8>, bytes: &[u8]) -> Result<(), Memory>
    ensures ok { OnOk result (out.new.items ≡ out.old.items ++ bytes.now) }
    ensures kept { Extends out.old.items out.new.items }
{
    out.extend_from_slice(bytes)?;
    Ok(())
}

// Appends the number and a space.
fn push_number(out: &mut Vec<u8>, n: u64) -> Result<(), Memory>
    ensures ok { OnOk result (out.new.items ≡ out.old.items ++ (decimal n ++ 32 ∷ [])) }
    ensures kept { Extends out.old.items out.new.items }
{
    push_decimal(out, n)?;
    push_bytes(out, b" ")
}

// Appends the literal and a space.
fn push_literal(out: &mut Vec<u8>, lit: Lit) -> Result<(), Memory>
    ensures ok { OnOk result (out.new.items ≡ out.old.items ++ (literal_word lit ++ 32 ∷ [])) }
    ensures kept { Extends out.old.items out.new.items }
{
    if !lit.is_positive() {
        push_bytes(out, b"-")?;
    }
    push_number(out, u64::from(lit.var()) + 1)
}

// Appends the literals, each with a space behind it.
fn push_literals(out: &mut Vec<u8>, clause: &[Lit]) -> Result<(), Memory>
    ensures ok { OnOk result (out.new.items ≡ out.old.items ++ literals_text clause.now) }
    ensures kept { Extends out.old.items out.new.items }
{
    for lit in clause {
        push_literal(out, *lit)?;
    }
    Ok(())
}

// Appends the numbers, each with a space behind it.
fn push_numbers(out: &mut Vec<u8>, ids: &[ClauseId]) -> Result<(), Memory>
    ensures ok { OnOk result (out.new.items ≡ out.old.items ++ numbers_text ids.now) }
    ensures kept { Extends out.old.items out.new.items }
    ensures fit { OnOk result (All (λ n. n < 2 ^ 64) ids.now) }
{
    for id in ids {
        push_number(out, id.0)?;
    }
    Ok(())
}

fn push_clause(out: &mut Vec<u8>, clause: &[Lit]) -> Result<(), Memory>
    ensures ok { OnOk result (out.new.items ≡ out.old.items ++ clause_text clause.now) }
    ensures kept { Extends out.old.items out.new.items }
{
    push_literals(out, clause)?;
    push_bytes(out, b"0\n")
}

fn push_header(out: &mut Vec<u8>, vars: u32, clauses: u64) -> Result<(), Memory>
    ensures ok { OnOk result (out.new.items ≡ out.old.items ++ header_text vars clauses) }
    ensures kept { Extends out.old.items out.new.items }
{
    push_bytes(out, b"p cnf ")?;
    push_number(out, u64::from(vars))?;
    push_decimal(out, clauses)?;
    push_bytes(out, b"\n")
}

fn push_formula(out: &mut Vec<u8>, cnf: &Cnf) -> Result<(), Memory>
    ensures ok { OnOk result (out.new.items ≡ out.old.items ++ formula_text (formula cnf.now.vars cnf.now.clauses.clauses)) }
    ensures kept { Extends out.old.items out.new.items }
    ensures fit { cnf.now.vars < 2 ^ 32 }
{
    let count = cnf.clauses.len();
    push_header(out, cnf.vars, count)?;
    for before in 0..count {
        push_clause(out, cnf.clauses.clause(ClauseId(before + 1)))?;
    }
    Ok(())
}

fn push_step(out: &mut Vec<u8>, step: &ProofStep) -> Result<(), Memory>
    ensures ok { OnOk result (out.new.items ≡ out.old.items ++ step_text step.now) }
    ensures kept { Extends out.old.items out.new.items }
    ensures fit { OnOk result (NumbersFit step.now) }
{
    push_words(out, step)?;
    push_bytes(out, b"0\n")
}

// Appends the step's line but for its end.
fn push_words(out: &mut Vec<u8>, step: &ProofStep) -> Result<(), Memory>
    ensures ok { OnOk result (out.new.items ≡ out.old.items ++ step_words_text step.now) }
    ensures kept { Extends out.old.items out.new.items }
    ensures fit { OnOk result (NumbersFit step.now) }
{
    match step {
        ProofStep::Add {
            id,
            clause,
            hints,
            ..
        } => {
            push_number(out, *id)?;
            push_literals(out, clause.as_slice())?;
            push_bytes(out, b"0 ")?;
            push_numbers(out, hints.as_slice())
        }
        ProofStep::Delete { ids } => {
            push_bytes(out, b"1 d ")?;
            push_numbers(out, ids.as_slice())
        }
    }
}

fn push_steps(out: &mut Vec<u8>, steps: &[ProofStep]) -> Result<(), Memory>
    ensures ok { OnOk result (out.new.items ≡ out.old.items ++ steps_text steps.now) }
    ensures kept { Extends out.old.items out.new.items }
    ensures fit { OnOk result (All NumbersFit steps.now) }
{
    for step in steps {
        push_step(out, step)?;
    }
    Ok(())
}

/// Appends the formula as a text: the header, and each clause on a line of its own.
///
/// A formula within the limits of a CNF file reads back as it is. A refused call leaves `out` as it was.
pub fn print_cnf(cnf: &Cnf, out: &mut Vec<u8>) -> Result<(), Memory>
    requires { All (HasValues cnf.now.vars) cnf.now.clauses.clauses }
    ensures text { OnOk result (out.new.items ≡ out.old.items ++ formula_text (formula cnf.now.vars cnf.now.clauses.clauses)) }
    ensures reads_back { OnOk result (KeepsLimits (formula cnf.now.vars cnf.now.clauses.clauses) → IsFormulaText (formula cnf.now.vars cnf.now.clauses.clauses) (drop (length out.old.items) out.new.items)) }
    ensures err { OnErr result (out.new.items ≡ out.old.items) }
{
    let before = out.len();
    let printed = push_formula(out, cnf);
    if printed.is_err() {
        out.truncate(before);
    }
    printed
}

/// Appends the proof as a text: each step on a line of its own, deletions with the first number 1.
///
/// The text reads back as the same steps, but for the numbers of their lines. A refused call leaves `out` as it was.
pub fn print_lrat(proof: &Proof, out: &mut Vec<u8>) -> Result<(), Memory>
    requires ascend { NumbersAscend 0 proof.now }
    requires above { All HasNoZero proof.now }
    ensures text { OnOk result (out.new.items ≡ out.old.items ++ steps_text proof.now) }
    ensures reads_back { OnOk result (ReadsBackAsProof proof.now (drop (length out.old.items) out.new.items)) }
    ensures err { OnErr result (out.new.items ≡ out.old.items) }
{
    let before = out.len();
    let printed = push_steps(out, proof.steps());
    if printed.is_err() {
        out.truncate(before);
    }
    printed
}
