// A proof that is read as a list of steps and checked so, as no command does.
ghost use Rattle.std.specs.Prelude.{◌<◌, ◌^◌, length};

use crate::literals::{NO_0, YES_0, push_all};
use proof_ledger::{Checked, ProofStep, check};
use proof_text::read_lrat;
use prop_core::{ClauseId, Clauses};
use std::alloc::Global;

const BOTH: [ClauseId; 2] = [ClauseId(1), ClauseId(2)];

static OPPOSED: [&[u32]; 2] = [&[YES_0], &[NO_0]];

// Whether the step is the empty clause, from both axioms.
fn is_empty_clause(step: &ProofStep) -> bool {
    match step {
        ProofStep::Add {
            line: 1,
            id: 3,
            clause,
            hints,
        } => clause.as_slice().is_empty() && hints.as_slice() == BOTH.as_slice(),
        _ => false,
    }
}

// Whether the steps refute the clauses.
fn refutes(alloc: Global, axioms: &mut Clauses, steps: &[ProofStep]) -> bool {
    push_all(axioms, &OPPOSED) && matches!(check(alloc, axioms, steps), Ok(Checked::Verified))
}

// Whether the text says that proof, of two clauses over one variable, and it refutes them.
fn is_refutation(alloc: Global, text: &[u8]) -> bool
    requires { length text.now < 2 ^ 32 }
{
    let Ok(proof) = read_lrat(alloc, text, 1, 2) else {
        return false;
    };
    let steps = proof.steps();
    matches!(steps, [step] if is_empty_clause(step))
        && refutes(alloc, &mut Clauses::new(alloc), steps)
}

#[test]
fn refutes_by_steps(rt: HostRuntime) {
    assert!(rt; is_refutation(rt.alloc(), b"3 0 1 2 0\n"));
}
