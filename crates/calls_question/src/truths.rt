// Clauses by a truth of their variables, which are the bits of a number.
use prop_core::{ClauseId, Clauses, Lit};

fn is_true(bits: u32, lit: Lit) -> bool {
    lit.var() < 32 && ((bits >> lit.var()) & 1 == 1) == lit.is_positive()
}

pub fn all_true(bits: u32, lits: &[Lit]) -> bool {
    for lit in lits {
        if !is_true(bits, *lit) {
            return false;
        }
    }
    true
}

fn any_true(bits: u32, lits: &[Lit]) -> bool {
    for lit in lits {
        if is_true(bits, *lit) {
            return true;
        }
    }
    false
}

pub fn clauses_true(bits: u32, clauses: &Clauses) -> bool {
    for before in 0..clauses.len() {
        if !any_true(bits, clauses.clause(ClauseId(before + 1))) {
            return false;
        }
    }
    true
}
