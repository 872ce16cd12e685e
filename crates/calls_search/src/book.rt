// A book that is asked to derive a clause, and room for literals, for which no command asks.
use crate::literals::{NO_0, YES_0, YES_1};
use proof_ledger::Ledger;
use prop_core::{ClauseId, Clauses, Lit};

const BOTH: [ClauseId; 2] = [ClauseId(1), ClauseId(2)];

// Whether it derives the clause by both axioms, and not by the first alone.
fn derives(book: &mut Ledger) -> bool {
    let yes_1 = Lit::numbered(YES_1);
    book.add_axiom(&[Lit::numbered(YES_0), yes_1]).is_ok()
        && book.add_axiom(&[Lit::numbered(NO_0), yes_1]).is_ok()
        && book.try_derive(&[yes_1], &BOTH).is_ok()
        && book.try_derive(&[yes_1], &BOTH[..1]).is_err()
}

#[test]
fn derives_by_hints(rt: HostRuntime) {
    assert!(rt; derives(&mut Ledger::new(rt.alloc())));
}

// Whether there is room behind a call that makes it.
fn has_room(clauses: &mut Clauses) -> bool {
    clauses.reserve(1, 2).is_ok() && clauses.spare_clauses() >= 1 && clauses.spare_lits() >= 2
}

#[test]
fn keeps_room(rt: HostRuntime) {
    assert!(rt; has_room(&mut Clauses::new(rt.alloc())));
}
