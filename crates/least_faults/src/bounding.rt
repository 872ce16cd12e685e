// The literal for a bound on the faults, and the columns of the counter that it needs.
ghost use Rattle.std.specs.Prelude.{◌≡◌, ◌<◌, ◌≤◌, ◌+◌, IfOk, OnOk, OnErr, length};
ghost use Rattle.des_base.specs.declared.TheConstants.{MOST_COLUMNS};
ghost use Rattle.least_faults.specs.Asking.{IsBoundLiteral};
ghost use Rattle.least_faults.specs.Growing.{KeepsQuestion, StandsStill};
ghost use Rattle.least_faults.specs.Parts.{AreReady, AreReadyBeside};
ghost use Rattle.sat_solve.specs.Leaving.{AddsAxioms};
ghost use Rattle.replay.specs.declared.TheConstants.{MOST_FAULTS};

use crate::parts::Parts;
use des_base::Memory;
use proof_ledger::Ledger;
use prop_core::{Clauses, Lit};
use std::alloc::Global;

/// The literal for at most k faults. It adds the columns that the counter lacks.
///
/// The book may have further axioms beside those of the question, over other variables that were made.
/// Each column is put into counter, book and solver whole or not at all; those that were added before memory ran out stay.
pub fn bound<R: Fn(u32) -> u64>(
    alloc: Global,
    parts: &mut Parts<R>,
    book: &mut Ledger,
    k: u32,
) -> Result<Lit, Memory>
    requires ready { AreReadyBeside R.pre R.post parts.old book.old.entries }
    requires some { 0 < length parts.old.counter.inputs }
    requires few { k ≤ MOST_FAULTS }
    ensures ready { AreReadyBeside R.pre R.post parts.new book.new.entries }
    ensures alone { AreReady R.pre R.post parts.old book.old.entries → AreReady R.pre R.post parts.new book.new.entries }
    ensures kept { KeepsQuestion parts.old parts.new book.old.entries book.new.entries }
    ensures axioms { AddsAxioms book.old.entries book.new.entries }
    ensures literal { IfOk result (IsBoundLiteral parts.old.counter parts.new k) }
{
    for _ in parts.counter.columns()..k + 1 {
        add_column(alloc, parts, book)?;
    }
    Ok(parts.counter.bound_lit(k))
}

// Adds a column to the counter, and its clauses to the book, which the solver adopts.
fn add_column<R: Fn(u32) -> u64>(
    alloc: Global,
    parts: &mut Parts<R>,
    book: &mut Ledger,
) -> Result<(), Memory>
    requires ready { AreReadyBeside R.pre R.post parts.old book.old.entries }
    requires some { 0 < length parts.old.counter.inputs }
    requires few { length parts.old.counter.columns < MOST_COLUMNS }
    ensures ready { AreReadyBeside R.pre R.post parts.new book.new.entries }
    ensures kept { KeepsQuestion parts.old parts.new book.old.entries book.new.entries }
    ensures axioms { AddsAxioms book.old.entries book.new.entries }
    ensures columns { OnOk result (length parts.new.counter.columns ≡ length parts.old.counter.columns + 1) }
    ensures unchanged { OnErr result (StandsStill parts.old.counter parts.new.counter book.old.entries book.new.entries) }
{
    let inputs = parts.counter.inputs();
    book.reserve(2 * inputs, 5 * inputs)?;
    parts
        .solver
        .reserve(parts.vars.count() + inputs as u32, 2 * inputs)?;
    let mut clauses = Clauses::new(alloc);
    parts.counter.add_column(&mut parts.vars, &mut clauses)?;
    book.push_axioms(&clauses);
    parts.solver.adopt(book);
    Ok(())
}
