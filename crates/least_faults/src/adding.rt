// An addition to the log of a question whose clauses stand in a book: room first, and then all of it.
ghost use Rattle.std.specs.Prelude.{◌≡◌, ◌≤◌, ◌+◌, ◌*◌, true, All, length, sum_by, IfOk, OnOk};
ghost use Rattle.des_base.specs.declared.TheConstants.{MOST_COLUMNS};
ghost use Rattle.card_counter.specs.CounterState.{IsMade};
ghost use Rattle.card_counter.specs.Growing.{AddsInputs, HasRoom, MayCount};
ghost use Rattle.least_faults.specs.Adding.{AddsFew, HasAddition, HasRoomForDraft, IsReserved, KeepsAllButRoom, input_count, is_doubted, new_inputs};
ghost use Rattle.least_faults.specs.Bounds.{question_variables};
ghost use Rattle.least_faults.specs.Parts.{AreReady};
ghost use Rattle.question_clauses.specs.Additions.{with_addition};
ghost use Rattle.log_encode.specs.Drafted.{IsDraftOf};

use crate::parts::Parts;
use card_counter::Counter;
use des_base::{Memory, VAR_LIMIT};
use log_encode::{Draft, LogCode};
use proof_ledger::Ledger;
use prop_core::{ClauseId, Clauses, Lit, Vars};
use std::alloc::Global;

/// A draft of an addition to the log of a question, for which there is room.
#[derive(Drop)]
pub struct Reserved {
    /// The draft.
    pub draft: Draft,
    /// Whether it is of a doubtful alarm, which the counter of faults counts if it is false.
    pub doubtful: bool,
    /// Its clauses, and room for those of the counter.
    pub clauses: Clauses,
}

/// Makes sure that there is room for a draft: in the code of the log, in the counter, in the book and in the solver.
///
/// A doubtful alarm is an input of the counter, so there is room for that too. If memory runs out, the draft is dropped;
/// there may be more room than before, and nothing else has changed.
pub fn reserve_draft<R: Fn(u32) -> u64>(
    alloc: Global,
    draft: Draft,
    doubtful: bool,
    parts: &mut Parts<R>,
    book: &mut Ledger,
) -> Result<Reserved, Memory>
    requires ready { AreReady R.pre R.post parts.old book.old.entries }
    requires drafted { IsDraftOf parts.old.code.coded draft.addition parts.old.vars draft }
    requires doubted { doubtful ≡ is_doubted draft.addition }
    requires fits { question_variables parts.old.step.net (with_addition parts.old.code.coded.log draft.addition) parts.old.step.steps ≤ VAR_LIMIT }
    ensures ready { AreReady R.pre R.post parts.new book.new.entries }
    ensures kept { KeepsAllButRoom parts.old parts.new book.old.entries book.new.entries }
    ensures reserved { IfOk result (λ reserved. IsReserved parts.new book.new reserved) }
    ensures draft { IfOk result (λ reserved. reserved.draft ≡ draft) }
{
    let cells = cells_for(doubtful, &parts.counter);
    let clauses = copy_with_room(alloc, draft.clauses(), cells)?;
    reserve_room(&draft, doubtful, cells, parts, book)?;
    Ok(Reserved {
        draft,
        doubtful,
        clauses,
    })
}

// How many variables a counter gets: one in each column for a doubtful alarm.
fn cells_for(doubtful: bool, counter: &Counter) -> u32
    ensures is { result ≡ input_count doubtful * length counter.now.columns }
    ensures few { result ≤ MOST_COLUMNS }
{
    if doubtful { counter.columns() } else { 0 }
}

// The clauses, with room for 2 clauses and 5 literals in them for each cell.
fn copy_with_room(alloc: Global, clauses: &Clauses, cells: u32) -> Result<Clauses, Memory>
    requires few { cells ≤ MOST_COLUMNS }
    ensures copied { IfOk result (λ copy. copy.clauses ≡ clauses.now.clauses) }
    ensures room { IfOk result (λ copy. HasRoom copy (2 * cells) (5 * cells)) }
{
    let mut copy = Clauses::new(alloc);
    copy.reserve(2 * cells as usize, 5 * cells as usize)?;
    copy.append(clauses)?;
    Ok(copy)
}

// How many literals the clauses have together, plus `more`. If that doesn't fit a machine number, there would be no
// memory for them.
fn literals_and(clauses: &Clauses, more: usize) -> Result<usize, Memory>
    ensures { IfOk result (λ count. count ≡ more + sum_by length clauses.now.clauses) }
{
    let mut count = more;
    for before in 0..clauses.len() {
        let own = clauses.clause(ClauseId(before + 1)).len();
        let Some(next) = count.checked_add(own) else {
            return Err(Memory);
        };
        count = next;
    }
    Ok(count)
}

// Makes sure that there is room for the draft, and for `cells` cells of the counter.
fn reserve_room<R: Fn(u32) -> u64>(
    draft: &Draft,
    doubtful: bool,
    cells: u32,
    parts: &mut Parts<R>,
    book: &mut Ledger,
) -> Result<(), Memory>
    requires ready { AreReady R.pre R.post parts.old book.old.entries }
    requires few { parts.old.vars + draft.now.vars + cells ≤ VAR_LIMIT }
    requires cells { cells ≤ MOST_COLUMNS }
    ensures ready { AreReady R.pre R.post parts.new book.new.entries }
    ensures kept { KeepsAllButRoom parts.old parts.new book.old.entries book.new.entries }
    ensures room { OnOk result (HasRoomForDraft draft.now doubtful cells parts.new book.new) }
{
    let literals = literals_and(draft.clauses(), 5 * cells as usize)?;
    let Some(clauses) = (2 * cells as usize).checked_add(draft.clauses().len() as usize) else {
        return Err(Memory);
    };
    parts.code.reserve(draft)?;
    parts.counter.reserve_inputs(u32::from(doubtful))?;
    book.reserve(clauses, literals)?;
    parts
        .solver
        .reserve(parts.vars.count() + draft.vars() + cells, clauses)?;
    Ok(())
}

/// Makes an addition for which there is room: its variables, its code, what the counter gets with it, and the clauses of both
/// as axioms of the book, which the solver adopts. It can't fail.
pub fn add_draft<R: Fn(u32) -> u64>(reserved: Reserved, parts: &mut Parts<R>, book: &mut Ledger)
    requires ready { AreReady R.pre R.post parts.old book.old.entries }
    requires reserved { IsReserved parts.old book.old reserved }
    ensures ready { AreReady R.pre R.post parts.new book.new.entries }
    ensures added { HasAddition reserved.draft.addition parts.old parts.new book.old.entries book.new.entries }
    ensures few { AddsFew parts.old.code.coded.net parts.old.code.coded.grid.steps parts.old.code.coded.log parts.new.code.coded.log book.old.entries book.new.entries }
{
    let Reserved {
        draft,
        doubtful,
        mut clauses,
    } = reserved;
    parts.vars.fresh(draft.vars());
    parts.code.commit(draft);
    count_false(
        doubtful,
        &parts.code,
        &mut parts.counter,
        &mut parts.vars,
        &mut clauses,
    );
    book.push_axioms(&clauses);
    parts.solver.adopt(book);
}

// Lets the counter count that the last alarm of the code is false, if it is doubtful: the last variable of the code says so.
fn count_false(
    doubtful: bool,
    code: &LogCode,
    counter: &mut Counter,
    vars: &mut Vars,
    clauses: &mut Clauses,
)
    requires some { 1 ≤ code.now.coded.vars }
    requires reserved { input_count doubtful ≤ counter.old.spare_inputs }
    requires within { vars.old + input_count doubtful * length counter.old.columns ≤ VAR_LIMIT }
    requires made { IsMade vars.old counter.old }
    requires inputs { All (MayCount vars.old counter.old) (new_inputs doubtful code.now.coded.vars) }
    requires room { HasRoom clauses.old (2 * (input_count doubtful * length counter.old.columns)) (5 * (input_count doubtful * length counter.old.columns)) }
    ensures { AddsInputs (new_inputs doubtful code.now.coded.vars) counter.old vars.old clauses.old.clauses counter.new vars.new clauses.new.clauses }
{
    if doubtful {
        let dropped = Lit::new(code.vars() - 1, true);
        counter.add_inputs(&[dropped], vars, clauses);
    }
}
