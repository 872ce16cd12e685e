// A search on a book is asked questions whose answers are known from elsewhere.
ghost use Rattle.std.specs.Prelude.{◌≡◌, ◌≤◌, [], length, not, true};
ghost use Rattle.std.specs.List.{list_all};
ghost use Rattle.prop_core.specs.Clauses.{HasValues, AreConsistent, is_false, is_true};
ghost use Rattle.sat_order.specs.Rank.{IsRank};
ghost use Rattle.calls_search.specs.Ready.{IsReady};

use crate::formulas::drawn;
use crate::literals::{NO_0, NO_1, YES_0, YES_1, are_below, push_all};
use des_base::Memory;
use proof_ledger::Ledger;
use prop_core::{ClauseId, Clauses, Lit};
use sat_order::Order;
use sat_solve::{Answer, Solver};
use std::alloc::Global;

// A question: the budget, how many assumptions there are, eight at most, on the first variables, their signs as bits, and whether
// it is satisfiable, or nothing if the budget is to be spent.
type SolverQuestion = (u64, usize, u64, Option<bool>);

// A budget of more conflicts than any of these takes.
const AMPLE: u64 = 100_000;

// The first eight variables, with the signs that the bits of a number give.
fn signed(signs: u64) -> [Lit; 8] {
    let mut literals = [Lit::numbered(0); 8];
    for var in 0..8 {
        literals[var] = Lit::new(var as u32, signs >> var & 1 == 1);
    }
    literals
}

// Puts a clause into the book, and lets the solver adopt it.
fn add<R: Fn(u32) -> u64>(
    solver: &mut Solver<R>,
    book: &mut Ledger,
    vars: u32,
    clause: &[Lit],
) -> Result<(), Memory>
    requires ready { IsReady R.pre R.post solver.old book.old.entries vars }
    requires known { HasValues vars clause.now }
    ensures { IsReady R.pre R.post solver.new book.new.entries vars }
{
    solver.reserve(0, 1)?;
    book.add_axiom(clause)?;
    solver.adopt(book);
    Ok(())
}

// Adds the clauses of these numbers, counted from 0.
fn add_all<R: Fn(u32) -> u64>(
    solver: &mut Solver<R>,
    book: &mut Ledger,
    vars: u32,
    clauses: &Clauses,
    first: u64,
    end: u64,
) -> bool
    requires ready { IsReady R.pre R.post solver.old book.old.entries vars }
    requires end { end ≤ length clauses.now.clauses }
    ensures { IsReady R.pre R.post solver.new book.new.entries vars }
{
    for before in first..end {
        let clause = clauses.clause(ClauseId(before + 1));
        if !are_below(clause, vars) || add(solver, book, vars, clause).is_err() {
            return false;
        }
    }
    true
}

// Whether no two of the literals are negations of each other.
fn are_compatible(literals: &[Lit]) -> bool
    ensures { result ≡ true → AreConsistent literals.now }
{
    none_negated(literals, literals)
}

fn none_negated(some: &[Lit], literals: &[Lit]) -> bool
    ensures { result ≡ list_all (λ l. not (is_false literals.now l)) some.now }
{
    some.iter().all(|lit| !among(literals, lit.negated()))
}

fn among(literals: &[Lit], lit: Lit) -> bool
    ensures { result ≡ is_true literals.now lit }
{
    literals.iter().any(|other| lit == *other)
}

// What was answered: whether there is an assignment, or nothing where the budget was spent.
fn told(answer: Answer) -> Option<bool> {
    match answer {
        Answer::Sat => Some(true),
        Answer::Unsat(_) => Some(false),
        Answer::Spent => None,
    }
}

// Whether the solver answers the question rightly under these assumptions.
fn answers_under<R: Fn(u32) -> u64>(
    solver: &mut Solver<R>,
    book: &mut Ledger,
    vars: u32,
    assumed: &[Lit],
    question: &SolverQuestion,
) -> bool
    requires ready { IsReady R.pre R.post solver.old book.old.entries vars }
    requires known { HasValues vars assumed.now }
    requires compatible { AreConsistent assumed.now }
    ensures { IsReady R.pre R.post solver.new book.new.entries vars }
{
    let mut budget = question.0;
    match solver.solve(book, assumed, &mut budget) {
        Ok(answer) => told(answer) == question.3,
        Err(_) => false,
    }
}

// Whether it does under the assumptions that the question has.
fn ask<R: Fn(u32) -> u64>(
    solver: &mut Solver<R>,
    book: &mut Ledger,
    vars: u32,
    question: &SolverQuestion,
) -> bool
    requires { IsReady R.pre R.post solver.old book.old.entries vars }
    ensures { IsReady R.pre R.post solver.new book.new.entries vars }
{
    let literals = signed(question.2);
    let assumed = &literals[..question.1.min(8)];
    are_below(assumed, vars)
        && are_compatible(assumed)
        && answers_under(solver, book, vars, assumed, question)
}

// Whether all questions are answered rightly.
fn ask_all<R: Fn(u32) -> u64>(
    solver: &mut Solver<R>,
    book: &mut Ledger,
    vars: u32,
    questions: &[SolverQuestion],
) -> bool
    requires { IsReady R.pre R.post solver.old book.old.entries vars }
    ensures { IsReady R.pre R.post solver.new book.new.entries vars }
{
    for question in questions {
        if !ask(solver, book, vars, question) {
            return false;
        }
    }
    true
}

// Whether all questions are answered correctly when the last quarter of the clauses comes after the early ones.
fn answers_in_two<R: Fn(u32) -> u64>(
    solver: &mut Solver<R>,
    book: &mut Ledger,
    vars: u32,
    clauses: &Clauses,
    early: &[SolverQuestion],
    late: &[SolverQuestion],
) -> bool
    requires { IsReady R.pre R.post solver.old book.old.entries vars }
{
    let end = clauses.len();
    let first = end - end / 4;
    add_all(solver, book, vars, clauses, 0, first)
        && ask_all(solver, book, vars, early)
        && add_all(solver, book, vars, clauses, first, end)
        && ask_all(solver, book, vars, late)
}

// The same of a new solver and an empty book, with at most 1,000 variables.
fn answers_anew<R: Fn(u32) -> u64>(
    solver: &mut Solver<R>,
    book: &mut Ledger,
    vars: u32,
    clauses: &Clauses,
    early: &[SolverQuestion],
    late: &[SolverQuestion],
) -> bool
    requires ranked { IsRank R.pre R.post solver.old.order.rank }
    requires adopted { solver.old.adopted ≡ [] }
    requires vars { solver.old.vars ≡ 0 }
    requires empty { book.old.entries ≡ [] }
{
    vars <= 1000
        && solver.reserve(vars, 0).is_ok()
        && answers_in_two(solver, book, vars, clauses, early, late)
}

// The same with this order.
fn answers<R: Fn(u32) -> u64>(
    alloc: Global,
    order: Order<R>,
    book: &mut Ledger,
    vars: u32,
    clauses: &Clauses,
    early: &[SolverQuestion],
    late: &[SolverQuestion],
) -> bool
    requires ranked { IsRank R.pre R.post order.rank }
    requires unused { order.waiting ≡ [] }
    requires empty { book.old.entries ≡ [] }
{
    let mut solver = Solver::new(alloc, order);
    let answered = answers_anew(&mut solver, book, vars, clauses, early, late);
    drop(solver);
    answered
}

// The same, where the last variable is decided first, or else odd variables are.
fn are_answered(
    alloc: Global,
    last: bool,
    vars: u32,
    clauses: &Clauses,
    early: &[SolverQuestion],
    late: &[SolverQuestion],
) -> bool {
    let order = Order::new(alloc, |var: u32| {
        if last { var as u64 } else { (var % 2) as u64 }
    });
    answers(
        alloc,
        order,
        &mut Ledger::new(alloc),
        vars,
        clauses,
        early,
        late,
    )
}

// The same by each of these ranks.
fn by_each(
    alloc: Global,
    ranks: &[bool],
    vars: u32,
    clauses: &Clauses,
    early: &[SolverQuestion],
    late: &[SolverQuestion],
) -> bool {
    for last in ranks {
        if !are_answered(alloc, *last, vars, clauses, early, late) {
            return false;
        }
    }
    true
}

// Formulas of three literals a clause near the threshold, by seed, variables and clauses; and whether they are satisfiable: all
// clauses but the last quarter, those under four assumptions, all clauses, and all under the assumptions. MiniSat and CaDiCaL
// found these answers.
type Drawn = (u64, u32, u32, [bool; 4]);

static DRAWN: [Drawn; 40] = [
    (1, 9, 38, [true, false, true, false]),
    (2, 10, 43, [true, true, true, true]),
    (3, 11, 47, [true, false, true, false]),
    (4, 12, 51, [true, false, true, false]),
    (5, 13, 55, [true, false, false, false]),
    (6, 14, 60, [true, false, true, false]),
    (7, 15, 64, [true, false, true, false]),
    (8, 16, 68, [true, false, true, false]),
    (9, 17, 72, [true, true, false, false]),
    (10, 18, 77, [true, false, false, false]),
    (11, 19, 81, [true, true, true, true]),
    (12, 20, 85, [true, true, true, true]),
    (13, 8, 34, [true, true, false, false]),
    (14, 9, 38, [true, false, false, false]),
    (15, 10, 43, [true, false, true, false]),
    (16, 11, 47, [true, false, false, false]),
    (17, 12, 51, [true, true, false, false]),
    (18, 13, 55, [true, false, true, false]),
    (19, 14, 60, [true, false, true, false]),
    (20, 15, 64, [true, false, true, false]),
    (21, 16, 68, [true, false, false, false]),
    (22, 17, 72, [true, false, true, false]),
    (23, 18, 77, [true, false, true, false]),
    (24, 19, 81, [true, false, false, false]),
    (25, 20, 85, [true, true, false, false]),
    (26, 8, 34, [true, false, true, false]),
    (27, 9, 38, [true, false, false, false]),
    (28, 10, 43, [true, false, false, false]),
    (29, 11, 47, [true, true, false, false]),
    (30, 12, 51, [true, false, true, false]),
    (31, 13, 55, [true, true, true, true]),
    (32, 14, 60, [true, true, false, false]),
    (33, 15, 64, [true, false, false, false]),
    (34, 16, 68, [true, true, true, true]),
    (35, 17, 72, [true, false, true, false]),
    (36, 18, 77, [true, false, true, false]),
    (37, 19, 81, [true, false, false, false]),
    (38, 20, 85, [false, false, false, false]),
    (39, 8, 34, [true, false, true, false]),
    (40, 9, 38, [true, false, true, false]),
];

fn answers_drawn(alloc: Global, row: &Drawn, clauses: &mut Clauses) -> bool {
    let (seed, vars, count, is) = *row;
    let early = [(AMPLE, 0, seed, Some(is[0])), (AMPLE, 4, seed, Some(is[1]))];
    let late = [(AMPLE, 0, seed, Some(is[2])), (AMPLE, 4, seed, Some(is[3]))];
    drawn(seed, vars, count, clauses)
        && by_each(alloc, &[true, false], vars, clauses, &early, &late)
}

fn all_drawn(alloc: Global, rows: &[Drawn]) -> bool {
    for row in rows {
        if !answers_drawn(alloc, row, &mut Clauses::new(alloc)) {
            return false;
        }
    }
    true
}

#[test]
fn formulas_of_three_literals_a_clause(rt: HostRuntime) {
    assert!(rt; all_drawn(rt.alloc(), &DRAWN));
}

// Clauses of two variables, and the questions.
type WorkedRow = (&'static [&'static [u32]], &'static [SolverQuestion]);

static WORKED: [WorkedRow; 3] = [
    (&[], &[(0, 0, 0, Some(true))]),
    (
        &[
            &[YES_0, YES_1],
            &[NO_0, YES_1],
            &[YES_0, NO_1],
            &[NO_0, NO_1],
        ],
        &[(0, 0, 0, None), (1000, 0, 0, Some(false))],
    ),
    (&[&[NO_0, YES_1], &[NO_0, NO_1]], &[(0, 1, 1, Some(false))]),
];

fn answers_worked(alloc: Global, row: &WorkedRow, clauses: &mut Clauses) -> bool {
    push_all(clauses, row.0) && by_each(alloc, &[true, false], 2, clauses, &[], row.1)
}

fn all_worked(alloc: Global, rows: &[WorkedRow]) -> bool {
    for row in rows {
        if !answers_worked(alloc, row, &mut Clauses::new(alloc)) {
            return false;
        }
    }
    true
}

// A search that was cut off goes on when it is asked again.
#[test]
fn clauses_of_two_variables(rt: HostRuntime) {
    assert!(rt; all_worked(rt.alloc(), &WORKED));
}
