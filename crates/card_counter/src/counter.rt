// A counter: clauses that count how many of its inputs are true, with one column for each number.
ghost use Rattle.std.specs.Prelude.{◌≡◌, ◌+◌, ◌*◌, ◌-◌, ◌<◌, ◌≤◌, length, OnOk, OnErr, IfOk, All};
ghost use Rattle.des_base.specs.declared.TheConstants.{MOST_COLUMNS, VAR_LIMIT};
ghost use Rattle.card_counter.specs.CounterState.{IsCounter, IsMade, IsPlace, IsReachedAt, variable, without_columns, with_room, clauses_at, clauses_of_column, clauses_of_input, kept_at, counted_at, bound_literal};
ghost use Rattle.card_counter.specs.Counting.{Counts, Bounds};
ghost use Rattle.card_counter.specs.Growing.{AddsColumn, AddsInput, AddsInputs, AddsWithin, HasRoom, MayCount};

use des_base::{Memory, VAR_LIMIT};
use prop_core::{Clauses, Lit, Vars};
use std::alloc::Global;
use std::marker::Model;

// A column begins with one variable for each input that there was when it was made. They stand in a row.
#[derive(Clone, Copy)]
pub struct Column {
    first: u32,
    count: u32,
}

/// Counts, in clauses, how many of its inputs are true.
///
/// A counter begins without columns. With k + 1 of them it can say that at most k inputs are true. Inputs may be negations,
/// and one literal may stand among them more than once; then it counts as often. Further inputs may come later.
#[derive(Drop)]
pub struct Counter {
    inputs: Vec<Lit>,
    // For an input that came later, the first variable of its own row, which has one for each column that there was; for
    // the others 0.
    rows: Vec<u32>,
    columns: Vec<Column>,
    spare_inputs: usize,
}

impl Model for Counter {
    ghost use Rattle.std.specs.Prelude.{◌≤◌, ◌+◌, vec_len, vec_capacity};
    ghost use Rattle.card_counter.specs.CounterState.{CounterState, IsCounter};
    ghost use Rattle.card_counter.specs.Rows.{counter_of, IsLaidOut};

    ghost Value = { CounterState };

    ghost view = { λ a. counter_of a.inputs.items a.rows.items a.columns.items a.spare_inputs };

    ghost invariant = { λ a. record {
      counter : IsCounter (counter_of a.inputs.items a.rows.items a.columns.items a.spare_inputs);
      laid : IsLaidOut a.inputs.items a.rows.items a.columns.items;
      input_room : vec_len a.inputs + a.spare_inputs ≤ vec_capacity a.inputs;
      row_room : vec_len a.rows + a.spare_inputs ≤ vec_capacity a.rows;
    } };
}

impl Counter {
    /// A counter of these inputs, without columns.
    pub fn new(alloc: Global, inputs: &[Lit]) -> Result<Counter, Memory>
        ensures { IfOk result (λ counter. counter ≡ without_columns inputs.now) }
    {
        let mut own = Vec::new(alloc);
        own.extend_from_slice(inputs)?;
        Ok(Counter {
            inputs: own,
            rows: no_rows(alloc, inputs.len())?,
            columns: Vec::new(alloc),
            spare_inputs: 0,
        })
    }

    /// How many inputs there are.
    pub fn inputs(&self) -> usize
        ensures { result ≡ length self.now.inputs }
    {
        self.inputs.len()
    }

    /// How many columns there are.
    pub fn columns(&self) -> u32
        ensures columns { result ≡ length self.now.columns }
        ensures few { result ≤ MOST_COLUMNS }
        ensures counter { IsCounter self.now }
    {
        self.columns.len() as u32
    }

    /// A law: no column lacks a variable for an input, no two variables are the same, and the columns are few.
    pub fn is_counter(&self)
        ensures few { length self.now.columns ≤ MOST_COLUMNS }
        ensures counter { IsCounter self.now }
    {
        self.columns();
    }

    /// Adds a column: a new variable for each input, and clauses that say what they count. It uses up reserved room.
    pub fn add_column(&mut self, vars: &mut Vars, out: &mut Clauses) -> Result<(), Memory>
        requires some { 1 ≤ length self.old.inputs }
        requires few { length self.old.columns < MOST_COLUMNS }
        requires within { vars.old + length self.old.inputs ≤ VAR_LIMIT }
        requires made { IsMade vars.old self.old }
        ensures column { OnOk result (AddsColumn self.old vars.old out.old.clauses self.new vars.new out.new.clauses) }
        ensures counter { IsCounter self.new }
        ensures exact { OnOk result (Counts self.new) }
        ensures err { OnErr result ((self.new ≡ self.old) × (vars.new ≡ vars.old) × (out.new ≡ out.old)) }
    {
        let count = self.inputs.len();
        self.columns.reserve(1)?;
        out.reserve(2 * count, 5 * count)?;
        let first = vars.fresh(count as u32);
        let column = Column {
            first,
            count: count as u32,
        };
        self.columns.push(column).unwrap();
        self.push_column(out);
        Ok(())
    }

    /// Makes sure that there is room for this many more inputs.
    pub fn reserve_inputs(&mut self, more: u32) -> Result<(), Memory>
        ensures room { OnOk result (self.new ≡ with_room self.old more) }
        ensures counter { IsCounter self.new }
        ensures err { OnErr result (self.new ≡ self.old) }
    {
        let more = more as usize;
        self.inputs.reserve(more)?;
        self.rows.reserve(more)?;
        self.spare_inputs = self.spare_inputs.max(more);
        Ok(())
    }

    /// Adds inputs in the room that was reserved. Each has a new variable in every column, and clauses that say what it counts.
    pub fn add_inputs(&mut self, inputs: &[Lit], vars: &mut Vars, out: &mut Clauses)
        requires reserved { length inputs.now ≤ self.old.spare_inputs }
        requires within { vars.old + length inputs.now * length self.old.columns ≤ VAR_LIMIT }
        requires made { IsMade vars.old self.old }
        requires inputs { All (MayCount vars.old self.old) inputs.now }
        requires room { HasRoom out.old (2 * (length inputs.now * length self.old.columns)) (5 * (length inputs.now * length self.old.columns)) }
        ensures inputs { AddsInputs inputs.now self.old vars.old out.old.clauses self.new vars.new out.new.clauses }
        ensures counter { IsCounter self.new }
        ensures exact { Counts self.new }
    {
        // Even if there are none to add, it is a counter.
        self.is_counter();
        for input in inputs {
            self.add_input(*input, vars, out);
        }
    }

    // Adds one input.
    fn add_input(&mut self, input: Lit, vars: &mut Vars, out: &mut Clauses)
        requires reserved { 1 ≤ self.old.spare_inputs }
        requires within { vars.old + length self.old.columns ≤ VAR_LIMIT }
        requires made { IsMade vars.old self.old }
        requires input { MayCount vars.old self.old input }
        requires room { HasRoom out.old (2 * length self.old.columns) (5 * length self.old.columns) }
        ensures input { AddsInput input self.old vars.old out.old self.new vars.new out.new }
        ensures counter { IsCounter self.new }
    {
        let first = vars.fresh(self.columns.len() as u32);
        self.inputs.push(input).unwrap();
        self.rows.push(first).unwrap();
        self.spare_inputs -= 1;
        self.push_row(out);
    }

    /// The literal that says that at most k inputs are true.
    pub fn bound_lit(&self, k: u32) -> Lit
        requires { k < length self.now.columns }
        ensures literal { result ≡ bound_literal self.now k }
        ensures exact { Bounds self.now result k }
        ensures counter { IsCounter self.now }
    {
        let last = self.inputs.len() - 1;
        Lit::new(self.variable_at(last, k), false)
    }

    /// The literal that a column of a number counts at an input, both from 0: of the inputs up to this one more than that number are true.
    pub fn reached(&self, place: usize, column: u32) -> Option<Lit>
        ensures { IsReachedAt self.now place column result }
    {
        if place < self.inputs() && column < self.columns() {
            Some(Lit::new(self.variable_at(place, column), true))
        } else {
            None
        }
    }

    // The variable of a column at an input.
    fn variable_at(&self, place: usize, column: u32) -> u32
        requires { IsPlace self.now place column }
        ensures is { result ≡ variable self.now place column }
        ensures small { result < VAR_LIMIT }
    {
        let own = self.columns[column as usize];
        if place < own.count as usize {
            own.first + place as u32
        } else {
            self.rows[place] + column
        }
    }

    // Adds the clauses of the last column, in room that is there.
    fn push_column(&self, out: &mut Clauses)
        requires some { 1 ≤ length self.now.columns }
        requires room { HasRoom out.old (2 * length self.now.inputs) (5 * length self.now.inputs) }
        ensures { AddsWithin out.old (clauses_of_column self.now (length self.now.columns - 1)) (2 * length self.now.inputs) (5 * length self.now.inputs) out.new }
    {
        let column = self.columns() - 1;
        for place in 0..self.inputs() {
            self.push_place(place, column, out);
        }
    }

    // Adds what each column says of the last input, in room that is there.
    fn push_row(&self, out: &mut Clauses)
        requires some { 1 ≤ length self.now.inputs }
        requires room { HasRoom out.old (2 * length self.now.columns) (5 * length self.now.columns) }
        ensures { AddsWithin out.old (clauses_of_input self.now (length self.now.inputs - 1)) (2 * length self.now.columns) (5 * length self.now.columns) out.new }
    {
        let place = self.inputs() - 1;
        for column in 0..self.columns() {
            self.push_place(place, column, out);
        }
    }

    // Adds what a column says of an input.
    fn push_place(&self, place: usize, column: u32, out: &mut Clauses)
        requires place { IsPlace self.now place column }
        requires room { HasRoom out.old 2 5 }
        ensures { AddsWithin out.old (clauses_at self.now column place) 2 5 out.new }
    {
        self.push_kept(place, column, out);
        self.push_counted(place, column, out);
    }

    // Adds that the inputs up to this place reach what those before it do. Before the first there are none.
    fn push_kept(&self, place: usize, column: u32, out: &mut Clauses)
        requires place { IsPlace self.now place column }
        requires room { HasRoom out.old 1 2 }
        ensures { AddsWithin out.old (kept_at self.now column place) 1 2 out.new }
    {
        if place > 0 {
            let reached = self.variable_at(place, column);
            let before = self.variable_at(place - 1, column);
            out.push_reserved(&[Lit::new(before, false), Lit::new(reached, true)]);
        }
    }

    // Adds that a true input reaches one more than those before it reach. In the first column that is 1, with no premise.
    fn push_counted(&self, place: usize, column: u32, out: &mut Clauses)
        requires place { IsPlace self.now place column }
        requires room { HasRoom out.old 1 3 }
        ensures { AddsWithin out.old (counted_at self.now column place) 1 3 out.new }
    {
        let input = self.inputs[place];
        let reached = Lit::new(self.variable_at(place, column), true);
        if column == 0 {
            out.push_reserved(&[input.negated(), reached]);
        } else if place > 0 {
            let before = self.variable_at(place - 1, column - 1);
            out.push_reserved(&[Lit::new(before, false), input.negated(), reached]);
        }
    }
}

// No row of its own for each of `count` inputs: 0 in place of a first variable.
fn no_rows(alloc: Global, count: usize) -> Result<Vec<u32>, Memory>
    ensures { IfOk result (λ rows. length rows.items ≡ count) }
{
    let mut rows = Vec::new(alloc);
    rows.resize(count, 0)?;
    Ok(rows)
}
