// Which literals of a clause follow from its others (Sörensson and Biere, "Minimizing learned clauses", 2009).

use des_base::Memory;
use prop_core::{Clauses, Lit};
use sat_prop::Trail;
use std::alloc::Global;

// What is known of a variable of the trail.
#[derive(Clone, Copy, PartialEq, Eq)]
enum Mark {
    Unknown,
    // It stands in the clause.
    Kept,
    // It stands in the clause, and follows from others that do.
    Dropped,
    // It follows from those of the clause.
    Implied,
    // It depends on a decision that the clause lacks.
    Free,
}

// A variable whose reason is looked through, and how many of its literals were.
#[derive(Clone, Copy)]
struct Visit {
    var: u32,
    next: usize,
}

// Which literals of a clause that is being learnt follow from its others, by reasons of the trail. A literal follows where each other literal of its reason stands in the clause or follows itself; that is
// looked through with a stack of visits, and what was found of a variable is marked, so each is looked through once.
//
// No contract says that they follow: whoever drops one resolves with its reason (`shorten`).
#[derive(Drop)]
pub struct Removable {
    marks: Vec<Mark>,
    touched: Vec<u32>,
    visits: Vec<Visit>,
}

impl Removable {
    pub fn new(alloc: Global) -> Removable {
        Removable {
            marks: Vec::new(alloc),
            touched: Vec::new(alloc),
            visits: Vec::new(alloc),
        }
    }

    // Makes sure that `vars` variables can be marked.
    pub fn widen(&mut self, vars: u32) -> Result<(), Memory> {
        let count = self.marks.len().max(vars as usize);
        self.marks.resize(count, Mark::Unknown)?;
        Ok(())
    }

    // Whether a variable that was seen is to be resolved: it is dropped, or comes in where one that is dropped is resolved.
    pub fn resolves(&self, var: u32) -> bool {
        matches!(self.mark(var), Mark::Dropped | Mark::Implied)
    }

    // Marks what can be dropped of the literals that are seen among the first `count`.
    pub fn find(
        &mut self,
        seen: &[bool],
        trail: &Trail,
        db: &Clauses,
        count: usize,
    ) -> Result<(), Memory> {
        self.forget();
        let literals = trail.literals();
        for place in 0..count.min(literals.len()).min(seen.len()) {
            if seen[place] {
                self.set(literals[place].var(), Mark::Kept)?;
            }
        }
        for index in 0..self.touched.len() {
            if let Some(var) = self.touched_at(index) {
                self.look_through(trail, db, var)?;
            }
        }
        Ok(())
    }

    // The variables that were marked, in their order.
    fn touched_at(&self, index: usize) -> Option<u32> {
        self.touched.get(index).copied()
    }

    // Takes all marks away.
    fn forget(&mut self) {
        for index in 0..self.touched.len() {
            if let Some(var) = self.touched_at(index) {
                if let Some(mark) = self.marks.get_mut(var as usize) {
                    *mark = Mark::Unknown;
                }
            }
        }
        self.touched.clear();
        self.visits.clear();
    }

    fn mark(&self, var: u32) -> Mark {
        match self.marks.get(var as usize) {
            Some(mark) => *mark,
            None => Mark::Free,
        }
    }

    fn set(&mut self, var: u32, mark: Mark) -> Result<(), Memory> {
        self.touched.push(var)?;
        if let Some(old) = self.marks.get_mut(var as usize) {
            *old = mark;
        }
        Ok(())
    }

    // Finds whether a variable of the clause follows from others. Each turn ends a visit or begins one at a variable that wasn't marked, so
    // there are fewer than the range has.
    fn look_through(&mut self, trail: &Trail, db: &Clauses, var: u32) -> Result<(), Memory> {
        if self.mark(var) != Mark::Kept || !self.enter(trail, var)? {
            return Ok(());
        }
        for _ in 0..u32::MAX {
            let Some(visit) = self.visits.pop() else {
                break;
            };
            self.go_on(trail, db, visit)?;
        }
        Ok(())
    }

    // Begins with the reason of a variable, if it has one.
    fn enter(&mut self, trail: &Trail, var: u32) -> Result<bool, Memory> {
        if trail.reason(var).is_none() {
            return Ok(false);
        }
        self.visits.push(Visit { var, next: 0 })?;
        Ok(true)
    }

    // Looks at the next literals of a reason, as long as they follow.
    fn go_on(&mut self, trail: &Trail, db: &Clauses, visit: Visit) -> Result<(), Memory> {
        let clause = reason_of(trail, db, visit.var);
        match self.first_open(clause, visit.var, visit.next) {
            None => self.leave(visit.var),
            Some(next) => {
                self.visits.push(Visit {
                    var: visit.var,
                    next,
                })?;
                self.descend(trail, var_at(clause, next))
            }
        }
    }

    // The first literal from a place on that isn't known to follow.
    fn first_open(&self, clause: &[Lit], but: u32, from: usize) -> Option<usize> {
        for place in from..clause.len() {
            let var = clause[place].var();
            let known = matches!(self.mark(var), Mark::Kept | Mark::Dropped | Mark::Implied);
            if var != but && !known {
                return Some(place);
            }
        }
        None
    }

    // Visits a literal of a reason that isn't known to follow, if it may.
    fn descend(&mut self, trail: &Trail, var: u32) -> Result<(), Memory> {
        if self.mark(var) == Mark::Unknown && self.enter(trail, var)? {
            return Ok(());
        }
        self.give_up()
    }

    // All of its reason follows, and so does the variable.
    fn leave(&mut self, var: u32) -> Result<(), Memory> {
        let mark = if self.mark(var) == Mark::Kept {
            Mark::Dropped
        } else {
            Mark::Implied
        };
        self.set(var, mark)
    }

    // What is being looked through doesn't follow, nor what led to it. The variable of the clause stays.
    fn give_up(&mut self) -> Result<(), Memory> {
        for _ in 0..self.visits.len() {
            if let Some(visit) = self.visits.pop() {
                if self.mark(visit.var) == Mark::Unknown {
                    self.set(visit.var, Mark::Free)?;
                }
            }
        }
        Ok(())
    }
}

fn reason_of<'a>(trail: &Trail, db: &'a Clauses, var: u32) -> &'a [Lit] {
    match trail.reason(var) {
        Some(id) if id.0 > 0 && id.0 <= db.len() => db.clause(id),
        _ => &[],
    }
}

fn var_at(clause: &[Lit], place: usize) -> u32 {
    match clause.get(place) {
        Some(lit) => lit.var(),
        None => u32::MAX,
    }
}
