// The parts of a question, which stand beside the book that holds its clauses.
use card_counter::Counter;
use log_encode::LogCode;
use prop_core::Vars;
use sat_solve::Solver;
use step_encode::StepCode;

/// The parts of a question whose clauses stand in a book.
pub struct Parts<R> {
    /// The code of the steps.
    pub step: StepCode,
    /// The code of the log.
    pub code: LogCode,
    /// The counter of the faults, with the columns that were needed so far.
    pub counter: Counter,
    /// The variables of all three.
    pub vars: Vars,
    /// The solver, which has adopted the book.
    pub solver: Solver<R>,
}

// (Written out, so that it is proved once: a derived one is proved again in each crate that lets such a value go.)
impl<R: Drop> Drop for Parts<R> {
    fn drop(self) {
        let Self {
            step: _,
            code: _,
            counter: _,
            vars: _,
            solver: _,
        } = self;
    }
}

/// Memory ran out, and nothing was built. The book may hold the first of the axioms.
#[derive(Drop)]
pub struct Unbuilt<R> {
    /// The solver, without variables and clauses: a question can be built with it.
    pub solver: Solver<R>,
}
