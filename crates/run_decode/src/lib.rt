//! From the clauses of a question to runs, and back: what an assignment of the variables says of a network and its alarm log.
//!
//! - A *question* is, by one naming of its variables, all clauses of n steps of a network, of a log, and of some columns of a
//!   counter of faults, fault events and false alarms. It assumes the guards of the log and, where there is a bound, the literal for at most that many faults.
//! - A question is *faithful*: each explanation of the log within the bound has an assignment that makes clauses and
//!   assumptions true, and where there is one, something explains within the bound; without the assumptions some assignment
//!   makes the clauses true; and the assumptions don't contradict each other.
//! - It is *drawn* from the families: each clause is, by what its variables stand for, one of them, and the assumptions are
//!   guards and bound.
//! - A refuted question decides: nothing explains the log, or all that does has more faults than the bound.
//! - An assignment that makes all true gives an explanation, with as many faults as variables of fault events and of false alarms are
//!   true: [`decode`] reads it.
#![tactic(auto)]

mod laws;
mod runs;

pub use laws::{
    beside_one_naming, bound_is_read, clauses_begin, clauses_grow, coded_alarms_stand,
    coded_runs_explain, columns_are_counted, decoded_explains, faithful_decides, faithful_tells,
    fault_literals_stay, faults_are_inputs, instances_stay, none_is_least, parts_are_assumed,
    parts_make_question, question_begins, question_gives_explanations, question_is_decided,
    question_is_drawn, question_is_faithful, refuted_is_decided, room_is_free, together_are_few,
    together_ask, together_begins, together_grow, together_one_naming, truths_are_read,
};
pub use runs::decode;
