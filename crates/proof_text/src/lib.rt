//! Texts of formulas (DIMACS CNF) and of proofs (the propagation part of LRAT).
//!
//! - A CNF text is a header `p cnf V C` and then C clauses of non-zero numbers, each ended by `0`, over the tokens of all
//!   further lines. An LRAT text has one step on each line: an addition `ID LITERALS 0 HINTS 0`, or a deletion `ID d IDS 0`.
//! - A reader gives the value of the text, or exactly its first fault: the line and the code.
#![tactic(auto)]

mod body;
mod clause_reader;
mod cnf;
mod cnf_text;
mod fault;
mod header;
mod line_faults;
mod line_step;
mod lrat_line;
mod lrat_text;
mod number;
mod print;
mod proof;
mod reading;
mod refuting;

pub use cnf::Cnf;
pub use cnf_text::read_cnf;
pub use fault::{TextFault, TextRefusal};
pub use lrat_text::check_lrat;
pub use print::{print_cnf, print_lrat};
pub use proof::Proof;
pub use reading::read_lrat;
pub use refuting::{refutation_proof, refutations_check};
