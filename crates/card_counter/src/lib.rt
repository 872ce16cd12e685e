//! "At most one" and "at most k" of some literals are true, said in clauses.
//!
//! - *At most one* of at most four inputs is a clause for each pair. Of more inputs it is a chain of new variables, after Sinz
//!   (CP 2005): the variable at an input says that one of the inputs up to this one is true, and shuts out the next.
//! - *At most k* is said by a counter, after the same paper: in column j the variable at input i stands for "of the inputs up
//!   to this one at least j + 1 are true". A counter grows by columns, and says with k + 1 of them that at most k inputs are
//!   true: this is one literal, which is to be assumed and is no clause, so that the next bound can be asked for without writing
//!   anything again.
//!
//! Both are exact: by a change of new variables alone the clauses can be made true exactly if at most that many inputs are. Clauses
//! of both are known as well by the meanings of their variables, whichever variables those are.
#![tactic(auto)]

mod counter;
mod exclusion;
mod laws;

pub use counter::Counter;
pub use exclusion::{at_most_one, chain_count};
pub use laws::{
    column_is_code, columns_add_clauses, columns_add_meanings, counter_is_code, counter_is_exact,
    counter_meanings_grow, counter_meanings_stand, exclusion_is_code, exclusion_is_complete,
    exclusion_is_exact, exclusion_is_listed, exclusion_is_sound, exclusions_are_listed,
    inputs_add_clauses, inputs_grow, many_inputs_add, named_columns_grow, named_count_is_exact,
};
