// A formula with the bound on its variables.
use prop_core::Clauses;

/// A formula in conjunctive normal form, over the variables 0 up to `vars`, without `vars` itself.
#[derive(Drop)]
pub struct Cnf {
    pub vars: u32,
    pub clauses: Clauses,
}
