// What an analysis looks at, and what is known of it.
use prop_core::Clauses;
use sat_prop::Trail;

// A trail, the clauses of the database, and the place from which on the places that are seen are counted.
#[derive(Drop)]
pub struct Analysed<'a> {
    pub trail: &'a Trail,
    pub clauses: &'a Clauses,
    pub start: usize,
}
