// The laws of derivation and of meanings.
ghost use Rattle.prop_core.specs.Grids.{GridsAreInjective};
ghost use Rattle.prop_core.specs.Laws.{DerivedClausesAreTrue};
ghost use Rattle.prop_core.specs.Listings.{ListedAreWritten, ListedAreEqual, ListedAreCode};
ghost use Rattle.prop_core.specs.NamedClauses.{AssignmentsMatch, ValuesMatch};

/// A law: a clause that derives is true under each assignment that makes the held clauses true.
pub fn derived_clauses_are_true()
    ensures { DerivedClausesAreTrue }
{}

/// A law: two cells of a grid with one variable are one cell.
#[tactic(auto, using(crate::proofs::GridLemmas::grids_are_injective))]
pub fn grids_are_injective()
    ensures { GridsAreInjective }
{}

/// A law: the truth of variables gives that of their meanings.
#[tactic(auto, using(crate::proofs::NameLemmas::values_match))]
pub fn values_match()
    ensures { ValuesMatch }
{}

/// A law: the truth of meanings gives that of their variables, and any other variable keeps its own.
#[tactic(auto, using(crate::proofs::NameLemmas::assignments_match))]
pub fn assignments_match()
    ensures { AssignmentsMatch }
{}

/// A law: clauses that are listed by a naming are written by it.
pub fn listed_are_written()
    ensures { ListedAreWritten }
{}

/// A law: by one naming, one listing is of one list of clauses.
pub fn listed_are_equal()
    ensures { ListedAreEqual }
{}

/// A law: listed clauses are those of the family whose clauses are in the listing.
pub fn listed_are_code()
    ensures { ListedAreCode }
{}
