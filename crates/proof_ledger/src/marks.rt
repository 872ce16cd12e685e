// Marks on literals.
ghost use Rattle.std.specs.Prelude.{◌≡◌, ℕ, ◌==◌, true, false, [], ◌<◌, ◌^◌, vec_len, OnOk, OnErr, slice_index_or, if◌then◌else◌};
ghost use Rattle.prop_core.specs.Clauses.{negation};
ghost use Rattle.prop_core.specs.LiteralNumbers.{literal_number};
ghost use Rattle.proof_ledger.specs.Marks.{AreMarked};

use des_base::Memory;
use prop_core::Lit;

// Where the mark of a literal stands.
pub fn place(lit: Lit) -> usize
    ensures place { result ≡ literal_number lit }
    ensures small { result < 2 ^ 34 }
{
    lit.number() as usize
}

// Whether the literal is marked.
pub fn marked(marks: &[bool], lit: Lit) -> bool
    ensures { result ≡ slice_index_or marks.now (literal_number lit) false }
{
    let place = place(lit);
    if place < marks.len() {
        marks[place]
    } else {
        false
    }
}

// Whether a literal is marked, and whether its negation is.
#[derive(Clone, Copy)]
pub struct MarkPair {
    pub itself: bool,
    pub negation: bool,
}

// The marks of a literal and of its negation, which stand side by side.
pub fn mark_pair(marks: &[bool], lit: Lit) -> MarkPair
    ensures itself { result.itself ≡ slice_index_or marks.now (literal_number lit) false }
    ensures negation { result.negation ≡ slice_index_or marks.now (literal_number (negation lit)) false }
{
    let negative = 2 * lit.var() as usize;
    if negative + 1 >= marks.len() {
        return MarkPair {
            itself: marked(marks, lit),
            negation: marked(marks, lit.negated()),
        };
    }
    let (first, second) = (marks[negative], marks[negative + 1]);
    if lit.is_positive() {
        MarkPair {
            itself: second,
            negation: first,
        }
    } else {
        MarkPair {
            itself: first,
            negation: second,
        }
    }
}

// Marks a place.
pub fn mark(marks: &mut Vec<bool>, place: usize)
    requires { place < vec_len marks.old }
    ensures { (k : ℕ) → slice_index_or marks.new.items k false ≡ (if k == place then true else slice_index_or marks.old.items k false) }
{
    marks[place] = true;
}

// Makes room for the mark of a place.
pub fn grow(marks: &mut Vec<bool>, place: usize) -> Result<(), Memory>
    requires { place < 2 ^ 34 }
    ensures room { OnOk result (place < vec_len marks.new) }
    ensures ok { OnOk result ((k : ℕ) → slice_index_or marks.new.items k false ≡ slice_index_or marks.old.items k false) }
    ensures err { OnErr result (marks.new.items ≡ marks.old.items) }
{
    if place >= marks.len() {
        // the mark of its negation stands beside it
        marks.resize(place + 2, false)?;
    }
    Ok(())
}

fn unmark(marks: &mut Vec<bool>, place: usize)
    ensures { (k : ℕ) → slice_index_or marks.new.items k false ≡ (if k == place then false else slice_index_or marks.old.items k false) }
{
    if place < marks.len() {
        marks[place] = false;
    }
}

// Takes the marks of all literals that are taken away.
pub fn unmark_all(marks: &mut Vec<bool>, taken: &[Lit])
    requires { AreMarked marks.old.items taken.now }
    ensures { AreMarked marks.new.items [] }
{
    for lit in taken {
        unmark(marks, place(*lit));
    }
}
