// Literals by their numbers, and lists of them.
ghost use Rattle.std.specs.Prelude.{◌≡◌, true};
ghost use Rattle.prop_core.specs.Clauses.{HasValues};

use prop_core::{Clauses, Lit};

// The variables and their negations, by their numbers: twice the variable, and one more where it is the variable itself.
pub const NO_0: u32 = 0;

pub const YES_0: u32 = 1;

pub const NO_1: u32 = 2;

pub const YES_1: u32 = 3;

pub const YES_2: u32 = 5;

// Appends clauses of three literals at most, and says whether it could.
pub fn push_all(clauses: &mut Clauses, more: &[&[u32]]) -> bool {
    for numbers in more {
        let mut literals = [Lit::numbered(0); 3];
        let count = numbers.len().min(3);
        for place in 0..count {
            literals[place] = Lit::numbered(numbers[place]);
        }
        if clauses.push(&literals[..count]).is_err() {
            return false;
        }
    }
    true
}

// Whether the variables are below a number.
pub fn are_below(literals: &[Lit], vars: u32) -> bool
    ensures { result ≡ true → HasValues vars literals.now }
{
    literals.iter().all(|lit| lit.var() < vars)
}
