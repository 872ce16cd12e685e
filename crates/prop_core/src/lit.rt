// A literal.
ghost use Rattle.std.specs.Prelude.{◌≡◌, ◌<◌, ◌^◌};
ghost use Rattle.std.specs.Cmp.{partial_equiv_from_equiv};
ghost use Rattle.prop_core.specs.Clauses.{negation, same_literal};
ghost use Rattle.prop_core.specs.LiteralNumbers.{literal_number, numbered_literal};
ghost use Rattle.prop_core.specs.SameLiterals.{same_literal_equiv};

use des_base::VAR_LIMIT;
use std::marker::Model;

/// A variable or its negation. Variables are counted from 0.
///
/// It is kept as its number, in four bytes.
#[derive(Clone, Copy)]
pub struct Lit {
    number: u32,
}

impl Model for Lit {
    ghost use Rattle.prop_core.specs.Literal.{Literal};

    ghost Value = { Literal };

    ghost use Rattle.prop_core.specs.LiteralNumbers.{literal_number, numbered_literal, number_back};

    ghost view = { λ a. numbered_literal a.number };

    ghost inverse = { λ l. record { number = literal_number l } };

    ghost inverse_ok = { λ a _. rw (number_back a.number) (λ i. a) };
}

impl Lit {
    /// The variable itself, or its negation.
    pub fn new(var: u32, positive: bool) -> Lit
        requires { var < VAR_LIMIT }
        ensures { result ≡ record { var = var; positive = positive } }
    {
        let sign: u32 = if positive { 1 } else { 0 };
        Lit {
            number: 2 * var + sign,
        }
    }

    /// The variable.
    pub fn var(self) -> u32
        ensures { result ≡ self.var }
    {
        self.number / 2
    }

    /// Whether it is the variable itself.
    pub fn is_positive(self) -> bool
        ensures { result ≡ self.positive }
    {
        self.number % 2 == 1
    }

    /// The same variable with the other sign.
    pub fn negated(self) -> Lit
        ensures { result ≡ negation self }
    {
        let number = if self.is_positive() {
            self.number - 1
        } else {
            self.number + 1
        };
        Lit { number }
    }

    /// Its number: twice its variable, and one more where it is the variable itself. So a list can keep something of each literal.
    pub fn number(self) -> u64
        ensures value { result ≡ literal_number self }
        ensures small { result < 2 ^ 33 }
    {
        self.number as u64
    }

    /// The literal of this number.
    pub fn numbered(number: u32) -> Lit
        ensures { result ≡ numbered_literal number }
    {
        Lit { number }
    }
}

impl PartialEq for Lit {
    ghost eq = { same_literal };

    ghost laws = { partial_equiv_from_equiv same_literal_equiv };

    #[tactic(auto, using(crate::proofs::LiteralNumbers::same_number))]
    fn eq(&self, other: &Lit) -> bool {
        self.number == other.number
    }
}

impl Eq for Lit {
    ghost laws = { same_literal_equiv };
}
