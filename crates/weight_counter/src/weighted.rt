// An input with its weight.
use prop_core::Lit;

/// A literal, and what it weighs where it is true.
#[derive(Clone, Copy)]
pub struct Weighted {
    pub input: Lit,
    pub weight: u32,
}
