// How a clause stands by the trail.
use prop_core::Lit;

// All its literals are false, or all but one open literal; or there is nothing to do.
#[derive(Clone, Copy)]
pub enum Stands {
    False,
    Unit(Lit),
    Quiet,
}
