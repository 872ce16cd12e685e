// Formulas of three literals a clause.
use prop_core::{Clauses, Lit};

// Appends clauses that are drawn by a linear congruential generator, and says whether it could: of its upper 31 bits, the lowest is the sign of
// a literal, and the others, modulo the number of variables, are its variable.
pub fn drawn(seed: u64, vars: u32, count: u32, clauses: &mut Clauses) -> bool {
    let mut state = seed;
    for _ in 0..count {
        let one = draw(&mut state, vars);
        let two = draw(&mut state, vars);
        let three = draw(&mut state, vars);
        if clauses.push(&[one, two, three]).is_err() {
            return false;
        }
    }
    true
}

fn draw(state: &mut u64, vars: u32) -> Lit {
    *state = state
        .wrapping_mul(6_364_136_223_846_793_005)
        .wrapping_add(1_442_695_040_888_963_407);
    let bits = *state / 8_589_934_592;
    let var = bits / 2 % vars.max(1) as u64;
    Lit::numbered((2 * var + bits % 2) as u32)
}
