// "At most one" of some literals is true: a clause for each pair, or a chain.
ghost use Rattle.std.specs.Prelude.{◌≡◌, ◌+◌, ◌*◌, ◌-◌, ◌<◌, ◌≤◌, ◌++◌, length, map, OnOk, OnErr};
ghost use Rattle.des_base.specs.ChainCount.{chain_count};
ghost use Rattle.des_base.specs.declared.TheConstants.{VAR_LIMIT};
ghost use Rattle.card_counter.specs.AtMostOne.{not_both, excluded_pairs, chain_clauses, link_clauses, exclusion_clauses, AllowsAtMostOne};

use des_base::Memory;
use prop_core::{Clauses, Lit, Vars};

// Up to this many inputs have a clause for each pair. More inputs have a chain.
const MOST_PAIRED: usize = 4;

/// Adds that at most one of the inputs is true.
///
/// At most four inputs have a clause for each pair, and no new variables. More inputs have a chain of new variables, one
/// for each input but the last, of which each says that one of the inputs so far is true. It uses up reserved room.
pub fn at_most_one(inputs: &[Lit], vars: &mut Vars, out: &mut Clauses) -> Result<(), Memory>
    requires room { vars.old + chain_count (length inputs.now) ≤ VAR_LIMIT }
    ensures clauses { OnOk result (out.new.clauses ≡ out.old.clauses ++ exclusion_clauses inputs.now vars.old) }
    ensures exact { AllowsAtMostOne inputs.now vars.old (exclusion_clauses inputs.now vars.old) }
    ensures vars { OnOk result (vars.new ≡ vars.old + chain_count (length inputs.now)) }
    ensures err_clauses { OnErr result (out.new ≡ out.old) }
    ensures err_vars { OnErr result (vars.new ≡ vars.old) }
{
    if inputs.len() <= MOST_PAIRED {
        exclude_pairs(inputs, out)
    } else {
        add_chain(inputs, vars, out)
    }
}

/// How many variables an "at most one" of `inputs` inputs makes.
pub fn chain_count(inputs: u32) -> u32
    ensures { result ≡ chain_count inputs }
{
    if inputs as usize <= MOST_PAIRED {
        0
    } else {
        inputs - 1
    }
}

// Adds a clause for each pair of the inputs, that not both are true.
fn exclude_pairs(inputs: &[Lit], out: &mut Clauses) -> Result<(), Memory>
    ensures pairs { OnOk result (out.new.clauses ≡ out.old.clauses ++ excluded_pairs inputs.now) }
    ensures err { OnErr result (out.new ≡ out.old) }
{
    let count = inputs.len();
    let Some(lits) = count.checked_mul(count.saturating_sub(1)) else {
        return Err(Memory);
    };
    out.reserve(lits / 2, lits)?;
    push_pairs(inputs, out);
    Ok(())
}

// Adds the clauses of all pairs, in room that is there.
fn push_pairs(inputs: &[Lit], out: &mut Clauses)
    requires clauses { length (excluded_pairs inputs.now) ≤ out.old.spare_clauses }
    requires literals { 2 * length (excluded_pairs inputs.now) ≤ out.old.spare_literals }
    ensures { out.new.clauses ≡ out.old.clauses ++ excluded_pairs inputs.now }
{
    for (place, input) in inputs.iter().enumerate() {
        exclude_each(&inputs[..place], *input, out);
    }
}

// Adds that the later input isn't true together with an earlier one, in room that is there.
fn exclude_each(earlier: &[Lit], later: Lit, out: &mut Clauses)
    requires clauses { length earlier.now ≤ out.old.spare_clauses }
    requires literals { 2 * length earlier.now ≤ out.old.spare_literals }
    ensures added { out.new.clauses ≡ out.old.clauses ++ map (not_both later) earlier.now }
    ensures spare_clauses { out.new.spare_clauses + length earlier.now ≡ out.old.spare_clauses }
    ensures spare_literals { out.new.spare_literals + 2 * length earlier.now ≡ out.old.spare_literals }
{
    for input in earlier {
        out.push_reserved(&[input.negated(), later.negated()]);
    }
}

// Adds a chain over the inputs, and makes its variables.
fn add_chain(inputs: &[Lit], vars: &mut Vars, out: &mut Clauses) -> Result<(), Memory>
    requires some { 2 ≤ length inputs.now }
    requires room { vars.old + (length inputs.now - 1) ≤ VAR_LIMIT }
    ensures clauses { OnOk result (out.new.clauses ≡ out.old.clauses ++ chain_clauses inputs.now vars.old) }
    ensures vars { OnOk result (vars.new ≡ vars.old + (length inputs.now - 1)) }
    ensures err_clauses { OnErr result (out.new ≡ out.old) }
    ensures err_vars { OnErr result (vars.new ≡ vars.old) }
{
    let count = inputs.len();
    out.reserve(3 * count - 4, 6 * count - 8)?;
    let first = vars.fresh((count - 1) as u32);
    push_chain(inputs, first, out);
    Ok(())
}

// Adds the clauses of a chain, in room that is there.
fn push_chain(inputs: &[Lit], first: u32, out: &mut Clauses)
    requires some { 2 ≤ length inputs.now }
    requires within { first + (length inputs.now - 1) ≤ VAR_LIMIT }
    requires clauses { 3 * length inputs.now ≤ out.old.spare_clauses + 4 }
    requires literals { 6 * length inputs.now ≤ out.old.spare_literals + 8 }
    ensures { out.new.clauses ≡ out.old.clauses ++ chain_clauses inputs.now first }
{
    for place in 0..inputs.len() - 1 {
        push_link(inputs, first, place, out);
    }
}

// Adds the clauses of one place of a chain: its input opens it, and it shuts out the next input and opens the next place.
fn push_link(inputs: &[Lit], first: u32, place: usize, out: &mut Clauses)
    requires place { place + 1 < length inputs.now }
    requires within { first + (length inputs.now - 1) ≤ VAR_LIMIT }
    requires clauses { 3 * length inputs.now ≤ out.old.spare_clauses + 3 * place + 4 }
    requires literals { 6 * length inputs.now ≤ out.old.spare_literals + 6 * place + 8 }
    ensures added { out.new.clauses ≡ out.old.clauses ++ link_clauses inputs.now first place }
    ensures spare_clauses { out.old.spare_clauses ≤ out.new.spare_clauses + 3 }
    ensures spare_literals { out.old.spare_literals ≤ out.new.spare_literals + 6 }
{
    let open = first + place as u32;
    out.push_reserved(&[inputs[place].negated(), Lit::new(open, true)]);
    out.push_reserved(&[inputs[place + 1].negated(), Lit::new(open, false)]);
    if place + 1 < inputs.len() - 1 {
        out.push_reserved(&[Lit::new(open, false), Lit::new(open + 1, true)]);
    }
}
