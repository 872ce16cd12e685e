// Clauses that weigh inputs.
ghost use Rattle.std.specs.Prelude.{◌≡◌, ◌+◌, ◌*◌, ◌-◌, ◌<◌, ◌≤◌, [], ◌∷◌, length, map, min, slice_get, Some, IfOk, OnErr};
ghost use Rattle.des_base.specs.Lists.{numbers_below};
ghost use Rattle.des_base.specs.declared.TheConstants.{VAR_LIMIT};
ghost use Rattle.card_counter.specs.CounterState.{negative};
ghost use Rattle.card_counter.specs.Growing.{AddsWithin, HasRoom};
ghost use Rattle.weight_counter.specs.Scales.{AddsScale, IsWithinVars, kept_before, alone_at, raised_at, kept_clause, alone_clause, raised_clause, weight_clauses, scale_clauses, place_variable};

use crate::weighted::Weighted;
use des_base::{Memory, VAR_LIMIT};
use prop_core::{Clauses, Lit, Vars};

/// The variables of a counter of weights: for each input one after another, and within an input for each amount.
#[derive(Clone, Copy)]
pub struct Scale {
    /// The first variable.
    pub first: u32,
    /// How many inputs there are.
    pub inputs: u32,
    /// How many amounts are distinguished, from 1 on.
    pub amounts: u32,
}

impl Scale {
    /// Adds clauses that weigh the inputs, up to `amounts` amounts, with a new variable for each input and amount. It uses up
    /// reserved room.
    ///
    /// Inputs may be negations, and one literal may stand among them more than once; then it weighs as often.
    pub fn new(
        inputs: &[Weighted],
        amounts: u32,
        vars: &mut Vars,
        out: &mut Clauses,
    ) -> Result<Scale, Memory>
        requires some { 1 ≤ amounts }
        requires within { vars.old + length inputs.now * amounts ≤ VAR_LIMIT }
        ensures added { IfOk result (λ scale. AddsScale inputs.now amounts vars.old out.old.clauses scale vars.new out.new.clauses) }
        ensures err_clauses { OnErr result (out.new ≡ out.old) }
        ensures err_vars { OnErr result (vars.new ≡ vars.old) }
    {
        let count = count_of(inputs, amounts);
        let places = count * amounts;
        out.reserve(2 * places as usize, 5 * places as usize)?;
        let scale = Scale {
            first: vars.fresh(places),
            inputs: count,
            amounts,
        };
        scale.push_inputs(inputs, out);
        Ok(scale)
    }

    /// The literal that says that the inputs weigh at most b.
    pub fn bound_lit(&self, b: u32) -> Lit
        requires some { 0 < self.now.inputs }
        requires few { b < self.now.amounts }
        requires within { IsWithinVars self.now }
        ensures { result ≡ negative (place_variable self.now (self.now.inputs - 1) b) }
    {
        Lit::new(self.var(self.inputs - 1, b), false)
    }

    // The variable of an input and an amount, both from 0.
    #[tactic(auto, using(crate::proofs::Places::within_scale))]
    fn var(&self, place: u32, amount: u32) -> u32
        requires place { place < self.now.inputs }
        requires amount { amount < self.now.amounts }
        requires within { IsWithinVars self.now }
        ensures variable { result ≡ place_variable self.now place amount }
        ensures small { result < VAR_LIMIT }
    {
        self.first + place * self.amounts + amount
    }

    // Adds the clauses of all inputs, in room that is there.
    fn push_inputs(&self, inputs: &[Weighted], out: &mut Clauses)
        requires count { length inputs.now ≡ self.now.inputs }
        requires within { IsWithinVars self.now }
        requires room { HasRoom out.old (2 * (self.now.inputs * self.now.amounts)) (5 * (self.now.inputs * self.now.amounts)) }
        ensures { AddsWithin out.old (scale_clauses (place_variable self.now) self.now.amounts inputs.now) (2 * (self.now.inputs * self.now.amounts)) (5 * (self.now.inputs * self.now.amounts)) out.new }
    {
        for place in 0..self.inputs {
            let x = input_at(inputs, place);
            self.push_input(place, x, out);
        }
    }

    // Adds the clauses of one input.
    fn push_input(&self, place: u32, x: &Weighted, out: &mut Clauses)
        requires place { place < self.now.inputs }
        requires within { IsWithinVars self.now }
        requires room { HasRoom out.old (2 * self.now.amounts) (5 * self.now.amounts) }
        ensures { AddsWithin out.old (weight_clauses (place_variable self.now) self.now.amounts place x.now) (2 * self.now.amounts) (5 * self.now.amounts) out.new }
    {
        self.push_kept(place, out);
        self.push_alone(place, x, out);
        self.push_raised(place, x, out);
    }

    // Adds that the inputs up to this place reach what those before it do. Before the first there are none.
    fn push_kept(&self, place: u32, out: &mut Clauses)
        requires place { place < self.now.inputs }
        requires within { IsWithinVars self.now }
        requires room { HasRoom out.old self.now.amounts (2 * self.now.amounts) }
        ensures { AddsWithin out.old (kept_before (place_variable self.now) self.now.amounts place) self.now.amounts (2 * self.now.amounts) out.new }
    {
        if place > 0 {
            self.keep_each(place - 1, out);
        }
    }

    // Adds what the next inputs keep of each amount.
    fn keep_each(&self, before: u32, out: &mut Clauses)
        requires place { before + 1 < self.now.inputs }
        requires within { IsWithinVars self.now }
        requires room { HasRoom out.old self.now.amounts (2 * self.now.amounts) }
        ensures { AddsWithin out.old (map (kept_clause (place_variable self.now) before) (numbers_below self.now.amounts)) self.now.amounts (2 * self.now.amounts) out.new }
    {
        for amount in 0..self.amounts {
            self.keep(before, amount, out);
        }
    }

    // Adds what the next inputs keep of one amount.
    fn keep(&self, before: u32, amount: u32, out: &mut Clauses)
        requires place { before + 1 < self.now.inputs }
        requires amount { amount < self.now.amounts }
        requires within { IsWithinVars self.now }
        requires room { HasRoom out.old 1 2 }
        ensures { AddsWithin out.old (kept_clause (place_variable self.now) before amount ∷ []) 1 2 out.new }
    {
        let reached = self.var(before, amount);
        let kept = self.var(before + 1, amount);
        out.push_reserved(&[Lit::new(reached, false), Lit::new(kept, true)]);
    }

    // Adds that a true input reaches each amount up to its weight, whatever is before it.
    fn push_alone(&self, place: u32, x: &Weighted, out: &mut Clauses)
        requires place { place < self.now.inputs }
        requires within { IsWithinVars self.now }
        requires room { HasRoom out.old (min x.now.weight self.now.amounts) (2 * min x.now.weight self.now.amounts) }
        ensures { AddsWithin out.old (alone_at (place_variable self.now) self.now.amounts place x.now) (min x.now.weight self.now.amounts) (2 * min x.now.weight self.now.amounts) out.new }
    {
        for amount in 0..x.weight.min(self.amounts) {
            self.add_alone(place, amount, x.input, out);
        }
    }

    // Adds that a true input reaches one amount.
    fn add_alone(&self, place: u32, amount: u32, input: Lit, out: &mut Clauses)
        requires place { place < self.now.inputs }
        requires amount { amount < self.now.amounts }
        requires within { IsWithinVars self.now }
        requires room { HasRoom out.old 1 2 }
        ensures { AddsWithin out.old (alone_clause (place_variable self.now) place input amount ∷ []) 1 2 out.new }
    {
        let reached = self.var(place, amount);
        out.push_reserved(&[input.negated(), Lit::new(reached, true)]);
    }

    // Adds that a true input reaches its weight more than those before it.
    fn push_raised(&self, place: u32, x: &Weighted, out: &mut Clauses)
        requires place { place < self.now.inputs }
        requires within { IsWithinVars self.now }
        requires room { HasRoom out.old (self.now.amounts - x.now.weight) (3 * (self.now.amounts - x.now.weight)) }
        ensures { AddsWithin out.old (raised_at (place_variable self.now) self.now.amounts place x.now) (self.now.amounts - x.now.weight) (3 * (self.now.amounts - x.now.weight)) out.new }
    {
        if place > 0 {
            self.raise_each(place - 1, x, out);
        }
    }

    // Adds what a true input raises each amount to.
    fn raise_each(&self, before: u32, x: &Weighted, out: &mut Clauses)
        requires place { before + 1 < self.now.inputs }
        requires within { IsWithinVars self.now }
        requires room { HasRoom out.old (self.now.amounts - x.now.weight) (3 * (self.now.amounts - x.now.weight)) }
        ensures { AddsWithin out.old (map (raised_clause (place_variable self.now) before x.now) (numbers_below (self.now.amounts - x.now.weight))) (self.now.amounts - x.now.weight) (3 * (self.now.amounts - x.now.weight)) out.new }
    {
        for amount in 0..self.amounts.saturating_sub(x.weight) {
            self.raise(before, amount, x, out);
        }
    }

    // Adds what a true input raises one amount to.
    fn raise(&self, before: u32, amount: u32, x: &Weighted, out: &mut Clauses)
        requires place { before + 1 < self.now.inputs }
        requires amount { amount + x.now.weight < self.now.amounts }
        requires within { IsWithinVars self.now }
        requires room { HasRoom out.old 1 3 }
        ensures { AddsWithin out.old (raised_clause (place_variable self.now) before x.now amount ∷ []) 1 3 out.new }
    {
        let reached = self.var(before, amount);
        let raised = self.var(before + 1, amount + x.weight);
        out.push_reserved(&[
            Lit::new(reached, false),
            x.input.negated(),
            Lit::new(raised, true),
        ]);
    }
}

// How many inputs there are.
#[tactic(auto, using(crate::proofs::Places::few_inputs))]
fn count_of(inputs: &[Weighted], amounts: u32) -> u32
    requires some { 1 ≤ amounts }
    requires within { length inputs.now * amounts ≤ VAR_LIMIT }
    ensures { result ≡ length inputs.now }
{
    let _ = amounts;
    inputs.len() as u32
}

// The input of this place.
fn input_at(inputs: &[Weighted], place: u32) -> &Weighted
    requires { place < length inputs.now }
    ensures { slice_get inputs.now place ≡ Some result.now }
{
    &inputs[place as usize]
}
