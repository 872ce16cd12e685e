// The laws of costs.
ghost use Rattle.cost_least.specs.Drawn.{BoundsAreNotStated};
ghost use Rattle.cost_least.specs.Pricing.{CostsAreTold, CostsAreWeights};
ghost use Rattle.cost_least.specs.Searching.{CostsAreRuledOut};
ghost use Rattle.cost_least.specs.Weighed.{ScaledPartsTell};

/// A law: what a run costs with an order of the alarms is what the true inputs of the scale weigh.
pub fn costs_are_weights()
    ensures { CostsAreWeights }
{}

/// A law: a question with a scale beside it tells what explains within a bound on the total, and is drawn from the families of
/// question and scale.
pub fn costs_are_told()
    ensures { CostsAreTold }
{}

/// A law: no clause of these families is a literal of the scale alone, such as would state a bound on the total.
pub fn bounds_are_not_stated()
    ensures { BoundsAreNotStated }
{}

/// A law: the parts of a question with a scale tell what explains the log within each total, and are drawn from those families.
pub fn scaled_parts_tell()
    ensures { ScaledPartsTell }
{}

/// A law: a clause of negated assumptions that the axioms entail rules out what they tell: nothing explains, or all that does has a
/// greater total.
pub fn costs_are_ruled_out()
    ensures { CostsAreRuledOut }
{}
