// The laws of weighing.
ghost use Rattle.weight_counter.specs.Scales.{ScalesAreExact, ScalesAreSmall};
ghost use Rattle.weight_counter.specs.Weighing.{WeightsAreReached, WeightsAreTrue};

/// A law: if the clauses are true, so is the variable of each place that the inputs reach.
pub fn weights_are_reached()
    ensures { WeightsAreReached }
{}

/// A law: if the variables say exactly what the inputs reach, the clauses are true.
pub fn weights_are_true()
    ensures { WeightsAreTrue }
{}

/// A law: the clauses that a scale writes are those of its inputs, and each place has a variable of its own.
pub fn scales_are_exact()
    ensures { ScalesAreExact }
{}

/// A law: a scale's clauses are few and short, and over its variables and those of its inputs.
pub fn scales_are_small()
    ensures { ScalesAreSmall }
{}
