// What the order of the variables that are suggested comes to.
ghost use Rattle.sat_solve.specs.Heap.{VariablesAreOrdered};

/// A law: variables stand in one strict order, whatever their activities and ranks.
pub fn variables_are_ordered()
    ensures { VariablesAreOrdered }
{}
