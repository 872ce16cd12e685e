// A law of answers.
ghost use Rattle.least_faults.specs.Deciding.{UndecidedIsSmall};

/// A law: a budget that leaves a question undecided is below 3 to the number of variables that network, log and n allow.
pub fn undecided_is_small()
    ensures { UndecidedIsSmall }
{}
