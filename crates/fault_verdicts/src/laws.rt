// The laws of verdicts.
ghost use Rattle.fault_verdicts.specs.Telling.{EventsArePosed};
ghost use Rattle.fault_verdicts.specs.Verdicts.{VerdictsAreApart};

/// A law: a question with the variables of verdicts beside it asks which explanations have an event, and which haven't.
pub fn events_are_posed()
    ensures { EventsArePosed }
{}

/// A law: the verdicts exclude each other.
pub fn verdicts_are_apart()
    ensures { VerdictsAreApart }
{}
