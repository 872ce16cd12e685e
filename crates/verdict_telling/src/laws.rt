// A law of what is left open.
ghost use Rattle.verdict_telling.specs.Deciding.{OpenIsSmall};

/// A law: a budget that leaves the question of the log or of some event open is below 3 to the number of the book's variables.
pub fn open_is_small()
    ensures { OpenIsSmall }
{}
