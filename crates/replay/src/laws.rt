// The laws of traces, explanations and answers.
ghost use Rattle.replay.specs.Deciding.{ExplainsDecides};
ghost use Rattle.replay.specs.Explanation.{LeastIsOne, AbsentExcludes, ManyIsAbove};
ghost use Rattle.replay.specs.Replayed.{RepliesAreUnique, AcceptedExplains};
ghost use Rattle.replay.specs.Traced.{TracesAreUnique};

/// A word has one trace at most: it can be performed, with a certain number of faults, or else gets stuck at one place.
#[tactic(auto, using(crate::proofs::TraceLemmas::traces_are_unique))]
pub fn traces_are_unique()
    ensures { TracesAreUnique }
{}

/// One number of faults is least at most.
pub fn least_is_one()
    ensures { LeastIsOne }
{}

/// If nothing explains a log, no number of faults is least, and there aren't many.
pub fn absent_excludes()
    ensures { AbsentExcludes }
{}

/// A least number of faults is above `MOST_FAULTS` if each explanation has more.
pub fn many_is_above()
    ensures { ManyIsAbove }
{}

/// A word and an order of the alarms explain a log exactly if the test says so.
pub fn explains_decides()
    ensures { ExplainsDecides }
{}

/// A run has one answer at most when it is replayed.
pub fn replies_are_unique()
    ensures { RepliesAreUnique }
{}

/// A run is accepted exactly if it is well matched, and its events explain the log with its alarms.
pub fn accepted_explains()
    ensures { AcceptedExplains }
{}
