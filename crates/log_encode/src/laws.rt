// The laws of what was written for a log.
ghost use Rattle.log_encode.specs.Nameless.{NamesDontMatter};
ghost use Rattle.log_encode.specs.WrittenLog.{WrittenGrows, WrittenIsExact};
ghost use Rattle.log_encode.specs.BuiltLog.{DraftIsBuilt, FirstIsBuilt};

/// A law: with the clauses of a draft that is committed, what was written is the code of the longer log.
pub fn written_grows()
    ensures { WrittenGrows }
{}

/// A law: with the guards, what was written says exactly what explains the log, and without them every run goes with it.
pub fn written_is_exact()
    ensures { WrittenIsExact }
{}

/// A law: what explains a log doesn't depend on the names of its alarms. So what is said of a code whose alarms were drafted
/// without them is true of each log that they are of.
pub fn names_dont_matter()
    ensures { NamesDontMatter }
{}

/// A law: a draft on the next variables has the clauses that the code and the addition determine.
pub fn draft_is_built()
    ensures { DraftIsBuilt }
{}

/// A law: the empty log has the clauses that its code determines.
pub fn first_is_built()
    ensures { FirstIsBuilt }
{}
