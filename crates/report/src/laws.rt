// What printed runs and replies read back as.
ghost use Rattle.report.specs.ReadBack.{PrintedRunsReadBack, RepliesReadBack, RepliesFit};
ghost use Rattle.report.specs.VerdictTexts.{RunsFit};

/// A printed run reads back as that run, if its events are the network's, its alarms have names, and it has no more steps
/// than a run text may have.
pub fn runs_read_back()
    ensures { PrintedRunsReadBack }
{}

/// A reply that has a run reads back as that run too, with nothing cut off.
pub fn replies_read_back()
    ensures { RepliesReadBack }
{}

/// Such a reply is no longer than a run text may be.
pub fn replies_fit()
    ensures { RepliesFit }
{}

/// A printed run is no longer than a run text may be either, if its alarms have names and it has no more steps than such a text.
pub fn runs_fit()
    ensures { RunsFit }
{}
