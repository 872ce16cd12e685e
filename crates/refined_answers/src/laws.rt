// The laws of refinements, and of networks that behave alike.
ghost use Rattle.refined_answers.specs.Laws.{BehaviourGivesAnswers, BehaviourGivesExplanations, BehaviourGivesPieces, BehaviourGivesPrices, BehaviourGivesReplays, BehaviourGivesTotals, BehaviourGivesTwins, BehaviourGivesVerdicts, NetworksRefineThemselves, RefinementsAnswerAlike, RefinementsBehaveAlike, RefinementsGoOn, RefinementsHaveSameRuns};
ghost use Rattle.refined_answers.specs.Sharp.{SharpFollowersTell};

/// A law: a word is a run of a refinement exactly if it is one of the network.
pub fn refinements_have_same_runs()
    ensures { RefinementsHaveSameRuns }
{}

/// A law: refinements have the same events, which touch common components as they do in the network, and the same runs.
pub fn refinements_behave_alike()
    ensures { RefinementsBehaveAlike }
{}

/// A law: each question has the same answer, whether it is asked of the network or of a refinement.
pub fn refinements_answer_alike()
    ensures { RefinementsAnswerAlike }
{}

/// A law: a network refines itself.
pub fn networks_refine_themselves()
    ensures { NetworksRefineThemselves }
{}

/// A law: what refines a refinement refines the network.
pub fn refinements_go_on()
    ensures { RefinementsGoOn }
{}

/// A law: after each run a new component is in `yes` exactly if the one that it follows is in the set, provided that this one always
/// starts in the set or never, and that each event settles whether it is in the set by whether it was.
pub fn sharp_followers_tell()
    ensures { SharpFollowersTell }
{}

/// A law: if networks behave alike, their words take as many pieces and have as many faults.
pub fn behaviour_gives_pieces()
    ensures { BehaviourGivesPieces }
{}

/// A law: if networks behave alike, the same explains a log, with as many faults.
pub fn behaviour_gives_explanations()
    ensures { BehaviourGivesExplanations }
{}

/// A law: if networks behave alike, explanations have the same totals.
pub fn behaviour_gives_totals()
    ensures { BehaviourGivesTotals }
{}

/// A law: if networks behave alike, each event has the same verdict.
pub fn behaviour_gives_verdicts()
    ensures { BehaviourGivesVerdicts }
{}

/// A law: if networks behave alike, the same runs are twins.
pub fn behaviour_gives_twins()
    ensures { BehaviourGivesTwins }
{}

/// A law: if networks behave alike, a run is read from its text and replayed with the same answer.
pub fn behaviour_gives_replays()
    ensures { BehaviourGivesReplays }
{}

/// A law: if networks behave alike, a text of costs gives the same costs.
pub fn behaviour_gives_prices()
    ensures { BehaviourGivesPrices }
{}

/// A law: if networks behave alike, each question has the same answer.
pub fn behaviour_gives_answers()
    ensures { BehaviourGivesAnswers }
{}
