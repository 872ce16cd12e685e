// The laws of questions over steps, logs and counters.
ghost use Rattle.run_decode.specs.Decided.{FaithfulDecides, NoneIsLeast, QuestionIsDecided, RefutedIsDecided};
ghost use Rattle.run_decode.specs.DecodedRuns.{DecodedExplains, FaultLiteralsStay, FaultsAreInputs};
ghost use Rattle.run_decode.specs.RunNaming.{BesideOneNaming, CodedAlarmsStand, CodedRunsExplain, TruthsAreRead};
ghost use Rattle.run_decode.specs.WholeNaming.{ClausesBegin, ClausesGrow, TogetherAreFew, TogetherAsk, TogetherBegins, TogetherGrow, TogetherOneNaming, RoomIsFree};
ghost use Rattle.run_decode.specs.QuestionLaws.{BoundIsRead, InstancesStay, PartsAreAssumed, PartsMakeQuestion, QuestionGivesExplanations, QuestionIsDrawn, QuestionIsFaithful};
ghost use Rattle.run_decode.specs.QuestionAxioms.{ColumnsAreCounted, QuestionBegins};
ghost use Rattle.run_decode.specs.Tells.{FaithfulTells};

// ---- what a question says

/// A law: what asks a question, over a network and a valid log, is faithful.
pub fn question_is_faithful()
    ensures { QuestionIsFaithful }
{}

/// A law: what asks a question is drawn from its families.
pub fn question_is_drawn()
    ensures { QuestionIsDrawn }
{}

/// A law: an instance stays one when the log gets an alarm or a pair, and further variables get meanings.
pub fn instances_stay()
    ensures { InstancesStay }
{}

// ---- a question from its parts

/// A law: the clauses of the steps, of the log and of the counter together are those of a question.
pub fn parts_make_question()
    ensures { PartsMakeQuestion }
{}

/// A law: guards and bound together are the assumptions of a question.
pub fn parts_are_assumed()
    ensures { PartsAreAssumed }
{}

/// A law: a counter's literal for at most k inputs is the bound.
pub fn bound_is_read()
    ensures { BoundIsRead }
{}

/// A law: literals that are the inputs of the counter by some meanings still are by more.
pub fn fault_literals_stay()
    ensures { FaultLiteralsStay }
{}

// ---- a question that is coded on variables of its own

/// A law: steps, log and counter that are coded together have one naming.
pub fn together_one_naming()
    ensures { TogetherOneNaming }
{}

/// A law: steps, log and a counter without columns are coded together.
pub fn together_begins()
    ensures { TogetherBegins }
{}

/// A law: they still are after an addition to the log, and after a further column.
pub fn together_grow()
    ensures { TogetherGrow }
{}

/// A law: they still are, with the same clauses, if the counter has room for further inputs.
pub fn room_is_free()
    ensures { RoomIsFree }
{}

/// A law: up to the most columns they have no more variables than the bound on those of a question.
pub fn together_are_few()
    ensures { TogetherAreFew }
{}

/// A law: their clauses are those of the steps and of the log before the counter has a column.
pub fn clauses_begin()
    ensures { ClausesBegin }
{}

/// A law: the clauses of a draft, and of a further column, are added to them.
pub fn clauses_grow()
    ensures { ClausesGrow }
{}

/// A law: by their naming their clauses ask a question, with the guards and, for a bound, the counter's literal.
pub fn together_ask()
    ensures { TogetherAsk }
{}

// ---- what its refutation decides

/// A law: a faithful question that is refuted is decided.
pub fn faithful_decides()
    ensures { FaithfulDecides }
{}

/// A law: a clause of negated assumptions that a faithful question's clauses entail decides it.
pub fn refuted_is_decided()
    ensures { RefutedIsDecided }
{}

/// A law: it decides what clauses and assumptions ask.
pub fn question_is_decided()
    ensures { QuestionIsDecided }
{}

/// A law: an explanation without a fault has the least number of them.
pub fn none_is_least()
    ensures { NoneIsLeast }
{}

/// A law: a faithful question tells what explains within its bound.
pub fn faithful_tells()
    ensures { FaithfulTells }
{}

// ---- what its assignments give

/// A law: the events of the steps, with an order of the alarms, have as many faults as inputs of the counter are true.
pub fn faults_are_inputs()
    ensures { FaultsAreInputs }
{}

/// A law: an assignment that makes the clauses of steps and log and the guards true gives an explanation, with as many faults as fault variables are true.
pub fn decoded_explains()
    ensures { DecodedExplains }
{}

/// A law: one that makes a whole question true gives an explanation within its bound.
pub fn question_gives_explanations()
    ensures { QuestionGivesExplanations }
{}

// ---- and so for steps and a log as they were coded

/// A law: steps and a log that is coded beside their events have one naming.
pub fn beside_one_naming()
    ensures { BesideOneNaming }
{}

/// A law: the truth of meanings by it is that of the variables of events, and of the alarms by the log's own meanings.
pub fn truths_are_read()
    ensures { TruthsAreRead }
{}

/// A law: an assignment that makes their clauses and the guards true gives an explanation, with as many faults as variables of fault events and of false alarms are true.
pub fn coded_runs_explain()
    ensures { CodedRunsExplain }
{}

/// A law: there the alarm of an event by the log's own meanings is the one that stands for it.
pub fn coded_alarms_stand()
    ensures { CodedAlarmsStand }
{}

// ---- what is built is determined

/// A law: steps, a log and a counter without columns, each on the next variables, are the question without columns, and their clauses its axioms.
pub fn question_begins()
    ensures { QuestionBegins }
{}

/// A law: a question has as many columns as were built.
pub fn columns_are_counted()
    ensures { ColumnsAreCounted }
{}
