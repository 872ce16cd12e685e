// The laws of counters and of "at most one": what their clauses say.
ghost use Rattle.card_counter.specs.AtMostOne.{ExclusionIsExact, ExclusionIsCode, ExclusionIsListed};
ghost use Rattle.card_counter.specs.CounterState.{ColumnsAddClauses, ColumnsAddMeanings, InputsAddClauses, InputsGrow, ManyInputsAdd};
ghost use Rattle.card_counter.specs.Counting.{CounterMeaningsGrow, CounterIsExact, NamedCountIsExact, NamedColumnsGrow, CounterIsCode, ColumnIsCode, CounterMeaningsStand};
ghost use Rattle.card_counter.specs.Exclusions.{ExclusionsAreListed, ExclusionIsSound, ExclusionIsComplete};

/// A law: an assignment of the inputs extends to the clauses of an "at most one" exactly if at most one input is true.
pub fn exclusion_is_exact()
    ensures { ExclusionIsExact }
{}

/// A law: by name, the clauses of an "at most one" are those of the meanings that its inputs read as.
pub fn exclusion_is_code()
    ensures { ExclusionIsCode }
{}

/// A law: the clauses of an "at most one" are listed by name one after another, literal by literal.
pub fn exclusion_is_listed()
    ensures { ExclusionIsListed }
{}

/// A law: by name the clauses of an "at most one" are those of a list, at most three for each input.
pub fn exclusions_are_listed()
    ensures { ExclusionsAreListed }
{}

/// A law: if the clauses of an "at most one" are true by name, at most one input is.
pub fn exclusion_is_sound()
    ensures { ExclusionIsSound }
{}

/// A law: if at most one input of each is true, the meanings of all chains can be chosen so that the clauses are true.
pub fn exclusion_is_complete()
    ensures { ExclusionIsComplete }
{}

/// A law: the clauses of a further column come after those of the others.
pub fn columns_add_clauses()
    ensures { ColumnsAddClauses }
{}

/// A law: further inputs come after the others, and the clauses are those that there were and the new ones.
pub fn many_inputs_add()
    ensures { ManyInputsAdd }
{}

/// A law: an assignment extends to a counter's clauses, and with "at most k" exactly if at most k inputs are true.
pub fn counter_is_exact()
    ensures { CounterIsExact }
{}

/// A law: by name, each truth of the inputs extends to a counter's clauses, and with "at most k" exactly if at most k of
/// them are true.
pub fn named_count_is_exact()
    ensures { NamedCountIsExact }
{}

/// A law: the clauses of a counter are, by name, those of its columns.
pub fn counter_is_code()
    ensures { CounterIsCode }
{}

/// A law: the clauses that a further column adds are, by name, those of this column.
pub fn column_is_code()
    ensures { ColumnIsCode }
{}

/// A law: a counter's variables have their meanings, each once.
pub fn counter_meanings_stand()
    ensures { CounterMeaningsStand }
{}

/// A law: the meanings of a further column come after those of the others.
pub fn columns_add_meanings()
    ensures { ColumnsAddMeanings }
{}

/// A law: by name, no columns have no clauses, and a further column adds its own to those before.
pub fn named_columns_grow()
    ensures { NamedColumnsGrow }
{}

/// A law: meanings that stand for a counter, together with those of a further column, stand for the counter with it.
pub fn counter_meanings_grow()
    ensures { CounterMeaningsGrow }
{}

/// A law: the clauses of a further input come beside those of the others.
pub fn inputs_add_clauses()
    ensures { InputsAddClauses }
{}

/// A law: a counter with a further input, on variables of its own, is a counter.
pub fn inputs_grow()
    ensures { InputsGrow }
{}
