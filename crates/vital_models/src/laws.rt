//! Theorems on the definitions, for the proofs of other crates. The functions do nothing.
ghost use Rattle.vital_models.specs.RowLaws.{TruthRowsResolve, StateRowsAreMachine, CompactRowsAreMachine, FormsAgree};
ghost use Rattle.vital_models.specs.Laws.{StatesAreMachines, OutputsResolve, ConditionsResolve, GeneratedIsSound};

/// The truth table of a function gives its resolution, for every list of trits.
pub fn truth_rows_resolve()
    ensures { TruthRowsResolve }
{}

/// The rows of a step in plain form give the machine's step at each change of one pin, keep the state where no pin changes,
/// and give the forced value, else X, where there is a violation.
pub fn state_rows_are_machine()
    ensures { StateRowsAreMachine }
{}

/// So do the rows in compact form, of which two that hold the state are one.
pub fn compact_rows_are_machine()
    ensures { CompactRowsAreMachine }
{}

/// Both forms of a step's state table give the same next state.
pub fn forms_agree()
    ensures { FormsAgree }
{}

/// The state table of each group of a cell gives the machine's step at each change of one pin of the group's support, keeps the
/// state where none changes, and gives the value to which the pins force the state, else X, where there is a violation.
pub fn states_are_machines()
    ensures { StatesAreMachines }
{}

/// The truth table of an output of a cell gives the resolution of its value, for every list of trits.
pub fn outputs_resolve()
    ensures { OutputsResolve }
{}

/// The truth table of a condition gives the resolution of its value, for every list of trits.
pub fn conditions_resolve()
    ensures { ConditionsResolve }
{}

/// The entity of a cell is sound.
pub fn generated_is_sound()
    ensures { GeneratedIsSound }
{}
