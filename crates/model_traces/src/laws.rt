//! Theorems on the definitions, for the proofs of other crates. The functions do nothing.
ghost use Rattle.model_traces.specs.Laws.{RunHoldsInputs, RunKeepsLastEvents};
ghost use Rattle.model_traces.specs.ProcessLaws.{ProcessHoldsInputs, ProcessKeepsLastEvents, ProcessKeepsColumns};
ghost use Rattle.model_traces.specs.ProcessLaws.{LaterEventIsSecond, EarlierTimeIsFirst};
ghost use Rattle.model_traces.specs.Agreement.{FittingModulesAgree, FittingEntitiesAgree, FittingModelsAgree};
ghost use Rattle.model_traces.specs.Agreement.{GeneratedModulesFit, GeneratedEntitiesFit, ModelsAgree};

/// The run of a module holds the values that the changes gave to its inputs.
pub fn run_holds_inputs()
    ensures { RunHoldsInputs }
{}

/// Each check of a module keeps the times of its last events in the whole history.
pub fn run_keeps_last_events()
    ensures { RunKeepsLastEvents }
{}

/// The run of a process holds the values that the changes gave to its inputs.
pub fn process_holds_inputs()
    ensures { ProcessHoldsInputs }
{}

/// Each check of a process keeps the times of its last events in the whole history.
pub fn process_keeps_last_events()
    ensures { ProcessKeepsLastEvents }
{}

/// The columns that a process keeps are those of the inputs that it holds, at some violation.
pub fn process_keeps_columns()
    ensures { ProcessKeepsColumns }
{}

/// A check of a process compares at its second event, as one of a module.
pub fn later_event_is_second()
    ensures { LaterEventIsSecond }
{}

/// A check of a process measures from the event from which one of a module measures.
pub fn earlier_time_is_first()
    ensures { EarlierTimeIsFirst }
{}

/// A module that fits a cell has the cell's trace for every list of changes of inputs at rising times, and its states after
/// each change are the cell's.
pub fn fitting_modules_agree()
    ensures { FittingModulesAgree }
{}

/// An entity that fits a cell has the cell's trace for every list of changes of inputs at rising times, and its states after
/// each change are the cell's.
pub fn fitting_entities_agree()
    ensures { FittingEntitiesAgree }
{}

/// A module and an entity that fit a cell show what the cell shows.
pub fn fitting_models_agree()
    ensures { FittingModelsAgree }
{}

/// The module that is generated for a cell fits it.
pub fn generated_modules_fit()
    ensures { GeneratedModulesFit }
{}

/// The entity that is generated for a cell fits it, whatever its name is.
pub fn generated_entities_fit()
    ensures { GeneratedEntitiesFit }
{}

/// Every cell, the Verilog module and the VITAL entity that are generated for it show the same: outputs, delays and reports
/// after each change of every list of changes at rising times, values that may be unknown included, and the same states,
/// which a report leaves at the value to which the inputs force them, else unknown.
pub fn models_agree()
    ensures { ModelsAgree }
{}
