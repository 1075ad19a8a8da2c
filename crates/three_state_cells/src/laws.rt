//! Laws of the definitions: what holds of the core of every cell, and of what drives its three-state outputs.
ghost use Rattle.three_state_cells.specs.Laws.{CorePinsAre, DriversAreOfCores, DriversKeepLimits};

/// The law that the pins of a core are those of the cell and behind them one output for each three-state output.
#[tactic(auto, using(crate::proofs::CorePins::core_pins_are))]
pub fn core_pins_are()
    ensures { CorePinsAre }
{}

/// The law that what drives the three-state outputs of a cell is a driver of its core.
pub fn drivers_are_of_cores()
    ensures { DriversAreOfCores }
{}

/// The law that the paths of what drives the three-state outputs of a cell keep limits: their delays are times, they stand in the
/// order of these outputs, and to each of them no two begin at one pin.
pub fn drivers_keep_limits()
    ensures { DriversKeepLimits }
{}
