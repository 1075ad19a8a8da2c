//! Laws of the definitions: what holds of a cell that nothing refuses.
ghost use Rattle.cell_reader.specs.Laws.{AcceptedMeetsNone, AcceptedPinsAreSound, AcceptedStatesAreFew, AcceptedCellsAreSound};

/// The law that an accepted cell meets no reason anywhere.
#[tactic(auto, using(crate::proofs::Accepted::accepted_meets_none))]
pub fn accepted_meets_none()
    ensures { AcceptedMeetsNone }
{}

/// The law that the name and the pins of an accepted cell keep the rules of cells.
#[tactic(auto, using(crate::proofs::Accepted::accepted_pins_are_sound))]
pub fn accepted_pins_are_sound()
    ensures { AcceptedPinsAreSound }
{}

/// The law that an accepted cell has at most 16 state groups.
#[tactic(auto, using(crate::proofs::Accepted::accepted_states_are_few))]
pub fn accepted_states_are_few()
    ensures { AcceptedStatesAreFew }
{}

/// The law that an accepted cell keeps all rules of cells.
pub fn accepted_cells_are_sound()
    ensures { AcceptedCellsAreSound }
{}
