//! What a run of a module holds.
use cell_machine::Times;
use sqlite_items::Items;
use trit_cubes::Trit;

/// What a run of a module holds.
#[derive(Drop)]
pub struct ModuleRun {
    /// The value of each input.
    pub inputs: Items<Trit>,
    /// For each instance its state; of one without a state it is unknown and not read.
    pub states: Items<Trit>,
    /// The value of the register of the checks.
    pub notifier: Trit,
    /// For each check the times that it keeps.
    pub stamps: Items<Times>,
}
