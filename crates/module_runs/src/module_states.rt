//! What the instances of a module drive their values by.
use crate::module_tables::ModuleTables;
use trit_cubes::Trit;

/// A module with the values of its inputs and the states of its instances, by which its instances drive what they do.
#[derive(Clone, Copy)]
pub struct ModuleStates<'a> {
    /// The module, with the keys of its tables.
    pub tables: ModuleTables<'a>,
    /// The value of each input.
    pub inputs: &'a [Trit],
    /// The state of each instance.
    pub states: &'a [Trit],
}
