//! The cubes that the rows of a cell's tables are made from, in no language.
use sqlite_items::Items;
use trit_cubes::{Cube, Trit};

/// The cubes of a function.
#[derive(Drop)]
pub struct FunctionCubes {
    /// The cube of all points: a free place for each place of the function.
    pub free: Cube,
    /// The primes of the points at which it gives 1.
    pub ones: Items<Cube>,
    /// The primes of the points at which it gives 0.
    pub zeros: Items<Cube>,
}

/// A cube of the changes of one input. Its places are the value before, the value after, the other inputs and the state.
#[derive(Clone, Copy)]
pub struct ChangeCube {
    /// The place of the input in the support of the group.
    pub place: usize,
    /// What the group's step gives on the cube; nothing where it keeps the state, whatever that is.
    pub gives: Option<Trit>,
    /// The cube.
    pub cube: Cube,
}

/// The cubes of a group's step.
#[derive(Drop)]
pub struct GroupCubes {
    /// The cubes of the value to which each point of the support forces the state.
    pub forced: FunctionCubes,
    /// The cubes of the changes of each input, in the order of their rows.
    pub changes: Items<ChangeCube>,
}

/// The cubes of a cell.
#[derive(Drop)]
pub struct CellCubes {
    /// Those of each group, in order.
    pub groups: Items<GroupCubes>,
    /// Those of each condition, in order.
    pub conditions: Items<FunctionCubes>,
    /// Those of each output, in order.
    pub outputs: Items<FunctionCubes>,
}
