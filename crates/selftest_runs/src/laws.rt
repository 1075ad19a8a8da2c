//! Theorems on the definitions, for the proofs of other crates. The functions do nothing.

ghost use Rattle.selftest_runs.specs.EntityNames.{NextCellsHaveEntityNames};

/// What is read of the next cell of a library that is accepted has, as the name of its entity, the name of an entity of the cell.
pub fn next_cells_have_entity_names()
    ensures { NextCellsHaveEntityNames }
{}
