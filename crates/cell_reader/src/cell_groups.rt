//! The groups of a cell, and the names that it declares.
ghost use Rattle.std.specs.Prelude.{IfOk};
ghost use Rattle.cell_reader.specs.Parts.{AreGroups};

use cell_attributes::declarations::{Declared, declared_of};
use cell_attributes::groups::{inner_groups, pins_among, states_among};
use cell_attributes::held::both_made;
use liberty_groups::Group;
use std::alloc::{AllocError, Global};

/// The groups that stand in the group of a cell, and the names that it declares.
#[derive(Drop)]
pub struct CellGroups<'a> {
    /// All of them.
    pub inner: Vec<&'a Group>,
    /// Those that make pins.
    pub pins: Vec<&'a Group>,
    /// Those that hold states.
    pub states: Vec<&'a Group>,
    pub declared: Vec<Declared<'a>>,
}

/// Those of a cell.
pub(crate) fn cell_groups(alloc: Global, cell: &Group) -> Result<CellGroups<'_>, AllocError>
    ensures { IfOk result (AreGroups cell.now) }
{
    let inner = inner_groups(alloc, cell)?;
    let pins = pins_among(alloc, &inner);
    let states = states_among(alloc, &inner);
    let declared = declared_of(alloc, &inner);
    let ((pins, states), declared) = both_made(both_made(pins, states), declared)?;
    Ok(CellGroups {
        inner,
        pins,
        states,
        declared,
    })
}
