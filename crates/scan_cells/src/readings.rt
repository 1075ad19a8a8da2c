//! A test cell read as a cell.
ghost use Rattle.std.specs.Prelude.{◌≡◌, IfOk, map};
ghost use Rattle.std.specs.Option.{option_map};
ghost use Rattle.cell_machine.specs.CellData.{data_of};
ghost use Rattle.cell_attributes.specs.Pins.{owners_of as owners_of_group};
ghost use Rattle.scan_cells.specs.Functional.{read_group as read_group_of};

use bool_functions::Names;
use cell_attributes::groups::{inner_groups, pins_among};
use cell_attributes::pins::owners_of;
use cell_machine::Cell;
use cell_reader::{CellFault, read_cell};
use liberty_groups::Group;
use std::alloc::{AllocError, Global};

/// The cell with this number that a group describes, where no reason refuses it.
pub fn read_group(alloc: Global, number: usize, group: &Group) -> Result<Option<Cell>, AllocError>
    ensures { IfOk result (λ cell. option_map data_of cell ≡ read_group_of number group.now) }
{
    let none = Names::new(alloc);
    match read_cell(alloc, group, number, None, &none) {
        Ok(read) => Ok(Some(read.cell)),
        Err(CellFault::Refused(_)) => Ok(None),
        Err(CellFault::Memory) => Err(AllocError),
    }
}

/// For each pin of a cell's group the group that makes it.
pub fn pin_owners(alloc: Global, group: &Group) -> Result<Vec<&Group>, AllocError>
    ensures { IfOk result (λ owners. map (λ owner. owner.now) owners.items ≡ owners_of_group group.now) }
{
    let groups = inner_groups(alloc, group)?;
    let pins = pins_among(alloc, &groups)?;
    Ok(owners_of(alloc, &pins)?)
}
