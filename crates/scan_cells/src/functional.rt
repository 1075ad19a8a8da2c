//! The test view of a scan cell by its test cell.
ghost use Rattle.std.specs.Prelude.{◌≡◌, IfOk, IfSome, Some};
ghost use Rattle.std.specs.Option.{option_map};
ghost use Rattle.cell_machine.specs.CellData.{data_of};
ghost use Rattle.scan_cells.specs.Views.{view_data, StandsBeside};
ghost use Rattle.scan_cells.specs.Functional.{enabled_view, view_by, read_group as read_group_of, functional_view};

use crate::enables::{Enable, first_enable};
use crate::readings::{pin_owners, read_group};
use crate::test_group::view_group;
use crate::view_pins::{are_among, numbers_of, same_outline};
use crate::views::View;
use cell_attributes::held::held_with;
use cell_machine::Cell;
use liberty_groups::Group;
use sqlite_items::Items;
use std::alloc::{AllocError, Global};

/// The pins of a view as those of the cell beside it, and the scan enable among them.
#[derive(Drop)]
struct EnabledPins {
    pins: Items<usize>,
    enable: Enable,
}

/// Those of the view of a cell that a group describes, where the view stands beside the cell and has a scan enable.
fn enabled_pins(
    alloc: Global,
    cell: &Cell,
    group: &Group,
    view: &Cell,
) -> Result<Option<EnabledPins>, AllocError>
    ensures is { IfOk result
        (λ found. option_map (enabled_view (data_of view.now)) found
        ≡ view_by (data_of cell.now) group.now (Some (data_of view.now))) }
    ensures beside { IfOk result
        (λ found. IfSome found (λ pins. StandsBeside (data_of cell.now) (enabled_view (data_of view.now) pins))) }
{
    let pins = cell.pins.as_slice();
    if !are_among(pins, view.pins.as_slice()) || !same_outline(cell, view) {
        return Ok(None);
    }
    let numbers = numbers_of(alloc, pins, view.pins.as_slice())?;
    let owners = pin_owners(alloc, group)?;
    let Some(enable) = first_enable(&owners, numbers.as_slice()) else {
        return Ok(None);
    };
    Ok(Some(EnabledPins {
        pins: numbers,
        enable,
    }))
}

/// The view of a cell that a group describes.
fn view_of(alloc: Global, cell: &Cell, group: &Group) -> Result<Option<View>, AllocError>
    ensures is { IfOk result (λ view. option_map view_data view ≡ view_by (data_of cell.now) group.now
        (read_group_of cell.now.number group.now)) }
    ensures beside { IfOk result (λ view. IfSome view (λ v. StandsBeside (data_of cell.now) (view_data v))) }
{
    let Some(view) = read_group(alloc, cell.number, group)? else {
        return Ok(None);
    };
    let found = enabled_pins(alloc, cell, group, &view);
    let (view, found) = held_with(view, found)?;
    match found {
        Some(found) => Ok(Some(View {
            cell: view,
            pins: found.pins,
            enable: found.enable.pin,
            active: found.enable.active,
        })),
        None => Ok(None),
    }
}

/// The test view of a scan cell, where `test` is its `test_cell` group. The group is read as a cell with the name and the
/// number of the scan cell, its timing groups and time attributes left out, and its pins are found in the scan cell by
/// their names.
///
/// There is no view exactly where the group so read meets a refusal; where a pin of it is not in the cell with the same
/// direction; where none of its pins is a scan enable by its `signal_type`; and where its number of state groups, or the
/// set of the names of its outputs, is not that of the cell. (Liberty Reference Manual, `test_cell` group.)
pub fn functional_cell(alloc: Global, cell: &Cell, test: &Group) -> Result<Option<View>, AllocError>
    ensures is { IfOk result (λ view. option_map view_data view ≡ functional_view (data_of cell.now) test.now) }
    ensures beside { IfOk result (λ view. IfSome view (λ v. StandsBeside (data_of cell.now) (view_data v))) }
{
    let group = view_group(alloc, cell.name.as_slice(), test)?;
    view_of(alloc, cell, &group)
}
