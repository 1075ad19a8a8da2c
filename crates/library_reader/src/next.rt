//! The next cell of a library.
ghost use Rattle.std.specs.Prelude.{◌≡◌, ◌+◌, ◌<◌, ◌^◌, IfOk, IfErr, OnOk};
ghost use Rattle.cell_cursor.specs.declared.item.LibraryItem.TheVariants as item;
ghost use Rattle.three_state_cells.specs.DrivenCells.{driven_data_of};
ghost use Rattle.library_reader.specs.{LibraryCells.vital_name, Progress.after_item, NextCells.IsNext};

use crate::expanded_cell::read_cell_group;
use crate::progress::Progress;
use bool_functions::Names;
use cell_attributes::groups::cell_name;
use cell_reader::{CellFault, Refusal};
use liberty_groups::Group;
use sqlite_items::Items;
use std::alloc::{AllocError, Global};
use text_io::Stop;
use three_state_cells::DrivenCell;
use vital_models::{driver_name, entity_name};

/// The next cell of a library, or why it is refused.
#[derive(Drop)]
pub enum NextCell {
    /// A cell that is accepted.
    Accepted {
        /// The cell, and what of its group it leaves out.
        cell: DrivenCell,
        /// The name of its VITAL model, in bytes.
        entity: Items<u8>,
    },
    /// A cell that is refused.
    Refused(Refusal),
}

/// The name of the VITAL model of a cell, where `given` are the names of the models before it in lower case: that of its entity,
/// or of the entity of its drivers where some outputs may float. `AllocError` comes only where memory is wanting.
fn vital_name(alloc: Global, cell: &DrivenCell, given: &Names) -> Result<Items<u8>, AllocError>
    ensures { IfOk result (λ name. name ≡ vital_name given.now (driven_data_of cell.now)) }
{
    if cell.driver.drives.len() > 0 {
        driver_name(alloc, cell.core.number, cell.name.as_slice(), given)
    } else {
        entity_name(alloc, &cell.core, given)
    }
}

/// Reads the group of the next cell. It stops only where memory is wanting.
pub(crate) fn next_cell(alloc: Global, progress: &Progress, group: &Group) -> Result<NextCell, Stop>
    requires { progress.now.accepted + progress.now.refused + 1 < 2 ^ 64 }
    ensures next { IfOk result (λ next. IsNext progress.now group.now next) }
    ensures memory { IfErr result (λ stop. stop ≡ Stop.Memory) }
{
    match read_cell_group(alloc, progress, group) {
        Ok(cell) => {
            let entity = vital_name(alloc, &cell, &progress.entities)?;
            Ok(NextCell::Accepted { cell, entity })
        }
        Err(CellFault::Refused(refusal)) => Ok(NextCell::Refused(refusal)),
        Err(CellFault::Memory) => Err(Stop::Memory),
    }
}

/// Counts the next cell, which was read so of its group. It stops only where memory is wanting.
pub(crate) fn count_cell(
    alloc: Global,
    progress: &mut Progress,
    group: &Group,
    next: &NextCell,
) -> Result<(), Stop>
    requires next { IsNext progress.old group.now next.now }
    requires few { progress.old.accepted + progress.old.refused + 1 < 2 ^ 64 }
    ensures counted { OnOk result (progress.new ≡ after_item progress.old (item.Cell group.now)) }
    ensures memory { IfErr result (λ stop. stop ≡ Stop.Memory) }
{
    let name = cell_name(group);
    match next {
        NextCell::Accepted { entity, .. } => {
            progress.count_accepted(alloc, name, entity.as_slice())?
        }
        NextCell::Refused(_) => progress.count_refused(name)?,
    }
    Ok(())
}
