//! The module of a cell.
ghost use Rattle.std.specs.Prelude.{◌≡◌, IfOk};
ghost use Rattle.cell_machine.specs.CellData.{data_of};
ghost use Rattle.specify_blocks.specs.Generated.{wires_of, notifier_of, condition_count, module_of};

use crate::instances::instances_of;
use crate::model::VModule;
use crate::names::{add_numbered, module_name, notifier_name};
use crate::ports::verilog_ports;
use crate::primitives::primitives_of;
use crate::timing::{module_checks, paths_of};
use cell_machine::Cell;
use cell_tables::{ModelSource, all_made, has_notifier};
use sqlite_items::Items;
use std::alloc::{AllocError, Global};

/// The Verilog module of a cell, with its primitives: one for each group, condition and output, a path for each arc, and the
/// checks. Names that Verilog does not keep are replaced. What it answers is sound.
pub fn verilog_model(from: &ModelSource) -> Result<VModule, AllocError>
    ensures { IfOk result (λ model. model ≡ module_of (data_of from.now.cell.now)) }
{
    let ModelSource { alloc, cell, .. } = *from;
    let ports = all_made(
        module_name(alloc, cell.number, cell.name.as_slice()),
        verilog_ports(alloc, cell.pins.as_slice()),
    );
    let nets = all_made(
        wires_of(alloc, cell, from.conditions.len()),
        notifier_of(alloc, cell),
    );
    let tables = all_made(primitives_of(from), instances_of(from));
    let timing = all_made(paths_of(from), module_checks(from));
    let (outside, inside) = all_made(all_made(ports, nets), all_made(tables, timing))?;
    let ((name, ports), (wires, notifier)) = outside;
    let ((udps, instances), (paths, checks)) = inside;
    Ok(VModule {
        name,
        ports,
        wires,
        notifier,
        udps,
        instances,
        paths,
        checks,
    })
}

/// The names of the wires, where the cell has so many conditions: the states, then the conditions.
fn wires_of(alloc: Global, cell: &Cell, conditions: usize) -> Result<Items<Items<u8>>, AllocError>
    requires { conditions ≡ condition_count (data_of cell.now) }
    ensures { IfOk result (λ wires. wires ≡ wires_of (data_of cell.now)) }
{
    let mut wires = Items::new(alloc);
    add_numbered(alloc, &mut wires, b"lib_s", cell.groups.len())?;
    add_numbered(alloc, &mut wires, b"lib_c", conditions)?;
    Ok(wires)
}

/// The name of the register of the checks, where the cell has some.
fn notifier_of(alloc: Global, cell: &Cell) -> Result<Option<Items<u8>>, AllocError>
    ensures { IfOk result (λ notifier. notifier ≡ notifier_of (data_of cell.now)) }
{
    if has_notifier(cell) {
        Ok(Some(notifier_name(alloc)?))
    } else {
        Ok(None)
    }
}
