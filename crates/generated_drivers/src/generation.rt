//! The models of a cell's three-state drivers.
ghost use Rattle.std.specs.Prelude.{◌≡◌, ◌<◌, length, IfOk, Ok};
ghost use Rattle.driver_models.specs.Models.{IsSound};
ghost use Rattle.three_state_cells.specs.DrivenCells.{driven_data_of};
ghost use Rattle.three_state_cells.specs.Drivers.{own_pins};
ghost use Rattle.generated_drivers.specs.Generated.{verilog_driver_of, vital_driver_of};

use cell_attributes::held::both_made;
use cell_machine::Pin;
use driver_models::DriverModel;
use specify_blocks::{driver_name, module_name, verilog_ports};
use sqlite_items::Items;
use std::alloc::{AllocError, Global};
use three_state_cells::DrivenCell;
use udp_tables::VPort;
use vhdl_tokens::numbered_name;
use vital_models::vital_ports;

/// The pins of a cell: those of its core before the enables.
#[tactic(auto, using(crate::proofs::Fitting::few_drives_of))]
pub fn own_pins(cell: &DrivenCell) -> &[Pin]
    ensures { result.now ≡ own_pins cell.now.core.pins (length cell.now.driver.drives) }
{
    let pins = cell.core.pins.as_slice();
    let own = pins.len() - cell.driver.drives.len();
    &pins[..own]
}

/// The model of a cell's drivers with these names, its own and its core's, and these ports. `AllocError` comes only where memory
/// is wanting.
fn model_of(
    alloc: Global,
    names: Result<(Items<u8>, Items<u8>), AllocError>,
    ports: Result<Items<VPort>, AllocError>,
    cell: &DrivenCell,
) -> Result<DriverModel, AllocError>
    ensures names { IfOk result (λ model. names ≡ Ok (model.name, model.core)) }
    ensures ports { IfOk result (λ model. ports ≡ Ok model.ports) }
    ensures driver { IfOk result (λ model. model.driver ≡ cell.now.driver) }
{
    let parts = both_made(ports, cell.driver.copied(alloc));
    let ((name, core), (ports, driver)) = both_made(names, parts)?;
    Ok(DriverModel {
        name,
        core,
        ports,
        driver,
    })
}

/// The Verilog model of the three-state drivers of a cell that has some: a module whose core is the module of the cell's core.
/// What it answers is sound. `AllocError` comes only where memory is wanting.
#[tactic(auto, unfolding(crate::specs::Generated::verilog_driver_of), using(crate::proofs::Fitting::verilog_driver_is_sound))]
pub fn verilog_driver(alloc: Global, cell: &DrivenCell) -> Result<DriverModel, AllocError>
    requires { 0 < length cell.now.driver.drives }
    ensures model { IfOk result (λ model. model ≡ verilog_driver_of (driven_data_of cell.now)) }
    ensures sound { IfOk result (λ model. IsSound model) }
{
    let core = &cell.core;
    let names = both_made(
        driver_name(alloc, core.number, cell.name.as_slice()),
        module_name(alloc, core.number, core.name.as_slice()),
    );
    let ports = verilog_ports(alloc, own_pins(cell));
    model_of(alloc, names, ports, cell)
}

/// The VHDL model, with this name, of the three-state drivers of a cell that has some: an entity whose core is the entity of the
/// cell's core. What it answers is sound. `AllocError` comes only where memory is wanting.
#[tactic(auto, unfolding(crate::specs::Generated::vital_driver_of), using(crate::proofs::Fitting::vital_driver_is_sound))]
pub fn vital_driver(
    alloc: Global,
    cell: &DrivenCell,
    name: &[u8],
) -> Result<DriverModel, AllocError>
    requires { 0 < length cell.now.driver.drives }
    ensures model { IfOk result (λ model. model ≡ vital_driver_of (driven_data_of cell.now) name.now) }
    ensures sound { IfOk result (λ model. IsSound model) }
{
    let names = both_made(
        Ok(Items::from_slice(alloc, name)?),
        numbered_name(alloc, b"cell", cell.core.number),
    );
    let ports = vital_ports(alloc, own_pins(cell), name);
    model_of(alloc, names, ports, cell)
}
