//! The models of two files, looked up by their names.
ghost use Rattle.std.specs.Prelude.{◌≡◌, slice_get, IfOk};
ghost use Rattle.std.specs.Option.{option_map};
ghost use Rattle.bool_functions.specs.NameList.{number_of, AreDistinct};
ghost use Rattle.vhdl_tokens.specs.Kept.{lowered};
ghost use Rattle.three_state_cells.specs.DrivenCells.{driven_data_of};
ghost use Rattle.file_models.specs.declared.file_model.FileModel.{FileModel as FileModelOf};
ghost use Rattle.library_simulation.specs.NamedModels.{verilog_name as verilog_name_of, names_of, shown, has_ports, with_ports};
ghost use Rattle.library_simulation.specs.NamedModels.{verilog_number as verilog_number_of};
ghost use Rattle.library_simulation.specs.NamedModels.{vital_number as vital_number_of};

use crate::numbers::Found;
use crate::same_ports::Spelling;
use bool_functions::Names;
use cell_attributes::held::{both_made, held_with};
use file_models::FileModel;
use generated_drivers::own_pins;
use specify_blocks::{VModule, driver_name, module_name, verilog_ports};
use sqlite_items::Items;
use std::alloc::{AllocError, Global};
use three_state_cells::DrivenCell;
use udp_tables::VPort;
use vital_models::{VEntity, vital_ports};

/// The models of a Verilog file and those of a VHDL file, with their names.
#[derive(Drop)]
pub(crate) struct ModelFiles<'a> {
    /// The Verilog models, in the order of their file.
    pub modules: &'a [FileModel<VModule>],
    /// Their names, in this order.
    pub module_names: Names,
    /// The VITAL models, in the order of their file.
    pub entities: &'a [FileModel<VEntity>],
    /// Their names in lower case, in this order.
    pub entity_names: Names,
}

impl<'a> ModelFiles<'a> {
    /// The numbers of the models that are found for a cell whose VITAL model has this name.
    pub(crate) fn found(
        &self,
        alloc: Global,
        cell: &DrivenCell,
        entity: &[u8],
    ) -> Result<Found, AllocError>
        ensures verilog { IfOk result (λ found. found.verilog ≡ verilog_number_of (shown self.now) (driven_data_of cell.now)) }
        ensures vital { IfOk result (λ found. found.vital ≡ vital_number_of (shown self.now) entity.now
            (driven_data_of cell.now)) }
    {
        Ok(Found {
            verilog: self.verilog_number(alloc, cell)?,
            vital: self.vital_number(alloc, cell, entity)?,
        })
    }

    /// The number of the Verilog model of a cell, where it is there with the cell's ports.
    #[tactic(auto, unfolding(crate::specs::NamedModels::verilog_number))]
    fn verilog_number(&self, alloc: Global, cell: &DrivenCell) -> Result<Option<usize>, AllocError>
        ensures { IfOk result (λ number. number ≡ verilog_number_of (shown self.now) (driven_data_of cell.now)) }
    {
        let name = verilog_name(alloc, cell);
        let ports = verilog_ports(alloc, own_pins(cell));
        let (name, ports) = both_made(name, ports)?;
        let number = self.module_names.number(name.as_slice());
        Ok(number_with(self.modules, number, Spelling::Exact, ports.as_slice()))
    }

    /// The number of the VITAL model with this name, where it is there with the ports of the cell.
    #[tactic(auto, unfolding(crate::specs::NamedModels::vital_number))]
    fn vital_number(
        &self,
        alloc: Global,
        cell: &DrivenCell,
        entity: &[u8],
    ) -> Result<Option<usize>, AllocError>
        ensures { IfOk result (λ number. number ≡ vital_number_of (shown self.now) entity.now (driven_data_of cell.now)) }
    {
        let ports = vital_ports(alloc, own_pins(cell), entity)?;
        let number = number_of_lowered(alloc, &self.entity_names, entity);
        let (ports, number) = held_with(ports, number)?;
        Ok(number_with(self.entities, number, Spelling::AnyCase, ports.as_slice()))
    }
}

/// The number of a name, whatever the case of its letters, among these, which are in lower case.
fn number_of_lowered(alloc: Global, names: &Names, name: &[u8]) -> Result<Option<usize>, AllocError>
    ensures { IfOk result (λ number. number ≡ number_of names.now (lowered name.now)) }
{
    let name = name.to_ascii_lowercase(alloc)?;
    Ok(names.number(&name))
}

/// This number of a model of these, where there is one, and this model has these ports, whose names are spelled so.
fn number_with<M: Drop>(
    models: &[FileModel<M>],
    number: Option<usize>,
    spelling: Spelling,
    ports: &[VPort],
) -> Option<usize>
    ensures { result ≡ with_ports spelling ports.now
        (λ number. option_map (λ (model : FileModelOf M). model.ports) (slice_get models.now number)) number }
{
    match number {
        Some(number) => model_has(models, number, spelling, ports).then_some(number),
        None => None,
    }
}

/// Whether the model with this number, of these, has these ports, whose names are spelled so.
fn model_has<M: Drop>(
    models: &[FileModel<M>],
    number: usize,
    spelling: Spelling,
    ports: &[VPort],
) -> bool
    ensures { result ≡ has_ports spelling ports.now
        (option_map (λ (model : FileModelOf M). model.ports) (slice_get models.now number)) }
{
    match models.get(number) {
        Some(model) => spelling.same_ports(ports, model.ports.as_slice()),
        None => false,
    }
}

/// The name of the Verilog model of a cell: that of its module, or of the module of its drivers where some outputs may float.
fn verilog_name(alloc: Global, cell: &DrivenCell) -> Result<Items<u8>, AllocError>
    ensures { IfOk result (λ name. name ≡ verilog_name_of (driven_data_of cell.now)) }
{
    if cell.driver.drives.len() > 0 {
        driver_name(alloc, cell.core.number, cell.name.as_slice())
    } else {
        module_name(alloc, cell.core.number, cell.core.name.as_slice())
    }
}

/// The names of these models, in their order, as names that are spelled so are looked up, where no two are the same.
pub(crate) fn model_names<M: Drop>(
    alloc: Global,
    spelling: Spelling,
    models: &[FileModel<M>],
) -> Result<Names, AllocError>
    ensures { IfOk result (λ names. AreDistinct (names_of spelling models.now) → names ≡ names_of spelling models.now) }
{
    let mut names = Names::new(alloc);
    for model in models {
        spelling.add(alloc, &mut names, model.name.as_slice())?;
    }
    Ok(names)
}
