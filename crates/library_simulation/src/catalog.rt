//! The cells of a library as those that a stimulus may name, with the models of each.
ghost use Rattle.std.specs.Prelude.{◌≡◌, [], None, IfOk, OnOk};
ghost use Rattle.bool_functions.specs.NameList.{number_of, AreDistinct};
ghost use Rattle.library_reader.specs.LibraryCells.{described, all_described, cell_names};
ghost use Rattle.library_simulation.specs.NamedModels.{shown};
ghost use Rattle.library_simulation.specs.Catalog.{ports_in, numbers_in, with_cell, simulated_in, simulated_of, HaveOwnNames};

use crate::named_models::{ModelFiles, model_names};
use crate::numbers::ModelNumbers;
use crate::pin_names::named_ports;
use crate::same_ports::Spelling;
use bool_functions::Names;
use cell_attributes::held::{both_made, held_with};
use file_models::FileModel;
use generated_drivers::own_pins;
use library_reader::LibraryCell;
use specify_blocks::VModule;
use sqlite_items::Items;
use std::alloc::{AllocError, Global};
use stimulus::{PortCatalog, Ports, Standing};
use vital_models::VEntity;

/// The cells of a library that a stimulus may name, and the models of each. Both lists have the cells in their order.
#[derive(Drop)]
pub struct Simulated {
    /// The cells by their names, each with how it stands and with the names of its ports.
    pub catalog: PortCatalog,
    /// For each cell the numbers of its Verilog and its VITAL model, exactly where it may be given changes.
    pub models: Items<Option<ModelNumbers>>,
}

/// A cell of the catalog.
#[derive(Drop)]
struct Entry {
    /// How it stands, with the names of its ports.
    ports: Ports,
    /// The numbers of its models.
    numbers: Option<ModelNumbers>,
}

/// The entry of a cell.
fn entry_of(alloc: Global, files: &ModelFiles<'_>, cell: &LibraryCell) -> Result<Entry, AllocError>
    ensures ports { IfOk result (λ entry. entry.ports ≡ ports_in (shown files.now) (described cell.now)) }
    ensures numbers { IfOk result (λ entry. entry.numbers ≡ numbers_in (shown files.now) (described cell.now)) }
{
    match cell {
        LibraryCell::Accepted { cell, entity } => {
            let found = files.found(alloc, cell, entity.as_slice())?;
            Ok(Entry {
                ports: named_ports(alloc, found.standing(), own_pins(cell))?,
                numbers: found.numbers(),
            })
        }
        LibraryCell::Refused { .. } => Ok(Entry {
            ports: no_ports(alloc, Standing::Refused),
            numbers: None,
        }),
    }
}

/// No ports, of a cell that stands so.
fn no_ports(alloc: Global, standing: Standing) -> Ports
    ensures { result ≡ record { standing = standing; inputs = []; outputs = [] } }
{
    Ports {
        standing,
        inputs: Names::new(alloc),
        outputs: Names::new(alloc),
    }
}

impl Simulated {
    /// Adds a cell with this name, where no cell has it.
    #[tactic(auto, using(crate::proofs::CatalogLemmas::cell_added))]
    fn add(&mut self, name: &[u8], entry: Entry) -> Result<(), AllocError>
        ensures { OnOk result (number_of self.old.catalog.names name.now ≡ None
            → self.new ≡ with_cell self.old name.now entry.ports entry.numbers) }
    {
        let Entry { ports, numbers } = entry;
        match self.catalog.add(name, ports)? {
            None => Ok(()),
            Some(_) => {
                self.models.push(numbers)?;
                Ok(())
            }
        }
    }

    /// Adds these cells, in their order, with their models among those of these files, where there was none.
    fn add_all(
        &mut self,
        alloc: Global,
        files: &ModelFiles<'_>,
        cells: &[LibraryCell],
    ) -> Result<(), AllocError>
        requires { self.old ≡ record { catalog = record { names = []; cells = [] }; models = [] } }
        ensures { OnOk result (AreDistinct (cell_names (all_described cells.now))
            → self.new ≡ simulated_in (shown files.now) (all_described cells.now)) }
    {
        for cell in cells {
            let entry = entry_of(alloc, files, cell)?;
            self.add(cell.name(), entry)?;
        }
        Ok(())
    }
}

/// The cells with their models among those of these files.
fn simulated_in(
    alloc: Global,
    files: &ModelFiles<'_>,
    cells: &[LibraryCell],
) -> Result<Simulated, AllocError>
    ensures { IfOk result (λ simulated. AreDistinct (cell_names (all_described cells.now))
        → simulated ≡ simulated_in (shown files.now) (all_described cells.now)) }
{
    let mut simulated = Simulated {
        catalog: PortCatalog::new(alloc),
        models: Items::new(alloc),
    };
    let added = simulated.add_all(alloc, files, cells);
    Ok(held_with(simulated, added)?.0)
}

/// The catalog of the cells of a library, in their order, beside the models of a Verilog file and those of a VHDL file. A driver
/// of a file counts under its name as a module or an entity does.
///
/// A cell that is accepted has the names of its own input and output pins, without the enables of its core, numbered as its
/// machine numbers them. It stands as `VerilogPorts` where no Verilog model has the name that is written for it, or where this
/// model has not, in their order, the names and directions of the ports that are written for it; else as `VitalPorts` where the
/// same is so of its VITAL model, whatever the case of the names' letters; else as `Ready`. The catalog is such where no two
/// cells have one name, no two Verilog models, and no two VITAL models whatever the case of its letters.
pub fn simulation_catalog(
    alloc: Global,
    cells: &[LibraryCell],
    modules: &[FileModel<VModule>],
    entities: &[FileModel<VEntity>],
) -> Result<Simulated, AllocError>
    ensures { IfOk result (λ simulated. HaveOwnNames (all_described cells.now) modules.now entities.now
        → simulated ≡ simulated_of (all_described cells.now) modules.now entities.now) }
{
    let module_names = model_names(alloc, Spelling::Exact, modules);
    let entity_names = model_names(alloc, Spelling::AnyCase, entities);
    let names = both_made(module_names, entity_names)?;
    let files = ModelFiles {
        modules,
        module_names: names.0,
        entities,
        entity_names: names.1,
    };
    simulated_in(alloc, &files, cells)
}
