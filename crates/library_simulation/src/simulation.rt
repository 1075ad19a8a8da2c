//! The files of a simulation: the library, the two files of models and the stimulus are read, or the run ends.
ghost use Rattle.std.specs.Prelude.{◌≡◌, IfOk, IfErr, OnOk};
ghost use Rattle.text_io.specs.Plan.{plan};
ghost use Rattle.library_reader.specs.LibraryCells.{all_described};
ghost use Rattle.run_outcome.specs.Runs.{RunsAs, StopsWithStatus};
ghost use Rattle.library_simulation.specs.Catalog.{simulated_of, HaveOwnNames};
ghost use Rattle.library_simulation.specs.Simulate.{simulate_files, simulate_of};
ghost use Rattle.library_simulation.specs.Simulations.{ReadsModels, ReadsSimulation};

use crate::bad_lines::SimulationStop;
use crate::catalog::{Simulated, simulation_catalog};
use crate::laws::sections_can_be_compared;
use file_models::FileModel;
use library_reader::{LibraryCell, read_library_file};
use model_files::{read_model_file, read_stimulus_file};
use model_replay::{Verilog, Vital, entities_have_own_names};
use run_outcome::Status;
use specify_blocks::VModule;
use sqlite_items::Items;
use std::alloc::Global;
use stimulus::Section;
use text_io::Desk;
use vital_models::VEntity;

/// The cells of a library, and the models of a Verilog and of a VHDL file.
#[derive(Drop)]
pub(crate) struct ModelsRead {
    /// The cells, in the order of the library.
    pub cells: Items<LibraryCell>,
    /// The Verilog models, in the order of their file.
    pub modules: Items<FileModel<VModule>>,
    /// The VITAL models, in the order of their file.
    pub entities: Items<FileModel<VEntity>>,
}

/// The four files of a simulation.
#[derive(Drop)]
pub(crate) struct Simulation {
    /// The cells and the models.
    pub read: ModelsRead,
    /// The cells by their names, with the numbers of their models.
    pub simulated: Simulated,
    /// The sections of the stimulus, each of the cell with its number.
    pub sections: Items<Section>,
}

/// Binds and reads the library, the Verilog file and the VHDL file that the words name, in this order. None is bound behind one
/// that ends the run.
fn read_cells_and_models<D: Desk>(alloc: Global, desk: &mut D) -> Result<ModelsRead, Status>
    requires { plan (D.state desk.old).words ≡ simulate_files }
    ensures ended { IfErr result (RunsAs simulate_files (simulate_of (D.state desk.old).words) (D.state desk.old)
        (D.state desk.new)) }
    ensures read { IfOk result (ReadsModels (D.state desk.old) (D.state desk.new)) }
    ensures kept { OnOk result (D.faults desk.new ≡ D.faults desk.old) }
    ensures cause { IfErr result (StopsWithStatus (D.faults desk.old) (D.faults desk.new)) }
{
    entities_have_own_names();
    let cells = read_library_file(alloc, desk, 1)?;
    let modules = read_model_file::<D, Verilog>(alloc, desk, 2)?;
    let entities = read_model_file::<D, Vital>(alloc, desk, 3)?;
    Ok(ModelsRead {
        cells: Items::from_vec(cells),
        modules: Items::from_vec(modules),
        entities: Items::from_vec(entities),
    })
}

/// The cells by their names, with their models among those that were read; else `Memory`.
fn catalog_of(alloc: Global, read: &ModelsRead) -> Result<Simulated, Status>
    ensures catalog { IfOk result (λ simulated. HaveOwnNames (all_described read.now.cells) read.now.modules read.now.entities
        → simulated ≡ simulated_of (all_described read.now.cells) read.now.modules read.now.entities) }
    ensures memory { IfErr result (λ status. status ≡ Status.Memory) }
{
    let cells = read.cells.as_slice();
    match simulation_catalog(
        alloc,
        cells,
        read.modules.as_slice(),
        read.entities.as_slice(),
    ) {
        Ok(simulated) => Ok(simulated),
        Err(_) => Err(Status::Memory),
    }
}

/// Binds and reads the four files that the words name, in their order: the library, the Verilog file, the VHDL file and the
/// stimulus.
///
/// None is bound behind one that ends the run, and nothing is appended but the line that tells of this one. The run ends with
/// `Outside` only where a call failed in this call, and with `Memory` where there was none; with every other status it is over,
/// and all that it comes to is there.
pub(crate) fn read_simulation<D: Desk>(alloc: Global, desk: &mut D) -> Result<Simulation, Status>
    requires { plan (D.state desk.old).words ≡ simulate_files }
    ensures read { IfOk result (ReadsSimulation (D.state desk.old) (D.state desk.new)) }
    ensures ended { IfErr result (RunsAs simulate_files (simulate_of (D.state desk.old).words) (D.state desk.old)
        (D.state desk.new)) }
    ensures kept { OnOk result (D.faults desk.new ≡ D.faults desk.old) }
    ensures cause { IfErr result (StopsWithStatus (D.faults desk.old) (D.faults desk.new)) }
{
    sections_can_be_compared();
    let read = read_cells_and_models(alloc, desk)?;
    let simulated = catalog_of(alloc, &read)?;
    let stop = SimulationStop {
        cells: read.cells.as_slice(),
    };
    let sections = read_stimulus_file(alloc, desk, 4, &stop, &simulated.catalog)?;
    Ok(Simulation {
        read,
        simulated,
        sections: Items::from_vec(sections),
    })
}
