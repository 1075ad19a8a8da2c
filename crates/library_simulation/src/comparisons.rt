//! The sections of a simulation: each is run on its cell and on the models of this cell, printed and compared.
ghost use Rattle.std.specs.Prelude.{◌≡◌, [], length, is_some, Ok, IfOk, OnOk};
ghost use Rattle.library_reader.specs.LibraryCells.{all_described};
ghost use Rattle.cell_machine.specs.History.{IsProperFrom};
ghost use Rattle.stimulus.specs.Comparison.{HavePorts, three_lines, first_unlike};
ghost use Rattle.stimulus.specs.Writes.{WritesTrace};
ghost use Rattle.text_io.specs.Desk.{StopsWithCause};
ghost use Rattle.library_simulation.specs.Catalog.{simulated_of};
ghost use Rattle.library_simulation.specs.Comparisons.{lines_of, compared_section, section_text, sections_text, differs};
ghost use Rattle.library_simulation.specs.Comparisons.{any_differs};
ghost use Rattle.library_simulation.specs.Sections.{CanBeCompared};
ghost use Rattle.cell_machine.specs.CellData.{data_of};
ghost use Rattle.cell_machine.specs.CellStarts.{IsCellStart};
ghost use Rattle.library_simulation.specs.Besides.{machine_in, compared_with, compared_of, CanBeGiven};
ghost use Rattle.library_simulation.specs.KnownBesides.{StandsFor, AreBesides};
ghost use Rattle.library_simulation.specs.Simulations.{CanBePrinted};

use crate::known::learn;
use crate::known_beside::KnownBeside;
use crate::laws::described_are_cells;
use crate::simulation::Simulation;
use cell_attributes::held::both_made;
use cell_machine::{CellStart, Change, LibertySim, Shared};
use driven_traces::DrivenSim;
use file_models::FileModel;
use library_reader::LibraryCell;
use model_files::nothing_known;
use model_replay::{start_entity, start_module};
use specify_blocks::VModule;
use std::alloc::{AllocError, Global};
use stimulus::{
    Ports, Section, ThreeSimulators, TraceSim, write_comparison, write_heading, write_verdict,
};
use text_io::{Desk, Stop};
use three_state_cells::DrivenCell;
use vital_models::VEntity;

/// A cell, the names of its ports, and the models that stand for it.
#[derive(Clone, Copy)]
pub(crate) struct Beside<'a> {
    /// The cell.
    pub cell: &'a DrivenCell,
    /// The names of its inputs and outputs.
    pub ports: &'a Ports,
    /// Its Verilog model.
    pub module: &'a FileModel<VModule>,
    /// Its VITAL model.
    pub entity: &'a FileModel<VEntity>,
}

/// The cell that a section names, with the models that stand for it.
pub(crate) fn stands_beside<'a>(simulation: &'a Simulation, section: &Section) -> Beside<'a>
    requires simulated { simulation.now.simulated ≡ simulated_of (all_described simulation.now.read.cells)
        simulation.now.read.modules simulation.now.read.entities }
    requires run { CanBeCompared (all_described simulation.now.read.cells) simulation.now.read.modules
        simulation.now.read.entities section.now }
    ensures { StandsFor (all_described simulation.now.read.cells) simulation.now.read.modules simulation.now.read.entities
        section.now.cell result }
{
    described_are_cells();
    let LibraryCell::Accepted { cell, .. } = &simulation.read.cells.as_slice()[section.cell] else {
        unreachable!();
    };
    let Some(numbers) = simulation.simulated.models.as_slice()[section.cell] else {
        unreachable!();
    };
    Beside {
        cell,
        ports: simulation.simulated.catalog.ports(section.cell),
        module: &simulation.read.modules.as_slice()[numbers.verilog],
        entity: &simulation.read.entities.as_slice()[numbers.vital],
    }
}

/// A cell before any change: its core behind its drivers. An `Err` comes only where memory is wanting.
fn start_cell<'a>(
    alloc: Global,
    cell: &'a DrivenCell,
    known: &Shared<CellStart>,
) -> Result<DrivenSim<'a, LibertySim<'a>>, AllocError>
    requires { IsCellStart (data_of cell.now.core) known.now }
    ensures machine { IfOk result (λ sim. ⟦<DrivenSim<'a, LibertySim<'a>> as TraceSim>⟧.machine sim ≡ machine_in cell.now) }
    ensures stands { IfOk result (λ sim. ⟦<DrivenSim<'a, LibertySim<'a>> as TraceSim>⟧.stands sim []) }
{
    let core = LibertySim::start_by(alloc, &cell.core, known)?;
    DrivenSim::over(alloc, core, &cell.driver)
}

/// Three simulators, where each was started.
fn all_started<L: Drop, V: Drop, H: Drop>(
    liberty: Result<L, AllocError>,
    verilog: Result<V, AllocError>,
    vital: Result<H, AllocError>,
) -> Result<ThreeSimulators<L, V, H>, AllocError>
    ensures { IfOk result (λ three. (liberty ≡ Ok three.liberty) × ((verilog ≡ Ok three.verilog) × (vital ≡ Ok three.vital))) }
{
    let ((liberty, verilog), vital) = both_made(both_made(liberty, verilog), vital)?;
    Ok(ThreeSimulators {
        liberty,
        verilog,
        vital,
    })
}

/// Appends to the report the section of three simulators that stand at their starts: this name, the lines of the three traces on
/// the changes, and whether these are equal. It answers whether two of them differ. After a fault a prefix of the section was
/// appended.
fn write_three_traces<D: Desk, L: TraceSim + Drop, V: TraceSim + Drop, H: TraceSim + Drop>(
    alloc: Global,
    desk: &mut D,
    name: &[u8],
    ports: &Ports,
    mut three: ThreeSimulators<L, V, H>,
    changes: &[Change],
) -> Result<bool, Stop>
    requires ports { HavePorts ports.now (L.machine three.liberty) (V.machine three.verilog) (H.machine three.vital) }
    requires liberty { L.stands three.liberty [] }
    requires verilog { V.stands three.verilog [] }
    requires vital { H.stands three.vital [] }
    requires proper { IsProperFrom (length ports.now.inputs) [] changes.now }
    ensures text { WritesTrace (D.state desk.old) (D.state desk.new)
        (compared_section (compared_with name.now ports.now (L.machine three.liberty) (V.machine three.verilog)
        (H.machine three.vital)) changes.now) result }
    ensures differs { IfOk result (λ some_differ. some_differ ≡ is_some
        (first_unlike changes.now (three_lines (L.machine three.liberty) (V.machine three.verilog) (H.machine three.vital)))) }
    ensures cause { StopsWithCause (D.faults desk.old) (D.faults desk.new) result }
{
    write_heading(desk, name)?;
    let first = write_comparison(alloc, desk, ports, &mut three, changes)?;
    write_verdict(desk, first)?;
    Ok(first.is_some())
}

/// Appends to the report the section of a cell: its name, the lines of the three traces on the section's changes, and whether
/// these are equal. It answers whether two of them differ. After a fault a prefix of the section was appended.
fn write_cell_section<D: Desk>(
    alloc: Global,
    desk: &mut D,
    known: &KnownBeside<'_>,
    section: &Section,
) -> Result<bool, Stop>
    requires { CanBeGiven known.now.beside section.now }
    ensures text { WritesTrace (D.state desk.old) (D.state desk.new)
        (compared_section (compared_of known.now.beside) section.now.changes) result }
    ensures differs { IfOk result (λ some_differ. some_differ ≡ is_some
        (first_unlike section.now.changes (lines_of (compared_of known.now.beside)))) }
    ensures cause { StopsWithCause (D.faults desk.old) (D.faults desk.new) result }
{
    let beside = known.beside;
    let name = beside.cell.name.as_slice();
    let changes = section.changes.as_slice();
    let liberty = start_cell(alloc, beside.cell, &known.liberty);
    let verilog = start_module(alloc, beside.module, &known.verilog);
    let vital = start_entity(alloc, beside.entity, &known.vital);
    match all_started(liberty, verilog, vital) {
        Ok(three) => write_three_traces(alloc, desk, name, beside.ports, three, changes),
        Err(_) => Err(Stop::Memory),
    }
}

/// Appends a section of a simulation to the report, and answers whether two of its three traces differ. After a fault a prefix of
/// the section was appended. What is known of its cell is found where no section was of it before.
fn write_compared_section<'a, D: Desk>(
    alloc: Global,
    desk: &mut D,
    simulation: &'a Simulation,
    known: &mut Vec<Option<KnownBeside<'a>>>,
    section: &Section,
) -> Result<bool, Stop>
    requires simulated { simulation.now.simulated ≡ simulated_of (all_described simulation.now.read.cells)
        simulation.now.read.modules simulation.now.read.entities }
    requires run { CanBeCompared (all_described simulation.now.read.cells) simulation.now.read.modules
        simulation.now.read.entities section.now }
    requires known { AreBesides simulation.now known.old.items }
    requires each { length known.old.items ≡ length simulation.now.simulated.models }
    ensures text { WritesTrace (D.state desk.old) (D.state desk.new)
        (section_text (all_described simulation.now.read.cells) simulation.now.read.modules simulation.now.read.entities
        section.now) result }
    ensures differs { IfOk result (λ some_differ. some_differ ≡ differs (all_described simulation.now.read.cells)
        simulation.now.read.modules simulation.now.read.entities section.now) }
    ensures known { OnOk result (AreBesides simulation.now known.new.items) }
    ensures each { OnOk result (length known.new.items ≡ length known.old.items) }
    ensures cause { StopsWithCause (D.faults desk.old) (D.faults desk.new) result }
{
    learn(alloc, simulation, known, section)?;
    let Some(beside) = &known[section.cell] else {
        unreachable!();
    };
    write_cell_section(alloc, desk, beside, section)
}

/// Appends the sections of a simulation to the report, in order, and answers whether two of the three traces of some section
/// differ. After a fault a prefix of the sections was appended. `Failed` comes only where a write failed.
pub(crate) fn write_compared_sections<D: Desk>(
    alloc: Global,
    desk: &mut D,
    simulation: &Simulation,
) -> Result<bool, Stop>
    requires { CanBePrinted simulation.now }
    ensures text { WritesTrace (D.state desk.old) (D.state desk.new)
        (sections_text (all_described simulation.now.read.cells) simulation.now.read.modules simulation.now.read.entities
        simulation.now.sections) result }
    ensures differs { IfOk result (λ some_differ. some_differ ≡ any_differs (all_described simulation.now.read.cells)
        simulation.now.read.modules simulation.now.read.entities simulation.now.sections) }
    ensures cause { StopsWithCause (D.faults desk.old) (D.faults desk.new) result }
{
    let mut known = nothing_known(alloc, simulation.simulated.models.len())?;
    let mut some_differ = false;
    for section in simulation.sections.as_slice() {
        let section_differs = write_compared_section(alloc, desk, simulation, &mut known, section)?;
        some_differ |= section_differs;
    }
    Ok(some_differ)
}
