//! A run of a simulation: four files are read, and then the traces of each section are printed and compared.
ghost use Rattle.std.specs.Prelude.{◌≡◌};
ghost use Rattle.text_io.specs.Plan.{plan};
ghost use Rattle.run_outcome.specs.Runs.{RunsAs, StopsWithStatus};
ghost use Rattle.library_simulation.specs.Simulate.{simulate_files, simulate_of};

use crate::comparisons::write_compared_sections;
use crate::simulation::read_simulation;
use run_outcome::{Status, compared_status};
use std::alloc::Global;
use text_io::Desk;

/// Prints the traces of the cells of a library, of their Verilog and of their VITAL models, section by section of a stimulus, all
/// of the files that the words name, and whether the three of each section are equal. Nothing is printed before all four files
/// are read.
///
/// It ends with the status of the outcome, and all that the outcome appends was appended, or with `Outside`, only where a call
/// on the desk failed in this call, or with `Memory`, where there was none.
pub fn simulate_library<D: Desk>(alloc: Global, desk: &mut D) -> Status
    requires { plan (D.state desk.old).words ≡ simulate_files }
    ensures writes { RunsAs simulate_files (simulate_of (D.state desk.old).words) (D.state desk.old) (D.state desk.new) result }
    ensures cause { StopsWithStatus (D.faults desk.old) (D.faults desk.new) result }
{
    match read_simulation(alloc, desk) {
        Ok(simulation) => compared_status(write_compared_sections(alloc, desk, &simulation)),
        Err(status) => status,
    }
}
