//! A run that compares a library with a Verilog file: both are read, and then the line of each accepted cell is printed.
ghost use Rattle.std.specs.Prelude.{◌≡◌};
ghost use Rattle.text_io.specs.Plan.{plan};
ghost use Rattle.run_outcome.specs.Runs.{RunsAs, StopsWithStatus};
ghost use Rattle.library_audit.specs.{Outcome.audit_files, Outcome.audit_of};

use crate::audits::write_cells;
use crate::files::read_files;
use run_outcome::{Status, compared_status};
use std::alloc::Global;
use text_io::Desk;

/// Compares the accepted cells of a library with the modules of a Verilog file, both of the files that the words name: of each
/// cell it prints whether the module with the name that is written for the cell is there, has the cell's shape, and has the
/// cell's value at all arguments of its tables. A cell whose outputs may float is left out. Nothing is printed before both files
/// are read, and nothing of a cell that is refused.
///
/// It ends with the status of the outcome, and all that the outcome appends was appended, or with `Outside`, only where a call
/// on the desk failed in this call, or with `Memory`, where there was none.
pub fn audit_library<D: Desk>(alloc: Global, desk: &mut D) -> Status
    requires { plan (D.state desk.old).words ≡ audit_files }
    ensures writes { RunsAs audit_files (audit_of (D.state desk.old).words) (D.state desk.old) (D.state desk.new) result }
    ensures cause { StopsWithStatus (D.faults desk.old) (D.faults desk.new) result }
{
    match read_files(alloc, desk) {
        Err(status) => status,
        Ok(files) => compared_status(write_cells(alloc, desk, &files)),
    }
}
