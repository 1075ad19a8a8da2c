//! The files of a comparison: the library and the Verilog file are read, or the run ends.
ghost use Rattle.std.specs.Prelude.{◌≡◌, IfOk, IfErr, OnOk};
ghost use Rattle.text_io.specs.Plan.{plan};
ghost use Rattle.run_outcome.specs.Runs.{RunsAs, StopsWithStatus};
ghost use Rattle.library_audit.specs.{Outcome.audit_files, Outcome.audit_of, Reads.ReadsFiles};

use crate::modules::{NamedModules, names_of};
use library_reader::{LibraryCell, read_library_file};
use model_files::read_model_file;
use model_replay::Verilog;
use run_outcome::Status;
use sqlite_items::Items;
use std::alloc::Global;
use text_io::Desk;

/// The cells of a library, and the models of a Verilog file.
#[derive(Drop)]
pub(crate) struct AuditFiles {
    /// The cells, in the order of the library.
    pub cells: Items<LibraryCell>,
    /// The models.
    pub named: NamedModules,
}

/// Binds and reads the library and the Verilog file that the words name, in this order.
///
/// The Verilog file is bound only behind a library that is read, and nothing is appended but the line that tells of a file that
/// ends the run. The run ends with `Outside` only where a call failed in this call, and with `Memory` where there was none; with
/// every other status it is over, and all that it comes to is there.
pub(crate) fn read_files<D: Desk>(alloc: Global, desk: &mut D) -> Result<AuditFiles, Status>
    requires { plan (D.state desk.old).words ≡ audit_files }
    ensures read { IfOk result (ReadsFiles (D.state desk.old) (D.state desk.new)) }
    ensures ended { IfErr result (RunsAs audit_files (audit_of (D.state desk.old).words) (D.state desk.old) (D.state desk.new)) }
    ensures kept { OnOk result (D.faults desk.new ≡ D.faults desk.old) }
    ensures cause { IfErr result (StopsWithStatus (D.faults desk.old) (D.faults desk.new)) }
{
    let cells = read_library_file(alloc, desk, 1)?;
    let models = read_model_file::<D, Verilog>(alloc, desk, 2)?;
    let names = names_of(alloc, models.as_slice())?;
    Ok(AuditFiles {
        cells: Items::from_vec(cells),
        named: NamedModules {
            models: Items::from_vec(models),
            names,
        },
    })
}
