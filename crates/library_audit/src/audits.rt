//! The lines of a library's cells, each beside its module.
ghost use Rattle.std.specs.Prelude.{◌≡◌, IfOk};
ghost use Rattle.text_io.specs.Desk.{StopsWithCause};
ghost use Rattle.stimulus.specs.Writes.{WritesTrace};
ghost use Rattle.three_state_cells.specs.DrivenCells.{driven_data_of};
ghost use Rattle.library_reader.specs.LibraryCells.{described, all_described};
ghost use Rattle.library_audit.specs.Audits.{accepted_text, audit_text, audits_text, is_other as is_other_of};
ghost use Rattle.library_audit.specs.Audits.{accepted_differs, differs, any_differs};
ghost use Rattle.library_audit.specs.Reads.{AreReady};

use crate::files::AuditFiles;
use crate::lines::{write_audit, write_left_out};
use crate::modules::NamedModules;
use library_reader::LibraryCell;
use std::alloc::Global;
use table_audit::Verdict;
use text_io::{Desk, Stop};
use three_state_cells::DrivenCell;

/// Whether a cell has no module that is the same.
fn is_other(found: &Option<Verdict>) -> bool
    ensures { result ≡ is_other_of found.now }
{
    !matches!(found, Some(Verdict::Same))
}

/// What cells are compared with: the models of a file, by their names.
#[derive(Clone, Copy)]
struct Comparison<'a> {
    alloc: Global,
    named: &'a NamedModules,
}

impl Comparison<'_> {
    /// Appends to the report the line of an accepted cell, and answers whether it is compared and has no module that is the same.
    /// After a fault a prefix of the line was appended.
    fn write_accepted<D: Desk>(&self, desk: &mut D, cell: &DrivenCell) -> Result<bool, Stop>
        requires { AreReady self.now.named.now }
        ensures text { WritesTrace (D.state desk.old) (D.state desk.new)
            (accepted_text self.now.named.now.models (driven_data_of cell.now)) result }
        ensures differs { IfOk result (λ other. other ≡ accepted_differs self.now.named.now.models (driven_data_of cell.now)) }
        ensures cause { StopsWithCause (D.faults desk.old) (D.faults desk.new) result }
    {
        if cell.driver.drives.len() > 0 {
            write_left_out(desk, cell.core.number, cell.name.as_slice())?;
            return Ok(false);
        }
        let found = self.named.verdict(self.alloc, &cell.core)?;
        write_audit(desk, cell.core.number, cell.name.as_slice(), &found)?;
        Ok(is_other(&found))
    }

    /// Appends to the report the line of a cell, where it is accepted, and answers whether it then has no module that is the
    /// same. After a fault a prefix of the line was appended.
    fn write_cell<D: Desk>(&self, desk: &mut D, cell: &LibraryCell) -> Result<bool, Stop>
        requires { AreReady self.now.named.now }
        ensures cause { StopsWithCause (D.faults desk.old) (D.faults desk.new) result }
        ensures text { WritesTrace (D.state desk.old) (D.state desk.new)
            (audit_text self.now.named.now.models (described cell.now)) result }
        ensures differs { IfOk result (λ other. other ≡ differs self.now.named.now.models (described cell.now)) }
    {
        match cell {
            LibraryCell::Accepted { cell, .. } => self.write_accepted(desk, cell),
            LibraryCell::Refused { .. } => Ok(false),
        }
    }
}

/// Appends to the report the lines of the accepted cells, in order, and answers whether some of them has no module that is the
/// same. After a fault a prefix of the lines was appended. `Failed` comes only where a write failed.
pub(crate) fn write_cells<D: Desk>(
    alloc: Global,
    desk: &mut D,
    files: &AuditFiles,
) -> Result<bool, Stop>
    requires { AreReady files.now.named }
    ensures text { WritesTrace (D.state desk.old) (D.state desk.new)
        (audits_text files.now.named.models (all_described files.now.cells)) result }
    ensures differs { IfOk result (λ some_differ. some_differ ≡ any_differs files.now.named.models
        (all_described files.now.cells)) }
    ensures cause { StopsWithCause (D.faults desk.old) (D.faults desk.new) result }
{
    let named = &files.named;
    let comparison = Comparison { alloc, named };
    let mut some_differ = false;
    for cell in files.cells.as_slice() {
        let cell_differs = comparison.write_cell(desk, cell)?;
        some_differ |= cell_differs;
    }
    Ok(some_differ)
}
