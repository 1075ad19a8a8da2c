//! Translating a library: its files are bound, its items are handled in order, and its end is told.
ghost use Rattle.std.specs.Prelude.{◌≡◌, [], ◌∷◌, IsTrue, IfOk};
ghost use Rattle.text_io.specs.declared.slots.Slot.TheVariants.{Input, Output};
ghost use Rattle.text_io.specs.declared.slots.InSlot.TheVariants.{Library};
ghost use Rattle.text_io.specs.declared.slots.OutSlot.TheVariants.{VerilogText, VitalText};
ghost use Rattle.text_io.specs.Desk.{is_bound, HasCause, StopsWithCause};
ghost use Rattle.text_io.specs.Plan.{plan};
ghost use Rattle.run_outcome.specs.Status.{is_decided};
ghost use Rattle.run_outcome.specs.Binding.{Binds};
ghost use Rattle.run_outcome.specs.Runs.{StopsWithStatus};
ghost use Rattle.library_reader.specs.declared.ending.Ending.TheVariants as ending;
ghost use Rattle.library_translation.specs.Cells.{ModelsAreBound};
ghost use Rattle.library_translation.specs.Library.{IsReady, status_at, Finishes, Translates};
ghost use Rattle.library_translation.specs.Runs.{translate_files, RunsTranslation};

use crate::items::handle_items;
use library_reader::{Ending, Progress, write_library_fault, write_library_too_long, write_totals};
use run_outcome::Status;
use std::alloc::Global;
use text_io::{Desk, Failed, InSlot, OutSlot, Stop};
use verilog_writer::write_prelude;

/// Writes the Verilog and VHDL models of the cells of the library that the words name, and its report.
///
/// It ends with the status of the outcome, and all that the outcome appends was appended, or with `Outside`, only where a call
/// on the desk failed in this call, or with `Memory`, where there was none. However it ends, all is there that is written for the
/// cells whose closing braces lie more than 65,536 bytes before the end of the bytes that it read.
pub fn translate_library<D: Desk>(alloc: Global, desk: &mut D) -> Status
    requires { plan (D.state desk.old).words ≡ translate_files }
    ensures writes { RunsTranslation (D.state desk.old) (D.state desk.new) result }
    ensures cause { StopsWithStatus (D.faults desk.old) (D.faults desk.new) result }
{
    match bind_files(desk) {
        Ok(()) => match translate_bound(alloc, desk) {
            Ok(status) => status,
            Err(Stop::Failed) => Status::Outside,
            Err(Stop::Memory) => Status::Memory,
        },
        Err(Failed) => Status::Outside,
    }
}

/// Binds the files of `translate`, in the order of its words.
#[tactic(auto, unfolding(text_io::specs::Desk::opened, text_io::specs::Desk::created))]
fn bind_files<D: Desk>(desk: &mut D) -> Result<(), Failed>
    requires { plan (D.state desk.old).words ≡ (Input Library, 1) ∷ (Output VerilogText, 2) ∷ (Output VitalText, 3) ∷ [] }
    ensures binds { Binds translate_files (D.state desk.old) (D.state desk.new) result }
    ensures cause { HasCause (D.faults desk.old) (D.faults desk.new) result }
{
    desk.bind_in(InSlot::Library, 1)?;
    desk.bind_out(OutSlot::VerilogText, 2)?;
    desk.bind_out(OutSlot::VitalText, 3)
}

/// Translates the library that is bound.
fn translate_bound<D: Desk>(alloc: Global, desk: &mut D) -> Result<Status, Stop>
    requires library { IsTrue (is_bound (D.state desk.old) (Input Library)) }
    requires models { ModelsAreBound (D.state desk.old) }
    ensures text { Translates (D.state desk.old) (D.state desk.new) result }
    ensures cause { StopsWithCause (D.faults desk.old) (D.faults desk.new) result }
    ensures usage { IfOk result (λ status. status ≡ Status.Usage → ⊥) }
    ensures decided { IfOk result (λ status. IsTrue (is_decided status)) }
{
    let mut progress = Progress::new(alloc);
    translate_from(alloc, desk, &mut progress)
}

/// The same, where no item of the library was handled before.
fn translate_from<D: Desk>(
    alloc: Global,
    desk: &mut D,
    progress: &mut Progress,
) -> Result<Status, Stop>
    requires { IsReady (D.state desk.old) progress.old }
    ensures text { Translates (D.state desk.old) (D.state desk.new) result }
    ensures cause { StopsWithCause (D.faults desk.old) (D.faults desk.new) result }
    ensures usage { IfOk result (λ status. status ≡ Status.Usage → ⊥) }
    ensures decided { IfOk result (λ status. IsTrue (is_decided status)) }
{
    write_prelude(desk)?;
    let ending = handle_items(alloc, desk, progress)?;
    Ok(finish(desk, progress, ending)?)
}

/// The status where the library was read to its end.
fn whole_status(progress: &Progress) -> Status
    ensures { result ≡ status_at ending.Whole progress.now }
{
    if progress.refused == 0 {
        Status::Done
    } else {
        Status::Cells
    }
}

/// Writes what stands behind the items of a library, and answers the status at its end.
fn finish<D: Desk>(desk: &mut D, progress: &Progress, ending: Ending) -> Result<Status, Failed>
    ensures text { Finishes (D.state desk.old) (D.state desk.new) progress.now ending result }
    ensures cause { HasCause (D.faults desk.old) (D.faults desk.new) result }
{
    match ending {
        Ending::Whole => {
            write_totals(desk, progress.accepted, progress.refused)?;
            Ok(whole_status(progress))
        }
        Ending::Fault(fault) => {
            write_library_fault(desk, &fault)?;
            Ok(Status::Library)
        }
        Ending::TooLong => {
            write_library_too_long(desk)?;
            Ok(Status::TooLong)
        }
    }
}
