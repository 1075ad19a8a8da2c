//! Drawing the waves of the report that a desk has bound.
ghost use Rattle.std.specs.Prelude.{◌≡◌, IsTrue, IfOk};
ghost use Rattle.text_io.specs.declared.slots.InSlot.TheVariants.{Library};
ghost use Rattle.text_io.specs.declared.slots.OutSlot.TheVariants.{VerilogText, Faults};
ghost use Rattle.text_io.specs.declared.slots.Slot.TheVariants.{Input, Output};
ghost use Rattle.text_io.specs.Desk.{is_bound, HasCause, StopsWithCause, WritesText};
ghost use Rattle.run_outcome.specs.Status.{is_decided};
ghost use Rattle.wave_reports.specs.Waves.{drawing_of};
ghost use Rattle.wave_reports.specs.Outcome.{status_behind as status_behind_of, too_long_line};
ghost use Rattle.wave_reports.specs.Draws.{Draws};

use crate::dump::write_dump;
use crate::{Waves, waves_of};
use run_outcome::{FILE_LIMIT, Status};
use std::alloc::{AllocError, Global};
use text_io::{Desk, Failed, InSlot, OutSlot, Stop, Taken, read_all, write_whole};

/// What is drawn of the report that was taken.
fn waves_taken(alloc: Global, taken: &Taken) -> Result<Waves, AllocError>
    ensures definitions { IfOk result (λ w. w.definitions.items ≡ (drawing_of taken.now.bytes.items).definitions) }
    ensures changes { IfOk result (λ w. w.changes.items ≡ (drawing_of taken.now.bytes.items).changes) }
    ensures faults { IfOk result (λ w. w.faults.items ≡ (drawing_of taken.now.bytes.items).faults) }
{
    waves_of(alloc, taken.bytes.as_slice())
}

/// Tells that the report has too many bytes.
#[tactic(auto, unfolding(crate::specs::Outcome::too_long_line))]
fn tell_too_long<D: Desk>(desk: &mut D) -> Result<(), Failed>
    ensures text { WritesText (D.state desk.old) (D.state desk.new) Faults too_long_line result }
    ensures cause { HasCause (D.faults desk.old) (D.faults desk.new) result }
{
    write_whole(desk, OutSlot::Faults, b"report too long\n")
}

/// Tells each line that cannot be read.
fn tell_faults<D: Desk>(desk: &mut D, waves: &Waves) -> Result<(), Failed>
    ensures text { WritesText (D.state desk.old) (D.state desk.new) Faults waves.now.faults.items result }
    ensures cause { HasCause (D.faults desk.old) (D.faults desk.new) result }
{
    write_whole(desk, OutSlot::Faults, waves.faults.as_slice())
}

/// The status of a run that has drawn this.
fn status_behind(waves: &Waves) -> Status
    ensures { result ≡ status_behind_of waves.now.faults.items }
{
    if waves.faults.is_empty() {
        Status::Done
    } else {
        Status::Stimulus
    }
}

/// Reads the report that is bound, writes its waves to the dump that is bound, and tells each line that cannot be read. Nothing
/// is written before the report is read.
pub(crate) fn draw_bound<D: Desk>(alloc: Global, desk: &mut D) -> Result<Status, Stop>
    requires report { IsTrue (is_bound (D.state desk.old) (Input Library)) }
    requires dump { IsTrue (is_bound (D.state desk.old) (Output VerilogText)) }
    ensures text { Draws (D.state desk.old) (D.state desk.new) result }
    ensures cause { StopsWithCause (D.faults desk.old) (D.faults desk.new) result }
    ensures usage { IfOk result (λ status. status ≡ Status.Usage → ⊥) }
    ensures decided { IfOk result (λ status. IsTrue (is_decided status)) }
{
    let taken = read_all(alloc, desk, InSlot::Library, FILE_LIMIT)?;
    if taken.more {
        tell_too_long(desk)?;
        return Ok(Status::TooLong);
    }
    let waves = waves_taken(alloc, &taken)?;
    write_dump(desk, &waves)?;
    tell_faults(desk, &waves)?;
    Ok(status_behind(&waves))
}
