//! The stimulus of a run: its sections are read over a catalog of cells, or the run ends.
ghost use Rattle.std.specs.Prelude.{◌≡◌, ℕ, List, Contains, Ok, IfOk, IfErr, OnOk};
ghost use Rattle.text_io.specs.declared.slots.InSlot.TheVariants.{Stimulus};
ghost use Rattle.text_io.specs.declared.slots.Slot.TheVariants.{Input};
ghost use Rattle.text_io.specs.Plan.{plan};
ghost use Rattle.stimulus.specs.PortEntries.{listed};
ghost use Rattle.stimulus.specs.Stimulus.{stimulus_of};
ghost use Rattle.run_outcome.specs.FileSteps.{FileIsTaken, FileEndsRun, TellsStop, EndsBy, answer_where, StopsWithStatus};
ghost use Rattle.model_files.specs.StimulusAnswer.{long_stimulus_stop, sections_in_text, stimulus_answer};

use crate::bad_line::BadLineStop;
use crate::faults::write_stimulus_too_long;
use crate::limits::STIMULUS_LIMIT;
use run_outcome::{Status, ended};
use std::alloc::Global;
use stimulus::{PortCatalog, Section, StimulusFault, read_stimulus};
use text_io::{Desk, InSlot, Taken, read_all};

/// Tells a stimulus with too many bytes, and answers how the run ends: `Outside` where a write failed, after a prefix of the
/// line.
fn tell_too_long<D: Desk>(desk: &mut D) -> Status
    ensures told { TellsStop long_stimulus_stop (D.state desk.old) (D.state desk.new) result }
    ensures cause { StopsWithStatus (D.faults desk.old) (D.faults desk.new) result }
{
    ended(write_stimulus_too_long(desk), Status::TooLong)
}

/// The sections of a stimulus of which so much was taken. One that ends the run is told.
fn sections_taken<D: Desk, B: BadLineStop>(
    alloc: Global,
    desk: &mut D,
    bad_line: &B,
    catalog: &PortCatalog,
    taken: &Taken,
) -> Result<Vec<Section>, Status>
    ensures ok { IfOk result (λ sections.
        (answer_where long_stimulus_stop (sections_in_text (B.stop bad_line.now) catalog.now) taken.now.more
        taken.now.bytes.items ≡ Ok sections.items) × (D.state desk.new ≡ D.state desk.old)) }
    ensures err { IfErr result (EndsBy
        (answer_where long_stimulus_stop (sections_in_text (B.stop bad_line.now) catalog.now) taken.now.more
        taken.now.bytes.items) (D.state desk.old) (D.state desk.new)) }
    ensures read { IfOk result (λ sections. stimulus_of (listed catalog.now) taken.now.bytes.items ≡ Ok sections.items) }
    ensures kept { OnOk result (D.faults desk.new ≡ D.faults desk.old) }
    ensures cause { IfErr result (StopsWithStatus (D.faults desk.old) (D.faults desk.new)) }
{
    if taken.more {
        return Err(tell_too_long(desk));
    }
    match read_stimulus(alloc, taken.bytes.as_slice(), catalog) {
        Ok(sections) => Ok(sections),
        Err(StimulusFault::Line { line, cause }) => Err(bad_line.tell(desk, line, cause)),
        Err(StimulusFault::Memory) => Err(Status::Memory),
    }
}

/// Binds the stimulus, which the word at this place names, and reads its sections over a catalog of cells. It ends the run with
/// `TooLong` where the file has more than `STIMULUS_LIMIT` bytes, and at its first bad line as `bad_line` says, in both cases
/// after the line that tells it; with `Memory` where there was none, and with `Outside` only where a call failed.
pub fn read_stimulus_file<D: Desk, B: BadLineStop>(
    alloc: Global,
    desk: &mut D,
    place: usize,
    bad_line: &B,
    catalog: &PortCatalog,
) -> Result<Vec<Section>, Status>
    requires { Contains (plan (D.state desk.old).words) (Input Stimulus, place) }
    ensures ok { IfOk result (λ sections. FileIsTaken (stimulus_answer (B.stop bad_line.now) catalog.now) (D.state desk.old)
        (D.state desk.new) Stimulus place sections.items) }
    ensures err { IfErr result (FileEndsRun (stimulus_answer (B.stop bad_line.now) catalog.now) (D.state desk.old)
        (D.state desk.new) Stimulus place) }
    ensures read { IfOk result (λ sections. (bytes : List ℕ) × (stimulus_of (listed catalog.now) bytes ≡ Ok sections.items)) }
    ensures kept { OnOk result (D.faults desk.new ≡ D.faults desk.old) }
    ensures cause { IfErr result (StopsWithStatus (D.faults desk.old) (D.faults desk.new)) }
{
    desk.bind_in(InSlot::Stimulus, place)?;
    let taken = read_all(alloc, desk, InSlot::Stimulus, STIMULUS_LIMIT)?;
    sections_taken(alloc, desk, bad_line, catalog, &taken)
}
