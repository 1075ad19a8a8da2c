//! A file of models: its models are read, or the run ends.
ghost use Rattle.std.specs.Prelude.{◌≡◌, ◌≤◌, ℕ, List, All, Contains, Ok, length, IfOk, IfErr, OnOk};
ghost use Rattle.text_io.specs.declared.slots.Slot.TheVariants.{Input};
ghost use Rattle.text_io.specs.Plan.{plan};
ghost use Rattle.run_outcome.specs.FileSteps.{FileIsTaken, FileEndsRun, TellsStop, EndsBy, answer_where, StopsWithStatus};
ghost use Rattle.model_files.specs.Formats.{slot_of};
ghost use Rattle.model_files.specs.Limits.{model_limit};
ghost use Rattle.model_files.specs.ModelNames.{HaveOwnNames};
ghost use Rattle.model_files.specs.ModelAnswer.{long_model_stop, model_fault_stop, models_in_text, model_answer};

use crate::faults::{write_model_fault, write_model_too_long};
use crate::format::ModelFormat;
use crate::language::ModelLanguage;
use run_outcome::{FILE_LIMIT, Status, ended};
use std::alloc::Global;
use text_io::{Desk, Taken, read_all};
use udp_tables::ModelFault;

/// Tells a file of models with too many bytes, and answers how the run ends: `Outside` where a write failed, after a prefix of
/// the line.
fn tell_too_long<D: Desk>(desk: &mut D, format: ModelFormat) -> Status
    ensures told { TellsStop (long_model_stop format) (D.state desk.old) (D.state desk.new) result }
    ensures cause { StopsWithStatus (D.faults desk.old) (D.faults desk.new) result }
{
    ended(write_model_too_long(desk, format), Status::TooLong)
}

/// Tells a text of models that is refused, and answers how the run ends: `Outside` where a write failed, after a prefix of the
/// line.
fn tell_fault<D: Desk>(desk: &mut D, format: ModelFormat, fault: &ModelFault) -> Status
    ensures told { TellsStop (model_fault_stop format fault.now) (D.state desk.old) (D.state desk.new) result }
    ensures cause { StopsWithStatus (D.faults desk.old) (D.faults desk.new) result }
{
    ended(write_model_fault(desk, format, fault), Status::Model)
}

/// The models of a text of which so much was taken. One that ends the run is told.
fn models_taken<D: Desk, L: ModelLanguage>(
    alloc: Global,
    desk: &mut D,
    taken: &Taken,
) -> Result<Vec<L::Model>, Status>
    requires { length taken.now.bytes.items ≤ model_limit }
    ensures ok { IfOk result (λ models.
        (answer_where (long_model_stop L.language.format) (models_in_text L.language) taken.now.more taken.now.bytes.items ≡ Ok
        models.items) × (D.state desk.new ≡ D.state desk.old)) }
    ensures err { IfErr result (EndsBy
        (answer_where (long_model_stop L.language.format) (models_in_text L.language) taken.now.more taken.now.bytes.items)
        (D.state desk.old) (D.state desk.new)) }
    ensures text { IfOk result (λ models. L.language.text taken.now.bytes.items ≡ Ok models.items) }
    ensures well_formed { IfOk result (λ models. All L.language.is_well_formed models.items) }
    ensures own { IfOk result (λ models. HaveOwnNames L.language models.items) }
    ensures kept { OnOk result (D.faults desk.new ≡ D.faults desk.old) }
    ensures cause { IfErr result (StopsWithStatus (D.faults desk.old) (D.faults desk.new)) }
{
    if taken.more {
        return Err(tell_too_long(desk, L::format()));
    }
    match L::read(alloc, taken.bytes.as_slice()) {
        Ok(models) => Ok(models),
        Err(ModelFault::Memory) => Err(Status::Memory),
        Err(fault) => Err(tell_fault(desk, L::format(), &fault)),
    }
}

/// Binds the file of models that the word at this place names, and reads its models. They are well formed and have names of their
/// own. A file that is refused, or has more than `FILE_LIMIT` bytes, is told by a line of the faults, and ends the run with
/// `Model` or `TooLong`; the run ends with `Memory` where there was none, and with `Outside` only where a call failed.
pub fn read_model_file<D: Desk, L: ModelLanguage>(
    alloc: Global,
    desk: &mut D,
    place: usize,
) -> Result<Vec<L::Model>, Status>
    requires { Contains (plan (D.state desk.old).words) (Input (slot_of L.language.format), place) }
    ensures ok { IfOk result (λ models. FileIsTaken (model_answer L.language) (D.state desk.old) (D.state desk.new)
        (slot_of L.language.format) place models.items) }
    ensures err { IfErr result (FileEndsRun (model_answer L.language) (D.state desk.old) (D.state desk.new)
        (slot_of L.language.format) place) }
    ensures text { IfOk result (λ models. (text : List ℕ) × (length text ≤ model_limit)
        × (L.language.text text ≡ Ok models.items)) }
    ensures well_formed { IfOk result (λ models. All L.language.is_well_formed models.items) }
    ensures own { IfOk result (λ models. HaveOwnNames L.language models.items) }
    ensures kept { OnOk result (D.faults desk.new ≡ D.faults desk.old) }
    ensures cause { IfErr result (StopsWithStatus (D.faults desk.old) (D.faults desk.new)) }
{
    let slot = L::format().slot();
    desk.bind_in(slot, place)?;
    let taken = read_all(alloc, desk, slot, FILE_LIMIT)?;
    models_taken::<D, L>(alloc, desk, &taken)
}
