//! Replaying a file of models: its files are read, and then its sections are run and printed.
ghost use Rattle.std.specs.Prelude.{◌≡◌};
ghost use Rattle.text_io.specs.Plan.{plan};
ghost use Rattle.run_outcome.specs.Status.{status_by};
ghost use Rattle.run_outcome.specs.Runs.{RunsAs, StopsWithStatus};
ghost use Rattle.model_replay.specs.Outcome.{replay_files, replay_of};

use crate::printing::write_replayed_sections;
use crate::reading::read_replay;
use model_files::ModelLanguage;
use run_outcome::Status;
use std::alloc::Global;
use text_io::{Desk, Stop};

/// Prints the traces of the models of the file that the words name, section by section of the stimulus that they name.
/// Nothing is printed before both files are read.
///
/// It ends with the status of the outcome, and all that the outcome appends was appended, or with `Outside`, only where a call
/// on the desk failed in this call, or with `Memory`, where there was none.
pub fn replay_models<D: Desk, L: ModelLanguage>(alloc: Global, desk: &mut D) -> Status
    requires { plan (D.state desk.old).words ≡ replay_files L.language.format }
    ensures writes { RunsAs (replay_files L.language.format) (replay_of L.language (D.state desk.old).words) (D.state desk.old)
        (D.state desk.new) result }
    ensures cause { StopsWithStatus (D.faults desk.old) (D.faults desk.new) result }
{
    match read_replay::<D, L>(alloc, desk) {
        Ok(replay) => printed_status(write_replayed_sections::<D, L>(alloc, desk, &replay)),
        Err(status) => status,
    }
}

/// The status of a run whose sections were printed so.
fn printed_status(printed: Result<(), Stop>) -> Status
    ensures { result ≡ status_by (λ _. Status.Done) printed }
{
    match printed {
        Ok(()) => Status::Done,
        Err(stop) => Status::from(stop),
    }
}
