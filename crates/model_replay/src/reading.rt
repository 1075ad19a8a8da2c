//! The files of a replay: the models and the sections that are to be run.
ghost use Rattle.std.specs.Prelude.{◌≡◌, IfOk, IfErr, OnOk};
ghost use Rattle.text_io.specs.Plan.{plan};
ghost use Rattle.run_outcome.specs.Runs.{RunsAs, StopsWithStatus};
ghost use Rattle.model_replay.specs.Outcome.{replay_files, replay_of};
ghost use Rattle.model_replay.specs.Replays.{ReadsReplay};

use crate::bad_line::ReplayStop;
use crate::catalog::models_named;
use model_files::{ModelLanguage, read_model_file, read_stimulus_file};
use run_outcome::Status;
use sqlite_items::Items;
use std::alloc::Global;
use stimulus::{PortCatalog, Section};
use text_io::Desk;

/// The models of a file and the sections of a stimulus that are to be run on them.
#[derive(Drop)]
pub(crate) struct Replay<M: Drop> {
    /// The models, in the order of the file.
    pub models: Items<M>,
    /// The models by their names, with the names of their ports.
    pub catalog: PortCatalog,
    /// The sections, each of the model with its number.
    pub sections: Items<Section>,
}

/// Binds and reads the file of models and then the stimulus, which are the files that the words name.
///
/// The stimulus is bound only behind a file of models that is read. Of the first file that is refused a line is told, and
/// nothing else is appended. The replay ends with `Outside` only where a call failed in this call, and with `Memory` where
/// there was none; with every other status the run is over, and all that it comes to is there.
pub(crate) fn read_replay<D: Desk, L: ModelLanguage>(
    alloc: Global,
    desk: &mut D,
) -> Result<Replay<L::Model>, Status>
    requires { plan (D.state desk.old).words ≡ replay_files L.language.format }
    ensures read { IfOk result (ReadsReplay L.language (D.state desk.old) (D.state desk.new)) }
    ensures ended { IfErr result (RunsAs (replay_files L.language.format) (replay_of L.language (D.state desk.old).words)
        (D.state desk.old) (D.state desk.new)) }
    ensures kept { OnOk result (D.faults desk.new ≡ D.faults desk.old) }
    ensures cause { IfErr result (StopsWithStatus (D.faults desk.old) (D.faults desk.new)) }
{
    let models = read_model_file::<D, L>(alloc, desk, 1)?;
    let catalog = models_named::<L>(alloc, models.as_slice())?;
    let sections = read_stimulus_file(alloc, desk, 2, &ReplayStop, &catalog)?;
    Ok(Replay {
        models: Items::from_vec(models),
        catalog,
        sections: Items::from_vec(sections),
    })
}
