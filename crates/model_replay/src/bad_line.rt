//! How a replay ends whose stimulus has a bad line.
ghost use Rattle.model_replay.specs.Outcome.{replay_line_stop};

use model_files::{BadLineStop, write_stimulus_fault};
use run_outcome::{Status, ended};
use stimulus::Cause;
use text_io::Desk;

/// A replay tells the number of the line and the cause, and ends with `Stimulus`: each of its models may be given changes.
pub(crate) struct ReplayStop;

impl BadLineStop for ReplayStop {
    ghost stop = { λ _. replay_line_stop };

    fn tell<D: Desk>(&self, desk: &mut D, line: usize, cause: Cause) -> Status {
        ended(write_stimulus_fault(desk, line, cause), Status::Stimulus)
    }
}
