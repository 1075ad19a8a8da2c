//! How a run ends at the first bad line of its stimulus.
ghost use Rattle.run_outcome.specs.FileSteps.{TellsStop, StopsWithStatus};
ghost use Rattle.model_files.specs.StimulusAnswer.{LineStop};

use run_outcome::Status;
use stimulus::Cause;
use text_io::Desk;

/// How a run ends at the first bad line of its stimulus: the status, and the line of the faults.
pub trait BadLineStop {
    ghost stop: { Self → LineStop };

    /// Tells the first bad line, which has this number, from 1, and this cause, and answers how the run ends: `Outside` where a
    /// write failed, after a prefix of what is told.
    fn tell<D: Desk>(&self, desk: &mut D, line: usize, cause: Cause) -> Status
        ensures told { TellsStop (stop self.now line cause) (D.state desk.old) (D.state desk.new) result }
        ensures cause { StopsWithStatus (D.faults desk.old) (D.faults desk.new) result };
}
