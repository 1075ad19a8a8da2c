//! The statuses of a run, and the program's exit codes.
ghost use Rattle.std.specs.Prelude.{◌≡◌, MatchResult};
ghost use Rattle.run_outcome.specs.declared.status.Status.TheVariants as status;
ghost use Rattle.run_outcome.specs.Status.{code_of, stop_status, compared_status as compared_status_of};

use std::alloc::AllocError;
use text_io::{Failed, Stop};

/// How a run of a command ended.
#[derive(Clone, Copy)]
pub enum Status {
    /// The command did all its work.
    Done,
    /// The words have no reading.
    Usage,
    /// The library's text is refused.
    Library,
    /// A cell was refused.
    Cells,
    /// The stimulus has a bad line.
    Stimulus,
    /// A model file is refused, or has not the ports of its cell.
    Model,
    /// Two traces differ.
    Differ,
    /// A call on the world outside failed.
    Outside,
    /// There was no memory.
    Memory,
    /// A file has more bytes than its limit.
    TooLong,
}

impl Status {
    /// The exit code of the program: 0 to 9, in the order of the statuses.
    pub fn code(&self) -> u8
        ensures { result ≡ code_of self.now }
    {
        match self {
            Status::Done => 0,
            Status::Usage => 1,
            Status::Library => 2,
            Status::Cells => 3,
            Status::Stimulus => 4,
            Status::Model => 5,
            Status::Differ => 6,
            Status::Outside => 7,
            Status::Memory => 8,
            Status::TooLong => 9,
        }
    }
}

/// `Outside` where a call failed, and `Memory` where there was none.
impl From<Failed> for Status {
    ghost from_gives = { λ _ made. made ≡ status.Outside };

    fn from(_failed: Failed) -> Status {
        Status::Outside
    }
}

impl From<Stop> for Status {
    ghost from_gives = { λ stop made. made ≡ stop_status stop };

    fn from(stop: Stop) -> Status {
        match stop {
            Stop::Failed => Status::Outside,
            Stop::Memory => Status::Memory,
        }
    }
}

impl From<AllocError> for Status {
    ghost from_gives = { λ _ made. made ≡ status.Memory };

    fn from(_error: AllocError) -> Status {
        Status::Memory
    }
}

/// The status of a run whose last writing ended so: what it would be, or `Outside` where the writing failed.
pub fn ended(written: Result<(), Failed>, status: Status) -> Status
    ensures { MatchResult written (λ _. result ≡ status) (λ _. result ≡ Status.Outside) }
{
    match written {
        Ok(()) => status,
        Err(Failed) => Status::Outside,
    }
}

/// The status of a run that compares: by whether something differs, `Differ` or `Done`, or that of the call with which it
/// stopped.
pub fn compared_status(compared: Result<bool, Stop>) -> Status
    ensures { result ≡ compared_status_of compared }
{
    match compared {
        Ok(true) => Status::Differ,
        Ok(false) => Status::Done,
        Err(stop) => Status::from(stop),
    }
}
