//! How a library ends.
ghost use Rattle.std.specs.Prelude.{◌≡◌};
ghost use Rattle.library_reader.specs.Endings.{ending_by};

use liberty_groups::{End, LibraryFault};
use thiserror::Error;

/// How a library ends.
#[derive(Clone, Copy)]
pub enum Ending {
    /// It is a library text.
    Whole,
    /// It is none.
    Fault(LibraryFault),
    /// It has more bytes than the limit.
    TooLong,
}

/// How a library ends that is read so, up to its end or its limit.
pub(crate) fn ending_by(end: End) -> Ending
    ensures { result ≡ ending_by end }
{
    match end {
        End::Whole => Ending::Whole,
        End::Cut => Ending::TooLong,
        End::Fault(fault) => Ending::Fault(fault),
    }
}

/// Why the cells of a library are not kept.
#[derive(Clone, Copy, Debug, PartialEq, Eq, Error)]
pub enum NotWhole {
    /// It is no library text.
    #[error("the library is refused: {0}")]
    Fault(LibraryFault),
    /// It has more bytes than the limit.
    #[error("the library is too long")]
    TooLong,
}
