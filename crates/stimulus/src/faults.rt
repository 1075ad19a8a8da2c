//! The faults of this crate.
use thiserror::Error;

/// What is wrong with a line. Of several causes the first in this order is told. The printed text is the cause's word.
#[derive(Clone, Copy, Debug, PartialEq, Eq, Error)]
pub enum Cause {
    /// The line has not two words of which the first is `cell`, nor three; or it has three, and no section has begun or
    /// the first word is not a time of 1 to 15 digits.
    #[error("form")]
    Form,
    /// The catalog does not name the cell.
    #[error("unknown cell")]
    UnknownCell,
    /// The cell with this number in the catalog is refused.
    #[error("refused cell")]
    RefusedCell(usize),
    /// The Verilog module of the cell with this number in the catalog is absent or has other ports.
    #[error("verilog ports")]
    VerilogPorts(usize),
    /// The VHDL entity of the cell with this number in the catalog is absent or has other ports.
    #[error("vital ports")]
    VitalPorts(usize),
    /// The change is the 1,000,001st of the file.
    #[error("count")]
    Count,
    /// The section's cell has no port of this name.
    #[error("unknown pin")]
    UnknownPin,
    /// The port of this name is an output.
    #[error("output pin")]
    OutputPin,
    /// The value is none of `0`, `1`, `x` and `X`.
    #[error("value")]
    Value,
    /// The time is not above that of the section's change before it.
    #[error("time")]
    Time,
}

impl Cause {
    ghost use Rattle.std.specs.Prelude.{◌≡◌};
    ghost use Rattle.stimulus.specs.CauseWords.{word_of_cause};

    /// The word of the cause.
    pub fn word(self) -> &'static [u8]
        ensures { result.now ≡ word_of_cause self }
    {
        match self {
            Cause::Form => b"form",
            Cause::UnknownCell => b"unknown cell",
            Cause::RefusedCell(_) => b"refused cell",
            Cause::VerilogPorts(_) => b"verilog ports",
            Cause::VitalPorts(_) => b"vital ports",
            Cause::Count => b"count",
            Cause::UnknownPin => b"unknown pin",
            Cause::OutputPin => b"output pin",
            Cause::Value => b"value",
            Cause::Time => b"time",
        }
    }
}

/// Why a stimulus is not read.
#[derive(Clone, Copy, Debug, PartialEq, Eq, Error)]
pub enum StimulusFault {
    /// The first bad line.
    #[error("stimulus line {line}: {cause}")]
    Line {
        /// Its number, from 1 among all lines of the file.
        line: usize,
        /// What is wrong with it.
        cause: Cause,
    },
    /// Memory was wanted and not there.
    #[error("out of memory")]
    Memory,
}
