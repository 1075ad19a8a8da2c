//! What a line says, after the lines before it.
ghost use Rattle.std.specs.Prelude.{◌≡◌};
ghost use Rattle.stimulus.specs.Written.{shown};
ghost use Rattle.stimulus.specs.LineMeanings.{written_meaning, begun as begun_of, changed as changed_of};
ghost use Rattle.stimulus.specs.LineMeanings.{input_of as input_of_answer};
ghost use Rattle.stimulus.specs.LineMeanings.{value_of as value_of_word, is_later as is_later_of};

use crate::catalog::{Catalog, CellFound, PinFound};
use crate::context::{Context, Said};
use crate::faults::Cause;
use crate::times::time_of;
use crate::written::Written;
use cell_machine::Change;
use trit_cubes::Trit;

/// The greatest number of changes in a stimulus.
pub const MAX_CHANGES: usize = 1_000_000;

/// What a line says in which this is written, or the first of the causes for which it is bad.
pub(crate) fn line_meaning<C: Catalog>(
    catalog: &C,
    context: Context,
    written: Written<'_>,
) -> Result<Said, Cause>
    ensures { result ≡ written_meaning (C.listing catalog.now) context (shown written.entry) }
{
    match written {
        Written::Nothing => Ok(Said::Nothing),
        Written::Cell(name) => begun(catalog.cell(name)),
        Written::Change { time, pin, value } => changed(catalog, context, time, pin, value),
        Written::Other => Err(Cause::Form),
    }
}

/// The beginning of a section on a cell of which the catalog says this.
fn begun(found: CellFound) -> Result<Said, Cause>
    ensures { result ≡ begun_of found }
{
    match found {
        CellFound::Cell(cell) => Ok(Said::Begins(cell)),
        CellFound::Unknown => Err(Cause::UnknownCell),
        CellFound::Refused(cell) => Err(Cause::RefusedCell(cell)),
        CellFound::VerilogPorts(cell) => Err(Cause::VerilogPorts(cell)),
        CellFound::VitalPorts(cell) => Err(Cause::VitalPorts(cell)),
    }
}

/// The change that three words give.
fn changed<C: Catalog>(
    catalog: &C,
    context: Context,
    time: &[u8],
    pin: &[u8],
    value: &[u8],
) -> Result<Said, Cause>
    ensures { result ≡ changed_of (C.listing catalog.now) context time.now pin.now value.now }
{
    let cell = context.cell.ok_or(Cause::Form)?;
    let at = time_of(time).ok_or(Cause::Form)?;
    if context.changes >= MAX_CHANGES {
        return Err(Cause::Count);
    }
    let pin = input_of(catalog.pin(cell, pin))?;
    let to = value_of(value).ok_or(Cause::Value)?;
    if !is_later(at, context.last) {
        return Err(Cause::Time);
    }
    Ok(Said::Changes(Change { at, pin, to }))
}

/// The number of the input that a catalog's answer names.
fn input_of(found: PinFound) -> Result<usize, Cause>
    ensures { result ≡ input_of_answer found }
{
    match found {
        PinFound::Input(number) => Ok(number),
        PinFound::Output => Err(Cause::OutputPin),
        PinFound::Unknown => Err(Cause::UnknownPin),
    }
}

/// The value that a word stands for.
pub(crate) fn value_of(word: &[u8]) -> Option<Trit>
    ensures { result ≡ value_of_word word.now }
{
    match word {
        b"0" => Some(Trit::Zero),
        b"1" => Some(Trit::One),
        b"x" | b"X" => Some(Trit::Unknown),
        _ => None,
    }
}

/// Whether a time is after the last one, where there is a last one.
pub(crate) fn is_later(at: u64, last: Option<u64>) -> bool
    ensures { result ≡ is_later_of at last }
{
    match last {
        Some(last) => last < at,
        None => true,
    }
}
