//! The words and values of a line on a cell that is compared with its module.
ghost use Rattle.std.specs.Prelude.{◌≡◌, flat_map};
ghost use Rattle.library_audit.specs.Lines.{shape_word as shape_word_of, table_word as table_word_of};
ghost use Rattle.library_audit.specs.Lines.{known_text as known_text_of, place_text, listed_value, listed_text};

use table_audit::{AuditPart, Difference, ShapePart};
use text_io::{Bytes, Decimal, Desk, Line, OutSlot, Part, Put, parts};
use trit_cubes::{Cube, Trit};

/// What a module has of another shape than its cell.
pub(crate) fn shape_word(part: ShapePart) -> &'static [u8]
    ensures { result.now ≡ shape_word_of part }
{
    match part {
        ShapePart::Ports => b"ports",
        ShapePart::States => b"states",
        ShapePart::StateInputs => b"state-inputs",
        ShapePart::Checks => b"checks",
        ShapePart::Paths => b"paths",
        ShapePart::CheckInputs => b"check-inputs",
        ShapePart::PathInputs => b"path-inputs",
        ShapePart::Outputs => b"outputs",
    }
}

/// What the table is for that has another value than the cell.
pub(crate) fn table_word(difference: &Difference) -> &'static [u8]
    ensures { result.now ≡ table_word_of difference.now.part }
{
    match difference.part {
        AuditPart::State => b"state",
        AuditPart::Notifier => b"notifier",
        AuditPart::Check => b"check",
        AuditPart::Path => b"path",
        AuditPart::Output => b"output",
    }
}

/// A value as a model's text writes it, `0`, `1` or `x`, and a dash where there is none.
pub(crate) fn known_text(value: Option<Trit>) -> &'static [u8]
    ensures { result.now ≡ known_text_of value }
{
    match value {
        Some(Trit::Zero) => b"0",
        Some(Trit::One) => b"1",
        Some(Trit::Unknown) => b"x",
        None => b"-",
    }
}

/// A value, a dash where there is none.
#[derive(Drop)]
pub(crate) struct Known(pub Option<Trit>);

impl Part for Known {
    ghost text = { λ k. known_text_of k.0 };

    fn put<D: Desk>(&self, line: &mut Line, desk: &mut D, slot: OutSlot) -> Put {
        Bytes(known_text(self.0)).put(line, desk, slot)
    }
}

/// A place of a list, as it is numbered from 1, a dash where there is none.
#[derive(Drop)]
pub(crate) struct Place(pub Option<usize>);

impl Part for Place {
    ghost text = { λ p. place_text p.0 };

    fn put<D: Desk>(&self, line: &mut Line, desk: &mut D, slot: OutSlot) -> Put {
        match self.0 {
            Some(place) => Decimal(place as u128 + 1).put(line, desk, slot),
            None => Bytes(b"-").put(line, desk, slot),
        }
    }
}

/// Values in order, each behind a space, a dash where there are none.
#[derive(Drop)]
pub(crate) struct Values(pub Cube);

impl Part for Values {
    ghost text = { λ v. listed_text v.0 };

    fn put<D: Desk>(&self, line: &mut Line, desk: &mut D, slot: OutSlot) -> Put {
        if self.0.len() == 0 {
            Bytes(b" -").put(line, desk, slot)
        } else {
            EachValue(self.0).put(line, desk, slot)
        }
    }
}

/// Values in order, each behind a space.
#[derive(Drop)]
struct EachValue(Cube);

impl Part for EachValue {
    ghost text = { λ v. flat_map listed_value v.0 };

    fn put<D: Desk>(&self, line: &mut Line, desk: &mut D, slot: OutSlot) -> Put {
        for place in 0..self.0.len() {
            let value = Bytes(known_text(Some(self.0.place(place))));
            parts!(Bytes(b" "), value).put(line, desk, slot)?;
        }
        Ok(())
    }
}
