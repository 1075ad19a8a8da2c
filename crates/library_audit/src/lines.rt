//! The line of a cell that is compared with its module.
ghost use Rattle.text_io.specs.declared.slots.OutSlot.TheVariants.{Report};
ghost use Rattle.text_io.specs.Desk.{HasCause, WritesText};
ghost use Rattle.library_audit.specs.Lines.{shape_text, difference_text, verdict_text, audit_line, left_out_line};

use crate::words::{Known, Place, Values, known_text, shape_word, table_word};
use table_audit::{Difference, ShapePart, Verdict};
use text_io::{Bytes, Decimal, Desk, Failed, Line, OutSlot, Part, Put, parts, write_part};

/// Another shape: the first part that has one, and its number.
#[derive(Drop)]
struct OtherShape(ShapePart, usize);

impl Part for OtherShape {
    ghost text = { λ s. shape_text s.0 s.1 };

    #[tactic(auto, unfolding(crate::specs::Lines::shape_text))]
    fn put<D: Desk>(&self, line: &mut Line, desk: &mut D, slot: OutSlot) -> Put {
        let number = parts!(Bytes(b" "), Decimal(self.1 as u128), Bytes(b"\n"));
        parts!(Bytes(b" shape "), Bytes(shape_word(self.0)), number).put(line, desk, slot)
    }
}

/// A table with another value than the cell: what it is for, its number, where the values differ, and both values.
#[derive(Drop)]
struct OtherTable<'a>(&'a Difference);

impl Part for OtherTable<'_> {
    ghost text = { λ t. difference_text t.0.now };

    fn put<D: Desk>(&self, line: &mut Line, desk: &mut D, slot: OutSlot) -> Put {
        let found = self.0;
        let notifier = parts!(Bytes(b" notifier "), Known(found.notifier));
        let stored = parts!(Bytes(b" state "), Known(found.state), notifier);
        let places = parts!(Bytes(b" new"), Values(found.places), stored);
        let old = parts!(Bytes(b" old "), Known(found.old), places);
        let arguments = parts!(Bytes(b" place "), Place(found.changed), old);
        let of_model = known_text(Some(found.of_model));
        let model = parts!(Bytes(b" model "), Bytes(of_model), Bytes(b"\n"));
        let of_cell = known_text(Some(found.of_cell));
        let values = parts!(Bytes(b" cell "), Bytes(of_cell), model);
        let number = Decimal(found.number as u128);
        let numbered = parts!(Bytes(b" "), number, arguments, values);
        parts!(Bytes(b" differs "), Bytes(table_word(found)), numbered).put(line, desk, slot)
    }
}

/// What is said of a cell, where a module has its name.
#[derive(Drop)]
struct Found<'a>(&'a Option<Verdict>);

impl Part for Found<'_> {
    ghost text = { λ f. verdict_text f.0.now };

    fn put<D: Desk>(&self, line: &mut Line, desk: &mut D, slot: OutSlot) -> Put {
        let Some(verdict) = self.0 else {
            return Bytes(b" absent\n").put(line, desk, slot);
        };
        match verdict {
            Verdict::Same => Bytes(b" same\n").put(line, desk, slot),
            Verdict::Shape { part, number } => OtherShape(*part, *number).put(line, desk, slot),
            Verdict::Differs(difference) => OtherTable(difference).put(line, desk, slot),
        }
    }
}

/// Reports what comparing a cell with its module came to: the cell's number, from 1 among all cells of the library, its name, and
/// the verdict, or that no module has its name. After `Failed`, which comes only where a write failed, a prefix of the line was
/// appended.
#[tactic(auto, unfolding(crate::specs::Lines::audit_line))]
pub(crate) fn write_audit<D: Desk>(
    desk: &mut D,
    number: usize,
    name: &[u8],
    found: &Option<Verdict>,
) -> Result<(), Failed>
    ensures text { WritesText (D.state desk.old) (D.state desk.new) Report (audit_line number name.now found.now) result }
    ensures cause { HasCause (D.faults desk.old) (D.faults desk.new) result }
{
    let verdict = parts!(Bytes(b" "), Bytes(name), Found(found));
    let line = parts!(Bytes(b"audit "), Decimal(number as u128), verdict);
    write_part(desk, OutSlot::Report, &line)
}

/// Reports a cell that is not compared, since some of its outputs may float: its number, from 1 among all cells of the library,
/// and its name. After `Failed`, which comes only where a write failed, a prefix of the line was appended.
#[tactic(auto, unfolding(crate::specs::Lines::left_out_line))]
pub(crate) fn write_left_out<D: Desk>(
    desk: &mut D,
    number: usize,
    name: &[u8],
) -> Result<(), Failed>
    ensures text { WritesText (D.state desk.old) (D.state desk.new) Report (left_out_line number name.now) result }
    ensures cause { HasCause (D.faults desk.old) (D.faults desk.new) result }
{
    let name = parts!(Bytes(b" "), Bytes(name), Bytes(b" left-out\n"));
    let line = parts!(Bytes(b"audit "), Decimal(number as u128), name);
    write_part(desk, OutSlot::Report, &line)
}
