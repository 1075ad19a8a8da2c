//! What is read of a library and left out.
ghost use Rattle.std.specs.Prelude.{◌≡◌};
ghost use Rattle.text_io.specs.declared.slots.OutSlot.TheVariants.{Report};
ghost use Rattle.text_io.specs.Desk.{HasCause, WritesText};
ghost use Rattle.library_reader.specs.LeftOutLines.{left_out_group_line, left_out_lines, left_out_file_line};
ghost use Rattle.library_reader.specs.LeftOutLines.{pin_name as pin_name_of};

use cell_machine::Pin;
use cell_reader::LeftOut;
use text_io::{
    Bytes, Decimal, Desk, Each, Failed, ItemText, Line, OutSlot, Part, Put, parts, write_part,
    write_whole,
};

/// Lines on the timing groups that make nothing, of the cell with this number and these pins: the number, the name of the group's
/// pin, and its type.
#[derive(Drop)]
struct GroupLines<'a>(usize, &'a [Pin]);

impl ItemText<LeftOut> for GroupLines<'_> {
    ghost text = { λ lines group. left_out_group_line lines.0 lines.1.now group };

    #[tactic(auto, unfolding(crate::specs::LeftOutLines::left_out_group_line, crate::specs::LeftOutLines::left_out_line))]
    fn put<D: Desk>(&self, group: &LeftOut, line: &mut Line, desk: &mut D, slot: OutSlot) -> Put {
        let kind = parts!(Bytes(b" "), Bytes(group.text()), Bytes(b"\n"));
        let pin = parts!(Bytes(b" "), Bytes(pin_name(self.1, group.pin)), kind);
        parts!(Bytes(b"left-out "), Decimal(self.0 as u128), pin).put(line, desk, slot)
    }
}

/// The name of the pin with this number, empty where there is none.
fn pin_name(pins: &[Pin], number: usize) -> &[u8]
    ensures { result.now ≡ pin_name_of pins.now number }
{
    match pins.get(number) {
        Some(pin) => pin.name.as_slice(),
        None => b"",
    }
}

/// Reports the timing groups that a cell leaves out, in order, with its number from 1 and its pins. After `Failed`,
/// which comes only where a write failed, a prefix of the lines was appended.
pub fn write_left_out_groups<D: Desk>(
    desk: &mut D,
    number: usize,
    pins: &[Pin],
    groups: &[LeftOut],
) -> Result<(), Failed>
    ensures text { WritesText (D.state desk.old) (D.state desk.new) Report (left_out_lines number pins.now groups.now) result }
    ensures cause { HasCause (D.faults desk.old) (D.faults desk.new) result }
{
    write_part(
        desk,
        OutSlot::Report,
        &Each(GroupLines(number, pins), groups),
    )
}

/// Reports a statement `include_file`. After `Failed`, which comes only where a write failed, a prefix of the line was
/// appended.
#[tactic(auto, unfolding(crate::specs::LeftOutLines::left_out_file_line))]
pub fn write_left_out_file<D: Desk>(desk: &mut D) -> Result<(), Failed>
    ensures text { WritesText (D.state desk.old) (D.state desk.new) Report left_out_file_line result }
    ensures cause { HasCause (D.faults desk.old) (D.faults desk.new) result }
{
    write_whole(desk, OutSlot::Report, b"left-out include_file\n")
}
