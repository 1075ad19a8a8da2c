//! The text of a primitive.
ghost use Rattle.std.specs.Prelude.{IsTrue};
ghost use Rattle.text_io.specs.declared.slots.Slot.TheVariants.{Output};
ghost use Rattle.text_io.specs.Desk.{is_bound, HasCause, WritesText};
ghost use Rattle.verilog_writer.specs.Primitive.{primitive_text};

use crate::names::{ListedNames, NameLines};
use crate::table::Rows;
use text_io::{
    Bytes, Desk, Each, Failed, ItemText, Line, OutSlot, Part, Put, When, parts, write_part,
};
use udp_tables::Udp;

/// Appends the text of a primitive to a slot that is bound. After `Failed`, which comes only where a write failed, a
/// prefix of it was appended. It takes no memory.
pub fn write_udp<D: Desk>(desk: &mut D, slot: OutSlot, udp: &Udp) -> Result<(), Failed>
    requires { IsTrue (is_bound (D.state desk.old) (Output slot)) }
    ensures text { WritesText (D.state desk.old) (D.state desk.new) slot (primitive_text udp.now) result }
    ensures cause { HasCause (D.faults desk.old) (D.faults desk.new) result }
{
    write_part(desk, slot, &Primitive(udp))
}

/// A primitive: the line of its header, its declarations, and its table.
#[derive(Drop)]
struct Primitive<'a>(&'a Udp);

impl Part for Primitive<'_> {
    ghost text = { λ m. primitive_text m.0.now };

    fn put<D: Desk>(&self, line: &mut Line, desk: &mut D, slot: OutSlot) -> Put {
        let name = Bytes(self.0.name.as_slice());
        let output = self.0.output.as_slice();
        let inputs = self.0.inputs.as_slice();
        let opening = parts!(Bytes(b"primitive "), name, Bytes(b" ("), Bytes(output));
        let header = parts!(opening, Each(ListedNames(b", "), inputs), Bytes(b");\n"));
        let register = When(self.0.sequential, (Bytes(b";\n  reg "), Bytes(output)));
        let declared = parts!(Bytes(b"  output "), Bytes(output), register, Bytes(b";\n"));
        let inputs = Each(NameLines(b"  input "), inputs);
        let rows = Each(Rows(self.0.sequential), self.0.rows.as_slice());
        let end = Bytes(b"  endtable\nendprimitive\n");
        let table = parts!(Bytes(b"  table\n"), rows, end);
        parts!(header, declared, inputs, table).put(line, desk, slot)
    }
}

/// Primitives, one behind the other.
#[derive(Drop)]
pub(crate) struct Primitives;

impl ItemText<Udp> for Primitives {
    ghost text = { λ _ udp. primitive_text udp };

    fn put<D: Desk>(&self, udp: &Udp, line: &mut Line, desk: &mut D, slot: OutSlot) -> Put {
        Primitive(udp).put(line, desk, slot)
    }
}
