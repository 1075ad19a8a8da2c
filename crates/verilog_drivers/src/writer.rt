//! The text of a driver.
ghost use Rattle.std.specs.Prelude.{IsTrue};
ghost use Rattle.text_io.specs.declared.slots.OutSlot.TheVariants.{VerilogText};
ghost use Rattle.text_io.specs.declared.slots.Slot.TheVariants.{Output};
ghost use Rattle.text_io.specs.Desk.{is_bound, HasCause, WritesText};
ghost use Rattle.verilog_drivers.specs.DriverText.{driver_text};

use crate::buffers::Buffers;
use crate::paths::DrivePathLines;
use driver_models::DriverModel;
use driver_texts::{CoreLine, EachPort, WireNames};
use text_io::{Bytes, Desk, Each, Failed, OutSlot, When, parts, write_part};
use verilog_writer::{PortLines, Ports};

/// Appends the text of a driver to the Verilog text, which is bound: a module of a cell (IEEE 1364-2005, 19.1) with its core and
/// a buffer for each driven output. After `Failed`, which comes only where a write failed, a prefix of it was appended. It takes
/// no memory. A number in the driver that names nothing is written as nothing; a sound driver has none.
pub fn write_driver<D: Desk>(desk: &mut D, model: &DriverModel) -> Result<(), Failed>
    requires { IsTrue (is_bound (D.state desk.old) (Output VerilogText)) }
    ensures text { WritesText (D.state desk.old) (D.state desk.new) VerilogText (driver_text model.now) result }
    ensures cause { HasCause (D.faults desk.old) (D.faults desk.new) result }
{
    let ports = model.ports.as_slice();
    let drives = model.driver.drives.as_slice();
    let paths = model.driver.paths.as_slice();
    let header = parts!(
        Bytes(b"`celldefine\nmodule "),
        Bytes(model.name.as_slice()),
        Bytes(b" ("),
        Ports(ports),
        Bytes(b");\n")
    );
    let wires = WireNames {
        before: b"  wire ",
        value: b"lib_d",
        enable: b"lib_e",
        count: drives.len(),
        behind: b";\n",
    };
    let (inputs, outputs) = (Each(PortLines(true), ports), Each(PortLines(false), ports));
    let declarations = parts!(inputs, outputs, wires);
    let core = CoreLine {
        before: b"  ",
        behind: b" lib_u (",
        value: b"lib_d",
        enable: b"lib_e",
        model,
    };
    let buffers = EachPort {
        texts: Buffers,
        drives,
        ports,
    };
    let lines = Each(DrivePathLines(model), paths);
    let block = parts!(Bytes(b"  specify\n"), lines, Bytes(b"  endspecify\n"));
    let block = When(paths.len() > 0, block);
    let end = Bytes(b"endmodule\n`endcelldefine\n");
    let text = parts!(header, declarations, core, buffers, block, end);
    write_part(desk, OutSlot::VerilogText, &text)
}
