//! The text of a cell's module, behind its primitives.
ghost use Rattle.std.specs.Prelude.{◌≡◌, IsTrue};
ghost use Rattle.text_io.specs.declared.slots.OutSlot.TheVariants.{VerilogText};
ghost use Rattle.text_io.specs.declared.slots.Slot.TheVariants.{Output};
ghost use Rattle.text_io.specs.Desk.{is_bound, HasCause, WritesText};
ghost use Rattle.verilog_writer.specs.Timing.{has_block};
ghost use Rattle.verilog_writer.specs.Model.{prelude_text, module_text};

use crate::declarations::{PortLines, Ports, Register};
use crate::names::NameLines;
use crate::nets::InModule;
use crate::primitive::Primitives;
use specify_blocks::VModule;
use text_io::{Bytes, Desk, Each, Failed, OutSlot, When, parts, write_part, write_whole};

/// Appends what a text of modules begins with to the Verilog text, which is bound: times are in picoseconds. After `Failed`,
/// which comes only where a write failed, a prefix of it was appended. It takes no memory.
#[tactic(auto, unfolding(crate::specs::Model::prelude_text))]
pub fn write_prelude<D: Desk>(desk: &mut D) -> Result<(), Failed>
    requires { IsTrue (is_bound (D.state desk.old) (Output VerilogText)) }
    ensures text { WritesText (D.state desk.old) (D.state desk.new) VerilogText prelude_text result }
    ensures cause { HasCause (D.faults desk.old) (D.faults desk.new) result }
{
    write_whole(desk, OutSlot::VerilogText, b"`timescale 1ps/1ps\n")
}

/// Whether the module has a specify block.
fn has_block(model: &VModule) -> bool
    ensures { result ≡ has_block model.now }
{
    model.paths.len() > 0 || model.checks.len() > 0
}

/// Appends the text of a model to the Verilog text, which is bound: its primitives, and then its module, which is the line of its
/// header, its declarations, its instances, and its specify block, where there is one. After `Failed`, which comes only where a
/// write failed, a prefix of it was appended. It takes no memory. A number in the model that names nothing is written as nothing;
/// a sound model has none.
pub fn write_model<D: Desk>(desk: &mut D, model: &VModule) -> Result<(), Failed>
    requires { IsTrue (is_bound (D.state desk.old) (Output VerilogText)) }
    ensures text { WritesText (D.state desk.old) (D.state desk.new) VerilogText (module_text model.now) result }
    ensures cause { HasCause (D.faults desk.old) (D.faults desk.new) result }
{
    let name = Bytes(model.name.as_slice());
    let opening = parts!(Bytes(b"module "), name, Bytes(b" ("));
    let ports = model.ports.as_slice();
    let header = parts!(opening, Ports(ports), Bytes(b");\n"));
    let (inputs, outputs) = (Each(PortLines(true), ports), Each(PortLines(false), ports));
    let inner = Each(NameLines(b"  wire "), model.wires.as_slice());
    let declarations = parts!(inputs, outputs, inner, Register(&model.notifier));
    let instances = Each(InModule(model), model.instances.as_slice());
    let paths = Each(InModule(model), model.paths.as_slice());
    let checks = Each(InModule(model), model.checks.as_slice());
    let lines = parts!(
        Bytes(b"  specify\n"),
        paths,
        checks,
        Bytes(b"  endspecify\n")
    );
    let block = When(has_block(model), lines);
    let module = parts!(
        header,
        declarations,
        instances,
        block,
        Bytes(b"endmodule\n")
    );
    let primitives = Each(Primitives, model.udps.as_slice());
    write_part(desk, OutSlot::VerilogText, &parts!(primitives, module))
}
