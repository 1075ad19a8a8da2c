//! The text of a driver.
ghost use Rattle.std.specs.Prelude.{IsTrue};
ghost use Rattle.text_io.specs.declared.slots.OutSlot.TheVariants.{VitalText};
ghost use Rattle.text_io.specs.declared.slots.Slot.TheVariants.{Output};
ghost use Rattle.text_io.specs.Desk.{is_bound, HasCause, WritesText};
ghost use Rattle.vhdl_drivers.specs.DriverText.{process_text, driver_text};

use crate::inputs::NextInputs;
use crate::lines::{Buffers, DrivenLines, DrivenVariables};
use driver_models::DriverModel;
use driver_texts::{CoreLine, ListedNames, NumberedNames, WireNames};
use text_io::{Bytes, Desk, Failed, Line, OutSlot, Part, Put, parts, write_part};
use vhdl_writer::{Each, EntityHeader, PortList};

/// The beginning of the process: the signals to which it responds.
#[derive(Drop)]
struct Process<'a>(&'a DriverModel);

impl Part for Process<'_> {
    ghost text = { λ p. process_text p.0.now };

    #[tactic(auto, unfolding(crate::specs::DriverText::process_text))]
    fn put<D: Desk>(&self, line: &mut Line, desk: &mut D, slot: OutSlot) -> Put {
        let count = self.0.driver.drives.len();
        let data = NumberedNames {
            before: b"",
            word: b"d_",
            count,
            behind: b", ",
        };
        let enables = ListedNames { word: b"e_", count };
        let inputs = NextInputs(self.0.ports.as_slice());
        parts!(Bytes(b"  process ("), inputs, data, enables, Bytes(b")\n")).put(line, desk, slot)
    }
}

/// Appends the text of a driver to the VHDL text, which is bound: an entity and its architecture (IEEE 1076-1993, 1.1 and 1.2)
/// with its core and a buffer for each driven output (IEEE 1076.4-2000, VitalBUFIF1). After `Failed`, which comes only where a
/// write failed, a prefix of it was appended. It takes no memory. A number in the driver that names nothing is written as
/// nothing; a sound driver has none.
pub fn write_driver<D: Desk>(desk: &mut D, model: &DriverModel) -> Result<(), Failed>
    requires { IsTrue (is_bound (D.state desk.old) (Output VitalText)) }
    ensures text { WritesText (D.state desk.old) (D.state desk.new) VitalText (driver_text model.now) result }
    ensures cause { HasCause (D.faults desk.old) (D.faults desk.new) result }
{
    let drives = model.driver.drives.as_slice();
    let header = EntityHeader {
        packages: b"use work.all;\nlibrary IEEE;\nuse IEEE.std_logic_1164.all;\nuse IEEE.VITAL_Timing.all;\nuse IEEE.VITAL_Primitives.all;\nentity ",
        name: model.name.as_slice(),
        ports: PortList(model.ports.as_slice()),
        architecture: b";\narchitecture driven of ",
    };
    let signals = WireNames {
        before: b"  signal ",
        value: b"d_",
        enable: b"e_",
        count: drives.len(),
        behind: b" : std_ulogic;\n",
    };
    let core = CoreLine {
        before: b"begin\n  u_1 : entity work.",
        behind: b" port map (",
        value: b"d_",
        enable: b"e_",
        model,
    };
    let variables = Each(DrivenVariables(model), drives);
    let (buffers, lines) = (Each(Buffers, drives), Each(DrivenLines(model), drives));
    let statements = parts!(variables, Bytes(b"  begin\n"), buffers, lines);
    let end = Bytes(b"  end process;\nend driven;\n");
    let text = parts!(header, signals, core, Process(model), statements, end);
    write_part(desk, OutSlot::VitalText, &text)
}
