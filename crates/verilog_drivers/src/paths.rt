//! The paths to driven outputs.
ghost use Rattle.std.specs.Prelude.{◌≡◌};
ghost use Rattle.driver_texts.specs.PortNames.{driven_name};
ghost use Rattle.verilog_drivers.specs.DriverText.{drive_path_text};

use driven_traces::DrivePath;
use driver_models::DriverModel;
use driver_texts::{input_name, output_name};
use text_io::{Bytes, Desk, ItemText, Line, OutSlot, Part, Put, parts};
use verilog_writer::PathDelays;

/// The name of the driven output with a number, none where there is no such output.
fn driven_name(model: &DriverModel, number: usize) -> &[u8]
    ensures { result.now ≡ driven_name model.now number }
{
    match model.driver.drives.get(number) {
        Some(place) => output_name(model.ports.as_slice(), *place),
        None => b"",
    }
}

/// Lines of paths in the specify block of a driver.
#[derive(Drop)]
pub(crate) struct DrivePathLines<'a>(pub(crate) &'a DriverModel);

impl ItemText<DrivePath> for DrivePathLines<'_> {
    ghost text = { λ m path. drive_path_text m.0.now path };

    #[tactic(auto, unfolding(crate::specs::DriverText::drive_path_text))]
    fn put<D: Desk>(&self, path: &DrivePath, line: &mut Line, desk: &mut D, slot: OutSlot) -> Put {
        let delays = PathDelays {
            from: input_name(self.0.ports.as_slice(), path.from),
            to: driven_name(self.0, path.drive),
            rise: path.rise,
            fall: path.fall,
        };
        parts!(Bytes(b"    "), delays).put(line, desk, slot)
    }
}
