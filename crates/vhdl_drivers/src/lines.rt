//! The lines of driven outputs: their variables, their buffers, and their assignments.
ghost use Rattle.std.specs.Prelude.{◌≡◌, nat_eq, nat_lt, length};
ghost use Rattle.std.specs.List.{list_any};
ghost use Rattle.vhdl_drivers.specs.DriverText.{own_paths, driven_variables_text, buffer_text, driven_line};

use crate::path_lists::OwnPaths;
use driven_traces::DrivePath;
use driver_models::DriverModel;
use driver_texts::output_name;
use text_io::{Bytes, Decimal, Desk, Line, OutSlot, Part, Put, parts};
use vhdl_writer::{AssignedVariables, Assignment, At, ItemText, TwiceNumbered};

/// Whether one of these paths leads to the driven output with this number, from 0.
fn has_path_to(paths: &[DrivePath], number: usize) -> bool
    ensures { result ≡ list_any (λ path. nat_eq path.drive number) paths.now }
{
    paths.iter().any(|path| path.drive == number)
}

/// Whether a path leads to the driven output with this number, from 1.
fn has_own(model: &DriverModel, number: usize) -> bool
    ensures { result ≡ nat_lt 0 (length (own_paths model.now number)) }
{
    has_path_to(model.driver.paths.as_slice(), number.saturating_sub(1))
}

/// The variables of driven outputs.
#[derive(Drop)]
pub(crate) struct DrivenVariables<'a>(pub(crate) &'a DriverModel);

impl ItemText<usize> for DrivenVariables<'_> {
    ghost text = { λ m n place. driven_variables_text m.0.now n place };

    fn put<D: Desk>(&self, at: &At<usize>, line: &mut Line, desk: &mut D, slot: OutSlot) -> Put {
        AssignedVariables {
            number: at.number,
            has_paths: has_own(self.0, at.number),
        }
        .put(line, desk, slot)
    }
}

/// The buffers of driven outputs. (IEEE 1076.4-2000, VitalBUFIF1.)
#[derive(Drop)]
pub(crate) struct Buffers;

impl ItemText<usize> for Buffers {
    ghost text = { λ _ n place. buffer_text n place };

    fn put<D: Desk>(&self, at: &At<usize>, line: &mut Line, desk: &mut D, slot: OutSlot) -> Put {
        let number = Decimal(at.number as u128);
        TwiceNumbered {
            start: b"    z_",
            next: b" := VitalBUFIF1 (d_",
            number: at.number,
            rest: parts!(Bytes(b", e_"), number, Bytes(b");\n")),
        }
        .put(line, desk, slot)
    }
}

/// The lines of driven outputs.
#[derive(Drop)]
pub(crate) struct DrivenLines<'a>(pub(crate) &'a DriverModel);

impl ItemText<usize> for DrivenLines<'_> {
    ghost text = { λ m n place. driven_line m.0.now n place };

    fn put<D: Desk>(&self, at: &At<usize>, line: &mut Line, desk: &mut D, slot: OutSlot) -> Put {
        let ports = self.0.ports.as_slice();
        let paths = OwnPaths {
            ports,
            paths: self.0.driver.paths.as_slice(),
            drive: at.number.saturating_sub(1),
        };
        Assignment {
            number: at.number,
            name: output_name(ports, *at.item),
            has_paths: has_own(self.0, at.number),
            paths,
        }
        .put(line, desk, slot)
    }
}
