//! How a simulation ends whose stimulus has a bad line.
ghost use Rattle.std.specs.Prelude.{◌≡◌, []};
ghost use Rattle.std.specs.Option.{option_copied, option_map, option_map_or};
ghost use Rattle.text_io.specs.declared.slots.OutSlot.TheVariants.{Faults};
ghost use Rattle.text_io.specs.Desk.{HasCause, WritesText};
ghost use Rattle.library_reader.specs.LibraryCells.{described, all_described, name_of};
ghost use Rattle.library_simulation.specs.FaultLines.{refused_cell_line, verilog_ports_line, vital_ports_line, refused_line_by};
ghost use Rattle.library_simulation.specs.FaultLines.{cause_line, cause_status as cause_status_of, cause_stop};

use cell_reader::Refusal;
use library_reader::{LibraryCell, PrintedName, RefusalLine};
use model_files::{BadLineStop, write_stimulus_fault};
use run_outcome::{Status, ended};
use stimulus::Cause;
use text_io::{Bytes, Desk, Failed, OutSlot, parts, write_part, write_pieces};

/// How a simulation of these cells ends at the first bad line of its stimulus.
#[derive(Drop)]
pub struct SimulationStop<'a> {
    /// The cells, in the order of the library.
    pub cells: &'a [LibraryCell],
}

impl BadLineStop for SimulationStop<'_> {
    ghost stop = { λ s. cause_stop (all_described s.cells.now) };

    fn tell<D: Desk>(&self, desk: &mut D, line: usize, cause: Cause) -> Status {
        ended(
            write_cause(desk, self.cells, line, cause),
            cause_status(cause),
        )
    }
}

/// The status of a run whose stimulus has a first bad line with this cause.
fn cause_status(cause: Cause) -> Status
    ensures { result ≡ cause_status_of cause }
{
    match cause {
        Cause::RefusedCell(_) => Status::Cells,
        Cause::VerilogPorts(_) | Cause::VitalPorts(_) => Status::Model,
        _ => Status::Stimulus,
    }
}

/// Tells the first bad line of a stimulus over the catalog of these cells, with the line's number, from 1, and its cause: of a
/// cell that may not be given changes its name, and why it is refused or which of its models is not there; else the line and the
/// cause. After `Failed`, which comes only where a write failed, a prefix of the line was appended.
fn write_cause<D: Desk>(
    desk: &mut D,
    cells: &[LibraryCell],
    line: usize,
    cause: Cause,
) -> Result<(), Failed>
    ensures text { WritesText (D.state desk.old) (D.state desk.new) Faults (cause_line (all_described cells.now) line cause)
        result }
    ensures cause { HasCause (D.faults desk.old) (D.faults desk.new) result }
{
    match cause {
        Cause::RefusedCell(number) => write_refused(desk, cells.get(number)),
        Cause::VerilogPorts(number) => write_verilog_ports(desk, name_of(cells.get(number))),
        Cause::VitalPorts(number) => write_vital_ports(desk, name_of(cells.get(number))),
        Cause::Form
        | Cause::UnknownCell
        | Cause::Count
        | Cause::UnknownPin
        | Cause::OutputPin
        | Cause::Value
        | Cause::Time => write_stimulus_fault(desk, line, cause),
    }
}

/// The name of a cell, empty where there is none.
fn name_of(cell: Option<&LibraryCell>) -> &[u8]
    ensures { result.now ≡ option_map_or name_of (option_map described (option_copied cell.entry)) [] }
{
    match cell {
        Some(cell) => cell.name(),
        None => b"",
    }
}

/// Tells why a cell is refused; nothing of one that is not.
#[tactic(auto, using(text_io::proofs::Wrote::desk_laws))]
fn write_refused<D: Desk>(desk: &mut D, cell: Option<&LibraryCell>) -> Result<(), Failed>
    ensures text { WritesText (D.state desk.old) (D.state desk.new) Faults
        (refused_line_by (option_map described (option_copied cell.entry))) result }
    ensures cause { HasCause (D.faults desk.old) (D.faults desk.new) result }
{
    match cell {
        Some(LibraryCell::Refused { name, refusal }) => {
            write_refusal_line(desk, name.as_slice(), refusal)
        }
        Some(LibraryCell::Accepted { .. }) | None => Ok(()),
    }
}

/// Tells why the cell with this name is refused, and where.
#[tactic(auto, unfolding(crate::specs::FaultLines::refused_cell_line))]
fn write_refusal_line<D: Desk>(desk: &mut D, name: &[u8], refusal: &Refusal) -> Result<(), Failed>
    ensures text { WritesText (D.state desk.old) (D.state desk.new) Faults (refused_cell_line name.now refusal.now) result }
    ensures cause { HasCause (D.faults desk.old) (D.faults desk.new) result }
{
    let line = parts!(Bytes(b"cell "), PrintedName(name), RefusalLine(refusal));
    write_part(desk, OutSlot::Faults, &line)
}

/// Tells that the Verilog model of the cell with this name is absent or has other ports.
#[tactic(auto, unfolding(crate::specs::FaultLines::verilog_ports_line))]
fn write_verilog_ports<D: Desk>(desk: &mut D, name: &[u8]) -> Result<(), Failed>
    ensures text { WritesText (D.state desk.old) (D.state desk.new) Faults (verilog_ports_line name.now) result }
    ensures cause { HasCause (D.faults desk.old) (D.faults desk.new) result }
{
    write_pieces(desk, OutSlot::Faults, &[b"verilog ports: ", name, b"\n"])
}

/// Tells that the VITAL model of the cell with this name is absent or has other ports.
#[tactic(auto, unfolding(crate::specs::FaultLines::vital_ports_line))]
fn write_vital_ports<D: Desk>(desk: &mut D, name: &[u8]) -> Result<(), Failed>
    ensures text { WritesText (D.state desk.old) (D.state desk.new) Faults (vital_ports_line name.now) result }
    ensures cause { HasCause (D.faults desk.old) (D.faults desk.new) result }
{
    write_pieces(desk, OutSlot::Faults, &[b"vital ports: ", name, b"\n"])
}
