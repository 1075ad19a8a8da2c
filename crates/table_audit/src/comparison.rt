//! The comparison of a module with a cell.
ghost use Rattle.std.specs.Prelude.{◌≡◌};
ghost use Rattle.cell_machine.specs.CellData.{data_of};
ghost use Rattle.specify_blocks.specs.Sound.{IsSound};
ghost use Rattle.module_tables.specs.SameValues.{AreFed};
ghost use Rattle.module_tables.specs.Tables.{compared, first_difference};
ghost use Rattle.table_audit.specs.Verdict.{by_tables, verdict_of};

use crate::verdicts::Verdict;
use cell_machine::Cell;
use module_shapes::first_amiss;
use module_tables::{AuditPart, Difference};
use specify_blocks::VModule;

/// The first difference of the tables: of states, at changes of pins and then of the register of the checks, of conditions and of
/// outputs.
fn first_of_tables(cell: &Cell, model: &VModule) -> Option<Difference>
    requires sound { IsSound model.now }
    requires fed { AreFed (data_of cell.now) model.now }
    ensures { result ≡ first_difference (compared (data_of cell.now) model.now) }
{
    AuditPart::State
        .first(cell, model)
        .or_else(|| AuditPart::Notifier.first(cell, model))
        .or_else(|| AuditPart::Check.first(cell, model))
        .or_else(|| AuditPart::Path.first(cell, model))
        .or_else(|| AuditPart::Output.first(cell, model))
}

/// The verdict on a module of the cell's shape.
fn by_tables(cell: &Cell, model: &VModule) -> Verdict
    requires sound { IsSound model.now }
    requires fed { AreFed (data_of cell.now) model.now }
    ensures { result ≡ by_tables (first_difference (compared (data_of cell.now) model.now)) }
{
    match first_of_tables(cell, model) {
        Some(difference) => Verdict::Differs(difference),
        None => Verdict::Same,
    }
}

/// Whether a module has the shape and the tables of a cell; else the first part whose shape is another, or the first arguments
/// at which a table gives another value. It searches no states and takes no memory.
///
/// The instances of primitives with a state stand for the state groups in their order, the ports, timing checks and paths for
/// the cell's in their order. The nets that feed an instance are compared as a set. Names are not compared, and parts of the
/// module that stand for nothing in the cell are not looked at.
///
/// The parts go in the order of `ShapePart` and of `AuditPart`, then by their numbers. Lists of values are ordered from the
/// left, 0 before 1 before unknown. A change of a pin goes by its place in the support, the value before, the values after, the
/// state and the register of the checks; a change of the register goes from unknown to 0, from 0 to 1 and from 1 to 0, then by
/// the values and the state.
pub fn audit(cell: &Cell, model: &VModule) -> Verdict
    requires { IsSound model.now }
    ensures { result ≡ verdict_of (data_of cell.now) model.now }
{
    match first_amiss(cell, model) {
        Some(test) => Verdict::Shape {
            part: test.part,
            number: test.number,
        },
        None => by_tables(cell, model),
    }
}
