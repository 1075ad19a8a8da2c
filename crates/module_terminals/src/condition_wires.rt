//! The conditions of checks and of paths, and the wires that stand for them.
ghost use Rattle.std.specs.Prelude.{◌≡◌, ◌<◌, ◌≤◌, length, slice_get};
ghost use Rattle.std.specs.Option.{ForSome, option_and_then};
ghost use Rattle.bool_functions.specs.{Tree.name_bound, Support.support_of};
ghost use Rattle.cell_machine.specs.CellData.{data_of};
ghost use Rattle.udp_tables.specs.declared.timing_checks.TimingCheck.{TimingCheck};
ghost use Rattle.specify_blocks.specs.declared.model.VPath.{VPath};
ghost use Rattle.module_terminals.specs.Feeding.{gating, check_gating, path_gating, gate_wire};

use bool_functions::Function;
use cell_machine::Cell;
use specify_blocks::{Gate, VModule};

/// A condition of a cell that may be absent, and the wire that stands for it in a module, where it has one. A condition has at
/// most 10 names, which are below 96.
#[derive(Clone, Copy)]
pub struct ConditionWire<'a> {
    /// The condition.
    pub condition: &'a Option<Function>,
    /// The wire.
    pub wire: Option<usize>,
    ghost bounded: { ForSome condition.now (λ f. name_bound f ≤ 96) },
    ghost few: { ForSome condition.now (λ f. length (support_of f) ≤ 10) },
}

/// The wire of the check with this number, where it has one.
fn check_wire(model: &VModule, check: usize) -> Option<usize>
    ensures { result ≡ option_and_then (λ (timing : TimingCheck). timing.condition) (slice_get model.now.checks check) }
{
    match model.checks.as_slice().get(check) {
        Some(timing) => timing.condition,
        None => None,
    }
}

/// The condition of a check, and its wire.
pub fn of_check<'a>(cell: &'a Cell, model: &VModule, check: usize) -> ConditionWire<'a>
    requires { check < length cell.now.checks }
    ensures { gating result.condition.now result.wire ≡ check_gating (data_of cell.now) model.now check }
{
    ConditionWire {
        condition: &cell.check(check).condition,
        wire: check_wire(model, check),
    }
}

/// The wire of an `if` path.
pub fn gate_wire(gate: Gate) -> Option<usize>
    ensures { result ≡ gate_wire gate }
{
    match gate {
        Gate::Always => None,
        Gate::If(wire) => Some(wire),
        Gate::IfNone => None,
    }
}

/// The wire of the path with this number, where it is an `if` path.
fn path_wire(model: &VModule, path: usize) -> Option<usize>
    ensures { result ≡ option_and_then (λ (path : VPath). gate_wire path.gate) (slice_get model.now.paths path) }
{
    let path = model.paths.as_slice().get(path)?;
    gate_wire(path.gate)
}

/// The condition of an arc, and the wire of its path.
pub fn of_path<'a>(cell: &'a Cell, model: &VModule, arc: usize) -> ConditionWire<'a>
    requires { arc < length cell.now.arcs }
    ensures { gating result.condition.now result.wire ≡ path_gating (data_of cell.now) model.now arc }
{
    let wire = path_wire(model, arc);
    let condition = &cell.arc(arc).condition;
    ConditionWire { condition, wire }
}
