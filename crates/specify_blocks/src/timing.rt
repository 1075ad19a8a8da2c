//! The paths and the timing checks of a cell's module.
ghost use Rattle.std.specs.Prelude.{◌≡◌, None, map, IfOk};
ghost use Rattle.std.specs.List.{list_any};
ghost use Rattle.cell_machine.specs.CellData.{data_of};
ghost use Rattle.udp_tables.specs.Conditions.{conditions_of};
ghost use Rattle.specify_blocks.specs.Generated.{wire_of, is_conditional, gate_by, path_of, check_of};

use crate::model::{Gate, VPath};
use bool_functions::Function;
use cell_machine::{Arc, Cell};
use cell_tables::{ModelSource, checks_of, condition_number};
use sqlite_items::Items;
use std::alloc::AllocError;
use udp_tables::{TimingCheck, port_number};

/// The paths of a cell's module: one for each arc, in order.
pub(crate) fn paths_of(from: &ModelSource) -> Result<Items<VPath>, AllocError>
    ensures { IfOk result (λ paths. paths ≡ map (path_of (data_of from.now.cell.now)) from.now.cell.now.arcs) }
{
    let mut paths = Items::new(from.alloc);
    for arc in from.cell.arcs.as_slice() {
        paths.push(path_of(from.cell, from.conditions, arc))?;
    }
    Ok(paths)
}

/// The timing checks of a cell's module, in order. The wires of its states stand before those of its conditions.
pub(crate) fn module_checks(from: &ModelSource) -> Result<Items<TimingCheck>, AllocError>
    ensures { IfOk result (λ checks. checks ≡ map (check_of (data_of from.now.cell.now)) from.now.cell.now.checks) }
{
    checks_of(from.cell.groups.len(), from)
}

/// The path of an arc.
fn path_of(cell: &Cell, conditions: &[&Function], arc: &Arc) -> VPath
    requires { map (λ f. f.now) conditions.now ≡ conditions_of (data_of cell.now) }
    ensures { result ≡ path_of (data_of cell.now) arc.now }
{
    let pins = cell.pins.as_slice();
    VPath {
        from: port_number(pins, arc.from),
        to: port_number(pins, arc.to),
        rise: arc.rise,
        fall: arc.fall,
        gate: gate_of(cell, conditions, arc),
    }
}

/// When the path of an arc counts.
fn gate_of(cell: &Cell, conditions: &[&Function], arc: &Arc) -> Gate
    requires { map (λ f. f.now) conditions.now ≡ conditions_of (data_of cell.now) }
    ensures { result ≡ gate_by (data_of cell.now) arc.now arc.now.condition }
{
    match &arc.condition {
        Some(condition) => Gate::If(wire_of(cell, conditions, condition)),
        None => gate_without_condition(cell, arc),
    }
}

/// When a path without condition counts.
fn gate_without_condition(cell: &Cell, arc: &Arc) -> Gate
    ensures { result ≡ gate_by (data_of cell.now) arc.now None }
{
    if has_conditional(cell.arcs.as_slice(), arc) {
        Gate::IfNone
    } else {
        Gate::Always
    }
}

/// Whether one of the arcs has a condition and the two pins of this one.
fn has_conditional(arcs: &[Arc], arc: &Arc) -> bool
    ensures { result ≡ list_any (is_conditional arc.now) arcs.now }
{
    arcs.iter().any(|other| is_conditional(arc, other))
}

/// Whether the other arc has a condition and the same two pins.
fn is_conditional(arc: &Arc, other: &Arc) -> bool
    ensures { result ≡ is_conditional arc.now other.now }
{
    arc.same_pins(other) && other.condition.is_some()
}

/// The wire of a condition.
fn wire_of(cell: &Cell, conditions: &[&Function], condition: &Function) -> usize
    requires { map (λ f. f.now) conditions.now ≡ conditions_of (data_of cell.now) }
    ensures { result ≡ wire_of (data_of cell.now) condition.now }
{
    cell.groups.len() + condition_number(conditions, condition)
}
