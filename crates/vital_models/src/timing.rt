//! The paths and the timing checks of a cell's entity.
ghost use Rattle.std.specs.Prelude.{◌≡◌, nat_eq, map, filter, IfOk};
ghost use Rattle.cell_machine.specs.declared.arcs.Arc.{Arc};
ghost use Rattle.cell_machine.specs.CellData.{data_of};
ghost use Rattle.vital_tables.specs.udp_tables.Conditions.{conditions_beside};
ghost use Rattle.vital_models.specs.Generated.{place_of, all_zero, gate_by, path_of, paths_to, check_of};

use bool_functions::Function;
use cell_machine::Arc;
use cell_tables::{ModelSource, checks_of, condition_number};
use sqlite_items::Items;
use std::alloc::AllocError;
use vital_tables::primitives::{TimingCheck, port_number};
use vital_tables::{HGate, HPath};

/// The paths of a cell's entity to an output pin: one for each arc that ends there.
pub(crate) fn paths_to(from: &ModelSource, pin: usize) -> Result<Items<HPath>, AllocError>
    ensures { IfOk result (λ paths. paths ≡ paths_to (data_of from.now.cell.now) pin) }
{
    let mut paths = Items::new(from.alloc);
    for arc in from.cell.arcs.as_slice() {
        if ends_at(arc, pin) {
            paths.push(path_of(from, arc)?)?;
        }
    }
    Ok(paths)
}

/// The timing checks of a cell's entity, in order.
pub(crate) fn entity_checks(from: &ModelSource) -> Result<Items<TimingCheck>, AllocError>
    ensures { IfOk result (λ checks. checks ≡ map (check_of (data_of from.now.cell.now)) from.now.cell.now.checks) }
{
    checks_of(0, from)
}

/// Whether an arc ends at this pin.
fn ends_at(arc: &Arc, pin: usize) -> bool
    ensures { result ≡ nat_eq arc.now.to pin }
{
    arc.to == pin
}

/// The path of an arc.
fn path_of(from: &ModelSource, arc: &Arc) -> Result<HPath, AllocError>
    ensures { IfOk result (λ path. path ≡ path_of (data_of from.now.cell.now) arc.now) }
{
    Ok(HPath {
        from: port_number(from.cell.pins.as_slice(), arc.from),
        rise: arc.rise,
        fall: arc.fall,
        gate: gate_of(from, arc)?,
    })
}

/// When the path of an arc counts.
fn gate_of(from: &ModelSource, arc: &Arc) -> Result<HGate, AllocError>
    ensures { IfOk result (λ gate. gate ≡ gate_by (data_of from.now.cell.now) arc.now arc.now.condition) }
{
    match &arc.condition {
        Some(condition) => Ok(HGate::NotZero(place_of(from, condition))),
        None => {
            let beside = places_beside(from, arc)?;
            Ok(all_zero(beside))
        }
    }
}

/// Where these conditions are all 0; always where there is none.
fn all_zero(conditions: Items<usize>) -> HGate
    ensures { result ≡ all_zero conditions }
{
    if conditions.is_empty() {
        HGate::Always
    } else {
        HGate::AllZero(conditions)
    }
}

/// The numbers of the conditions of all arcs that have the two pins of an arc.
fn places_beside(from: &ModelSource, arc: &Arc) -> Result<Items<usize>, AllocError>
    ensures { IfOk result (λ places. places ≡ map (place_of (data_of from.now.cell.now))
        (conditions_beside from.now.cell.now.arcs arc.now)) }
{
    let mut places = Items::new(from.alloc);
    for other in from.cell.arcs.as_slice() {
        if arc.same_pins(other) {
            if let Some(condition) = &other.condition {
                places.push(place_of(from, condition))?;
            }
        }
    }
    Ok(places)
}

/// The number of a condition of the cell.
fn place_of(from: &ModelSource, condition: &Function) -> usize
    ensures { result ≡ place_of (data_of from.now.cell.now) condition.now }
{
    condition_number(from.conditions, condition)
}
