//! The conditions of a cell, in the order in which its models number them.
ghost use Rattle.std.specs.Prelude.{◌≡◌, map, flat_map, IfOk, OnOk};
ghost use Rattle.cell_machine.specs.declared.checks.Check.{Check};
ghost use Rattle.std.specs.List.{list_any};
ghost use Rattle.bool_functions.specs.SameTrees.{same_tree};
ghost use Rattle.cell_machine.specs.CellData.{data_of};
ghost use Rattle.udp_tables.specs.Conditions.{condition_list, conditions_beside, arc_conditions, added, added_all, conditions_of};
ghost use Rattle.udp_tables.specs.Conditions.{condition_place};

use bool_functions::Function;
use cell_machine::{Arc, Cell};
use std::alloc::{AllocError, Global};

/// The conditions of a cell by first use, checks before arcs, equal trees once. An arc without condition uses, at its
/// place, those of all arcs of its two pins in their order. `AllocError` comes only where memory is wanting.
pub(crate) fn conditions(alloc: Global, cell: &Cell) -> Result<Vec<&Function>, AllocError>
    ensures { IfOk result (λ found. map (λ condition. condition.now) found.items ≡ conditions_of (data_of cell.now)) }
{
    let mut found = Vec::new(alloc);
    add_of_checks(&mut found, cell)?;
    add_of_arcs(&mut found, cell.arcs.as_slice())?;
    Ok(found)
}

/// The number of a condition, from 0: the place of the first one that is the same tree, or their count where none is. Takes
/// no memory.
pub fn condition_number(conditions: &[&Function], condition: &Function) -> usize
    ensures { result ≡ condition_place (map (λ other. other.now) conditions.now) condition.now }
{
    for (i, other) in conditions.iter().enumerate() {
        if condition.same(other) {
            return i;
        }
    }
    conditions.len()
}

/// Whether one of the conditions is this tree.
fn holds(conditions: &[&Function], condition: &Function) -> bool
    ensures { result ≡ list_any (same_tree condition.now) (map (λ other. other.now) conditions.now) }
{
    for other in conditions {
        if condition.same(other) {
            return true;
        }
    }
    false
}

/// Adds a condition, unless it is there.
fn add<'a>(found: &mut Vec<&'a Function>, condition: &'a Function) -> Result<(), AllocError>
    ensures { OnOk result (map (λ other. other.now) found.new.items ≡ added (map (λ other. other.now) found.old.items)
        condition.now) }
{
    if !holds(found, condition) {
        found.push(condition)?;
    }
    Ok(())
}

/// Adds a condition that may be absent.
fn add_if_there<'a>(
    found: &mut Vec<&'a Function>,
    condition: &'a Option<Function>,
) -> Result<(), AllocError>
    ensures { OnOk result (map (λ other. other.now) found.new.items ≡ added_all (map (λ other. other.now) found.old.items)
        (condition_list condition.now)) }
{
    match condition {
        Some(condition) => add(found, condition),
        None => Ok(()),
    }
}

/// Adds those of all checks.
fn add_of_checks<'a>(found: &mut Vec<&'a Function>, cell: &'a Cell) -> Result<(), AllocError>
    ensures { OnOk result (map (λ other. other.now) found.new.items ≡ added_all (map (λ other. other.now) found.old.items)
        (flat_map (λ (check : Check). condition_list check.condition) cell.now.checks)) }
{
    for check in cell.checks.as_slice() {
        add_if_there(found, &check.condition)?;
    }
    Ok(())
}

/// Adds those of all arcs.
fn add_of_arcs<'a>(found: &mut Vec<&'a Function>, arcs: &'a [Arc]) -> Result<(), AllocError>
    ensures { OnOk result (map (λ other. other.now) found.new.items ≡ added_all (map (λ other. other.now) found.old.items)
        (flat_map (arc_conditions arcs.now) arcs.now)) }
{
    for arc in arcs {
        add_of_arc(found, arcs, arc)?;
    }
    Ok(())
}

/// Adds what an arc uses.
fn add_of_arc<'a>(
    found: &mut Vec<&'a Function>,
    arcs: &'a [Arc],
    arc: &'a Arc,
) -> Result<(), AllocError>
    ensures { OnOk result (map (λ other. other.now) found.new.items ≡ added_all (map (λ other. other.now) found.old.items)
        (arc_conditions arcs.now arc.now)) }
{
    match &arc.condition {
        Some(condition) => add(found, condition),
        None => add_beside(found, arcs, arc),
    }
}

/// Adds those of all arcs that have the two pins of an arc.
fn add_beside<'a>(
    found: &mut Vec<&'a Function>,
    arcs: &'a [Arc],
    arc: &Arc,
) -> Result<(), AllocError>
    ensures { OnOk result (map (λ other. other.now) found.new.items ≡ added_all (map (λ other. other.now) found.old.items)
        (conditions_beside arcs.now arc.now)) }
{
    for other in arcs {
        if arc.same_pins(other) {
            add_if_there(found, &other.condition)?;
        }
    }
    Ok(())
}
