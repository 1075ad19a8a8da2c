//! The bits that are named where there are none, in all pins and states of a cell.
ghost use Rattle.std.specs.Prelude.{◌≡◌, ◌++◌, IfOk, OnOk, flat_map};
ghost use Rattle.bus_texts.specs.Vectors.{positions as positions_of};
ghost use Rattle.bank_refusals.specs.Faults.{text_faults};
ghost use Rattle.bank_refusals.specs.Refusals as spec;

use crate::faults::{Place, add_texts};
use crate::members::all_items;
use crate::pin_faults::{add_pin_faults, add_pins_faults};
use crate::refusals::is_pins;
use crate::text_names::state_texts;
use bus_texts::{
    Bank, BusTypes, Vectors, bank_of, cell_vectors, is_bank, is_called, pin_vectors, positions,
};
use liberty_groups::{Group, Item};
use std::alloc::{AllocError, Global};

/// Adds the faults of the texts of a state.
fn add_state_texts(
    alloc: Global,
    found: &mut Vec<usize>,
    place: Place<'_>,
    group: &Group,
) -> Result<(), AllocError>
    ensures { OnOk result
        (found.new.items
        ≡ found.old.items
        ++ text_faults place.entry.vectors.now place.entry.position (spec.state_texts group.now) group.now.items) }
{
    let items = all_items(alloc, group.items.as_slice())?;
    add_texts(alloc, found, place, &items, state_texts(group))
}

/// Adds the faults of the states of a bank.
fn add_states_faults(
    alloc: Global,
    found: &mut Vec<usize>,
    vectors: &Vectors,
    group: &Group,
    bits: &[u16],
) -> Result<(), AllocError>
    ensures { OnOk result (found.new.items ≡ found.old.items ++ flat_map (spec.state_faults vectors.now group.now) bits.now) }
{
    for bit in bits {
        let position = Some(usize::from(*bit));
        add_state_texts(alloc, found, Place { vectors, position }, group)?;
    }
    Ok(())
}

/// Adds the faults of a bank.
fn add_bank_faults(
    alloc: Global,
    found: &mut Vec<usize>,
    vectors: &Vectors,
    group: &Group,
    bank: Bank<'_>,
) -> Result<(), AllocError>
    ensures { OnOk result (found.new.items ≡ found.old.items
        ++ flat_map (spec.state_faults vectors.now group.now) (positions_of bank.entry.width)) }
{
    let bits = positions(alloc, bank.width)?;
    add_states_faults(alloc, found, vectors, group, bits.as_slice())
}

/// Adds the faults of a single pin or state.
fn add_single_faults(
    alloc: Global,
    found: &mut Vec<usize>,
    vectors: &Vectors,
    group: &Group,
) -> Result<(), AllocError>
    ensures { OnOk result (found.new.items ≡ found.old.items ++ spec.single_faults vectors.now group.now) }
{
    let position = None;
    let place = Place { vectors, position };
    if is_called(group, b"pin") && !group.arguments.is_empty() {
        let items = all_items(alloc, group.items.as_slice())?;
        return add_pin_faults(alloc, found, place, &items);
    }
    if is_called(group, b"ff") || is_called(group, b"latch") {
        return add_state_texts(alloc, found, place, group);
    }
    Ok(())
}

/// Adds the faults of a group of a cell.
fn add_group_faults(
    alloc: Global,
    found: &mut Vec<usize>,
    types: &BusTypes,
    vectors: &Vectors,
    group: &Group,
) -> Result<(), AllocError>
    ensures { OnOk result (found.new.items ≡ found.old.items ++ spec.width_faults_of types.now vectors.now group.now) }
{
    if is_pins(group) {
        let made = pin_vectors(alloc, types, group)?;
        return add_pins_faults(alloc, found, vectors, group, made.as_slice());
    }
    if !is_bank(group) {
        return add_single_faults(alloc, found, vectors, group);
    }
    match bank_of(group) {
        None => Ok(()),
        Some(bank) => add_bank_faults(alloc, found, vectors, group, bank),
    }
}

/// The faults of all groups of a cell.
fn all_faults(
    alloc: Global,
    types: &BusTypes,
    vectors: &Vectors,
    items: &[Item],
) -> Result<Vec<usize>, AllocError>
    ensures { IfOk result (λ found. found.items ≡ flat_map (spec.width_faults_in types.now vectors.now) items.now) }
{
    let mut found = Vec::new(alloc);
    for item in items {
        if let Item::Inner(group) = item {
            add_group_faults(alloc, &mut found, types, vectors, group)?;
        }
    }
    Ok(found)
}

/// Where a cell names a bus, a bundle or a variable of a bank that has no bit there.
pub(crate) fn width_faults(
    alloc: Global,
    types: &BusTypes,
    cell: &Group,
) -> Result<Vec<usize>, AllocError>
    ensures { IfOk result (λ found. found.items ≡ spec.width_faults types.now cell.now) }
{
    let vectors = cell_vectors(alloc, types, cell)?;
    all_faults(alloc, types, &vectors, cell.items.as_slice())
}
