//! The expanded group of a cell in which neighbouring pins of a bus or bundle with the same statements are one pin group.
ghost use Rattle.std.specs.Prelude.{◌≡◌, OnOk, flat_map};
ghost use Rattle.std.specs.List.{fold};
ghost use Rattle.bus_texts.specs.Vectors.{cell_vectors as cell_vectors_of};
ghost use Rattle.bank_cells.specs.Gathered as spec;

use crate::expansion::{add_bank_states, add_single};
use crate::runs::add_pins;
use crate::sink::ItemSink;
use bank_refusals::is_pins;
use bus_texts::{BusTypes, Vectors, cell_vectors, is_bank, pin_vectors};
use liberty_groups::{Group, Item, copy_item};
use std::alloc::{AllocError, Global};

/// Adds what stands in the place of a group of a cell.
fn add_gathered_group<S: ItemSink>(
    alloc: Global,
    found: &mut S,
    types: &BusTypes,
    vectors: &Vectors,
    group: &Group,
) -> Result<(), AllocError>
    ensures { OnOk result (found.new ≡ fold S.after found.old (spec.gathered_group types.now vectors.now group.now)) }
{
    if is_pins(group) {
        let several = pin_vectors(alloc, types, group)?;
        add_pins(alloc, found, vectors, group, several.as_slice())
    } else if is_bank(group) {
        add_bank_states(alloc, found, vectors, group)
    } else {
        add_single(alloc, found, vectors, group)
    }
}

/// Adds what stands in the place of a statement of a cell.
fn add_gathered<S: ItemSink>(
    alloc: Global,
    found: &mut S,
    types: &BusTypes,
    vectors: &Vectors,
    item: &Item,
) -> Result<(), AllocError>
    ensures { OnOk result (found.new ≡ fold S.after found.old (spec.gathered_item types.now vectors.now item.now)) }
{
    match item {
        Item::Inner(group) => add_gathered_group(alloc, found, types, vectors, group),
        Item::Simple { .. } | Item::Complex { .. } => {
            let copy = copy_item(alloc, item)?;
            found.take(alloc, copy)
        }
    }
}

/// Adds what stands in the place of the statements of a cell.
fn add_all_gathered<S: ItemSink>(
    alloc: Global,
    found: &mut S,
    types: &BusTypes,
    vectors: &Vectors,
    items: &[Item],
) -> Result<(), AllocError>
    ensures { OnOk result
        (found.new ≡ fold S.after found.old (flat_map (spec.gathered_item types.now vectors.now) items.now)) }
{
    for item in items {
        add_gathered(alloc, found, types, vectors, item)?;
    }
    Ok(())
}

/// Adds the statements of a cell expanded to single bits (Liberty Reference Manual, `bus`, `bundle`, `ff_bank` and `latch_bank`
/// groups), with the types of buses that stand before it. A bus or bundle becomes a pin for each member, a bank a state group for
/// each bit, and a text that names them is rewritten for the position of each; neighbouring members of a bus or bundle which have
/// the same statements are the names of one pin group, which is made once however many they are. Each statement is handed on as
/// soon as it is made. An `Err` comes only where memory is wanting.
pub fn gather<S: ItemSink>(
    alloc: Global,
    cell: &Group,
    types: &BusTypes,
    found: &mut S,
) -> Result<(), AllocError>
    ensures { OnOk result
        (found.new
        ≡ fold S.after found.old
        (flat_map (spec.gathered_item types.now (cell_vectors_of types.now cell.now)) cell.now.items)) }
{
    let vectors = cell_vectors(alloc, types, cell)?;
    add_all_gathered(alloc, found, types, &vectors, cell.items.as_slice())
}
