//! The pins of single bits that a cell has when it is expanded.
ghost use Rattle.std.specs.Prelude.{◌≡◌, ◌++◌, IfOk, OnOk, Some, map};
ghost use Rattle.bank_refusals.specs.Members.{inner_pins, member_items};
ghost use Rattle.bank_cells.specs.Fixed.{shown_shared, shared_items};
ghost use Rattle.bank_cells.specs.Expanded as spec;

use crate::rewritten::pin_text;
use crate::room::with_room;
use crate::shared::{Shared, add_shared_at};
use crate::timings::timing_at;
use bank_refusals::{InnerPins, Member, Place, all_items, named_items};
use bus_texts::{Vectors, is_called};
use group_copies::with_items;
use liberty_groups::{Group, Item, copy_item};
use sqlite_items::Items;
use std::alloc::{AllocError, Global};

/// A statement of a pin at a place.
pub(crate) fn pin_item(alloc: Global, place: Place<'_>, item: &Item) -> Result<Item, AllocError>
    ensures { IfOk result (λ made. made ≡ spec.pin_item place.entry.vectors.now place.entry.position item.now) }
{
    match item {
        Item::Simple { .. } => pin_text(alloc, place, item),
        Item::Inner(group) if is_called(group, b"timing") => {
            Ok(Item::Inner(timing_at(alloc, place, group)?))
        }
        Item::Complex { .. } | Item::Inner(_) => copy_item(alloc, item),
    }
}

/// Adds statements of a pin at a place.
fn add_pin_items(
    alloc: Global,
    found: &mut Items<Item>,
    place: Place<'_>,
    items: &[&Item],
) -> Result<(), AllocError>
    ensures { OnOk result
        (found.new
        ≡ found.old ++ map (spec.pin_item place.entry.vectors.now place.entry.position) (map (λ item. item.now) items.now)) }
{
    for item in items {
        found.push(pin_item(alloc, place, item)?)?;
    }
    Ok(())
}

/// The statements of the pin that a bus or bundle makes at a position.
#[tactic(auto, using(crate::proofs::SharedLemmas::all_of))]
pub(crate) fn member_pin_items(
    alloc: Global,
    vectors: &Vectors,
    group: &Group,
    pins: &InnerPins<'_>,
    shared: &[Shared<'_>],
    member: Member<'_>,
) -> Result<Items<Item>, AllocError>
    requires pins { pins.now ≡ inner_pins group.now.items }
    requires shared { map shown_shared shared.now ≡ shared_items vectors.now group.now.items }
    ensures { IfOk result
        (λ items.
        items
        ≡ map (spec.pin_item vectors.now (Some member.entry.at))
        (member_items group.now member.entry.vector.now member.entry.at member.entry.name.now)) }
{
    let own = named_items(alloc, pins, member)?;
    let mut items = with_room(alloc, shared.len())?;
    let position = Some(member.at);
    add_shared_at(alloc, &mut items, vectors, member.at, shared)?;
    add_pin_items(alloc, &mut items, Place { vectors, position }, &own)?;
    Ok(items)
}

/// A pin of one bit.
pub(crate) fn single_pin(
    alloc: Global,
    vectors: &Vectors,
    group: &Group,
) -> Result<Group, AllocError>
    ensures { IfOk result (λ pin. pin ≡ spec.single_pin vectors.now group.now) }
{
    let position = None;
    let mut items = with_room(alloc, group.items.len())?;
    let written = all_items(alloc, group.items.as_slice())?;
    add_pin_items(alloc, &mut items, Place { vectors, position }, &written)?;
    with_items(alloc, group, items)
}
