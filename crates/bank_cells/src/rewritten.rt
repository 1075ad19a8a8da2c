//! The texts of statements at a position.
ghost use Rattle.std.specs.Prelude.{◌≡◌, IfOk, map};
ghost use Rattle.bank_refusals.specs.Faults.{pin_texts as pin_texts_of, timing_texts};
ghost use Rattle.bank_refusals.specs.Refusals.{state_texts as state_texts_of};
ghost use Rattle.bank_cells.specs.Expanded as spec;

use crate::room::with_room;
use bank_refusals::{Place, pin_texts, state_texts};
use bus_texts::text_for;
use liberty_groups::{Group, Item, Value, Values, copy_item, copy_text, copy_values, value_of};
use sqlite_items::Items;
use std::alloc::{AllocError, Global};

/// The list of one value, of these bytes. An `Err` comes only where memory is wanting.
pub(crate) fn one_value(alloc: Global, bytes: Items<u8>, quoted: bool) -> Result<Values, AllocError>
    ensures { IfOk result (λ values. values ≡ spec.one_value bytes quoted) }
{
    Ok(Values::one(value_of(alloc, bytes, quoted)?))
}

/// The values of a text as it becomes at a place.
fn values_at(alloc: Global, place: Place<'_>, values: &[Value]) -> Result<Values, AllocError>
    ensures { IfOk result (λ made. made ≡ spec.values_at place.entry.vectors.now place.entry.position values.now) }
{
    let [value] = values else {
        return copy_values(alloc, values);
    };
    let bytes = text_for(alloc, place.vectors, place.position, value.bytes())?;
    one_value(alloc, bytes, value.is_quoted())
}

/// The values of a statement, which are a text over positions or not.
fn values_if(
    alloc: Global,
    place: Place<'_>,
    is_text: bool,
    values: &[Value],
) -> Result<Values, AllocError>
    ensures { IfOk result (λ made. made ≡ spec.values_if place.entry.vectors.now place.entry.position is_text values.now) }
{
    if is_text {
        values_at(alloc, place, values)
    } else {
        copy_values(alloc, values)
    }
}

/// Whether a name is one of these.
fn is_one_of(names: &[&[u8]], name: &[u8]) -> bool
    ensures { result ≡ spec.is_one_of (map (λ one. one.now) names.now) name.now }
{
    for one in names {
        if name == *one {
            return true;
        }
    }
    false
}

/// A statement at a place, which is a text over positions where it has one of these names.
fn text_at(
    alloc: Global,
    place: Place<'_>,
    names: &[&[u8]],
    item: &Item,
) -> Result<Item, AllocError>
    ensures { IfOk result
        (λ made. made
        ≡ spec.text_at place.entry.vectors.now place.entry.position (map (λ name. name.now) names.now) item.now) }
{
    match item {
        Item::Simple { name, value, at } => Ok(Item::Simple {
            name: copy_text(alloc, name.as_slice())?,
            value: values_if(
                alloc,
                place,
                is_one_of(names, name.as_slice()),
                value.as_slice(),
            )?,
            at: *at,
        }),
        Item::Complex { .. } | Item::Inner(_) => copy_item(alloc, item),
    }
}

/// A statement of a pin that is no group, at a place.
pub(crate) fn pin_text(alloc: Global, place: Place<'_>, item: &Item) -> Result<Item, AllocError>
    ensures { IfOk result (λ made. made ≡ spec.text_at place.entry.vectors.now place.entry.position pin_texts_of item.now) }
{
    text_at(alloc, place, pin_texts(), item)
}

/// A statement of a timing group that tells no related pins, at a place.
pub(crate) fn timing_text(alloc: Global, place: Place<'_>, item: &Item) -> Result<Item, AllocError>
    ensures { IfOk result (λ made. made ≡ spec.text_at place.entry.vectors.now place.entry.position timing_texts item.now) }
{
    let names: [&[u8]; 1] = [b"when"];
    text_at(alloc, place, &names, item)
}

/// Statements at a place, of which those of these names are texts over positions.
fn texts_at(
    alloc: Global,
    place: Place<'_>,
    names: &[&[u8]],
    items: &[Item],
) -> Result<Items<Item>, AllocError>
    ensures { IfOk result
        (λ made. made
        ≡ map (spec.text_at place.entry.vectors.now place.entry.position (map (λ name. name.now) names.now)) items.now) }
{
    let mut made = with_room(alloc, items.len())?;
    for item in items {
        made.push(text_at(alloc, place, names, item)?)?;
    }
    Ok(made)
}

/// The statements of a state, at a place.
pub(crate) fn state_items(
    alloc: Global,
    place: Place<'_>,
    group: &Group,
) -> Result<Items<Item>, AllocError>
    ensures { IfOk result
        (λ made. made ≡ map (spec.text_at place.entry.vectors.now place.entry.position (state_texts_of group.now)) group.now.items) }
{
    let items = group.items.as_slice();
    texts_at(alloc, place, state_texts(group), items)
}
