//! The timing groups of a pin at a position.
ghost use Rattle.std.specs.Prelude.{◌≡◌, ◌++◌, IfOk, OnOk, map, flat_map};
ghost use Rattle.bank_cells.specs.Fixed as fixed;
ghost use Rattle.bank_cells.specs.Expanded as spec;

use crate::rewritten::{one_value, timing_text};
use crate::room::with_room;
use bank_refusals::{Place, are_fixed, pins_named, related_words};
use bus_texts::{VectorKind, Vectors, is_called, member_at, vector_named};
use group_copies::with_items;
use liberty_groups::{Attribute, Group, Item, copy_item, copy_text, simple_attribute};
use sqlite_items::Items;
use std::alloc::{AllocError, Global};

/// Adds a name, and a space behind it.
fn add_name(text: &mut Vec<u8>, name: &[u8]) -> Result<(), AllocError>
    ensures { OnOk result (text.new.items ≡ text.old.items ++ spec.spaced name.now) }
{
    text.extend_from_slice(name)?;
    text.push(b' ')?;
    Ok(())
}

/// Adds names, and a space behind each.
fn add_names(text: &mut Vec<u8>, names: &[Items<u8>]) -> Result<(), AllocError>
    ensures { OnOk result (text.new.items ≡ text.old.items ++ flat_map spec.spaced names.now) }
{
    for name in names {
        add_name(text, name.as_slice())?;
    }
    Ok(())
}

/// The member of a bus or bundle of this name at a position, and any other name itself.
fn related_word<'a>(vectors: &'a Vectors, at: usize, word: &'a [u8]) -> &'a [u8]
    ensures { result.now ≡ spec.related_word vectors.now at word.now }
{
    let Some(vector) = pins_named(vectors, word) else {
        return word;
    };
    match member_at(vector, at) {
        None => word,
        Some(member) => member,
    }
}

/// Adds names as they become at a position.
fn add_members_at(
    text: &mut Vec<u8>,
    vectors: &Vectors,
    at: usize,
    words: &[&[u8]],
) -> Result<(), AllocError>
    ensures { OnOk result
        (text.new.items ≡ text.old.items ++ flat_map (spec.related_part vectors.now at) (map (λ word. word.now) words.now)) }
{
    for word in words {
        add_name(text, related_word(vectors, at, word))?;
    }
    Ok(())
}

/// Adds all members of the bus of this name, and any other name itself.
fn add_bus(text: &mut Vec<u8>, vectors: &Vectors, word: &[u8]) -> Result<(), AllocError>
    ensures { OnOk result (text.new.items ≡ text.old.items ++ spec.bus_part vectors.now word.now) }
{
    let Some(vector) = vector_named(vectors, word) else {
        return add_name(text, word);
    };
    match vector.kind {
        VectorKind::Bus => add_names(text, vector.members.as_slice()),
        VectorKind::Bundle | VectorKind::Variable => add_name(text, word),
    }
}

/// Adds all members of the buses of these names.
fn add_buses(text: &mut Vec<u8>, vectors: &Vectors, words: &[&[u8]]) -> Result<(), AllocError>
    ensures { OnOk result
        (text.new.items ≡ text.old.items ++ flat_map (spec.bus_part vectors.now) (map (λ word. word.now) words.now)) }
{
    for word in words {
        add_bus(text, vectors, word)?;
    }
    Ok(())
}

/// A `related_pin` with this text.
fn related_pins(alloc: Global, text: Vec<u8>, at: usize) -> Result<Item, AllocError>
    ensures { IfOk result (λ item. item ≡ spec.related_pins text.items at) }
{
    Ok(Item::Simple {
        name: copy_text(alloc, b"related_pin")?,
        value: one_value(alloc, Items::from_vec(text), true)?,
        at,
    })
}

/// A `related_pin` as it becomes at a position.
fn related_at(
    alloc: Global,
    vectors: &Vectors,
    at: usize,
    related: Attribute<'_>,
) -> Result<Item, AllocError>
    ensures { IfOk result (λ item. item ≡ spec.related_pins (spec.members_at vectors.now at related.entry.text.now)
        related.entry.at) }
{
    let words = related_words(alloc, related.text)?;
    let mut text = Vec::new(alloc);
    add_members_at(&mut text, vectors, at, &words)?;
    related_pins(alloc, text, related.at)
}

/// The `related_pin` that a `related_bus_pins` becomes.
fn related_buses(alloc: Global, vectors: &Vectors, buses: Attribute<'_>) -> Result<Item, AllocError>
    ensures { IfOk result (λ item. item ≡ spec.related_pins (spec.members_of_all vectors.now buses.entry.text.now)
        buses.entry.at) }
{
    let words = related_words(alloc, buses.text)?;
    let mut text = Vec::new(alloc);
    add_buses(&mut text, vectors, &words)?;
    related_pins(alloc, text, buses.at)
}

/// A statement of a timing group at a place.
fn timing_item(alloc: Global, place: Place<'_>, item: &Item) -> Result<Item, AllocError>
    ensures { IfOk result (λ made. made ≡ spec.timing_item place.entry.vectors.now place.entry.position item.now) }
{
    if let Some(related) = simple_attribute(item, b"related_pin") {
        return match place.position {
            None => copy_item(alloc, item),
            Some(at) => related_at(alloc, place.vectors, at, related),
        };
    }
    match simple_attribute(item, b"related_bus_pins") {
        None => timing_text(alloc, place, item),
        Some(buses) => related_buses(alloc, place.vectors, buses),
    }
}

/// The statements of a timing group at a place.
fn timing_items(alloc: Global, place: Place<'_>, items: &[Item]) -> Result<Items<Item>, AllocError>
    ensures { IfOk result (λ made. made ≡ map (spec.timing_item place.entry.vectors.now place.entry.position) items.now) }
{
    let mut made = with_room(alloc, items.len())?;
    for item in items {
        made.push(timing_item(alloc, place, item)?)?;
    }
    Ok(made)
}

/// A timing group at a place.
pub(crate) fn timing_at(alloc: Global, place: Place<'_>, group: &Group) -> Result<Group, AllocError>
    ensures { IfOk result (λ timing. timing ≡ spec.timing_at place.entry.vectors.now place.entry.position group.now) }
{
    let items = timing_items(alloc, place, group.items.as_slice())?;
    with_items(alloc, group, items)
}

/// What the timing group that a statement is becomes at each position, where that is the same.
pub(crate) fn fixed_timing(
    alloc: Global,
    vectors: &Vectors,
    item: &Item,
) -> Result<Option<Group>, AllocError>
    ensures { IfOk result (λ made. made ≡ fixed.fixed_timing vectors.now item.now) }
{
    let Item::Inner(group) = item else {
        return Ok(None);
    };
    if !is_called(group, b"timing") || !are_fixed(alloc, vectors, group.items.as_slice())? {
        return Ok(None);
    }
    let position = Some(0);
    let made = timing_at(alloc, Place { vectors, position }, group)?;
    Ok(Some(made))
}
