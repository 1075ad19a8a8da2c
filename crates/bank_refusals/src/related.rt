//! The pins to which timing groups relate, where these are named by buses and bundles.
ghost use Rattle.std.specs.Prelude.{◌≡◌, ◌++◌, IfOk, OnOk, map, option_map};
ghost use Rattle.std.specs.List.{list_any};
ghost use Rattle.std.specs.Option.{option_copied};
ghost use Rattle.liberty_groups.specs.declared.tree.Item.{out-Item};
ghost use Rattle.liberty_groups.specs.Attributes.{shown};
ghost use Rattle.bank_refusals.specs.Faults as spec;

use crate::faults::{Place, add_at_if, add_named};
use crate::members::all_items;
use crate::ranges::stem;
use bus_texts::{Vector, VectorKind, Vectors, is_called, member_at, vector_named};
use liberty_groups::{Attribute, Group, Item, simple_attribute};
use std::alloc::{AllocError, Global};

/// The text of a statement in which the names of buses and bundles become members.
fn related_in(item: &Item) -> Option<Attribute<'_>>
    ensures { option_map shown result ≡ spec.related_as (out-Item item.now) }
{
    if let Some(attribute) = simple_attribute(item, b"related_pin") {
        return Some(attribute);
    }
    let attribute = simple_attribute(item, b"related_bus_pins")?;
    Some(Attribute {
        text: &[],
        at: attribute.at,
    })
}

/// The last such text among statements.
fn related_text<'a>(items: &[&'a Item]) -> Option<Attribute<'a>>
    ensures { option_map shown result ≡ spec.related_text (map (λ item. item.now) items.now) }
{
    let mut found = None;
    for item in items {
        if let Some(attribute) = related_in(item) {
            found = Some(attribute);
        }
    }
    found
}

/// The bus or bundle of this name. Variables of banks are none.
pub fn pins_named<'a>(vectors: &'a Vectors, word: &[u8]) -> Option<&'a Vector>
    ensures { option_copied result ≡ spec.pins_named vectors.now word.now }
{
    let vector = vector_named(vectors, word)?;
    match vector.kind {
        VectorKind::Variable => None,
        VectorKind::Bus | VectorKind::Bundle => Some(vector),
    }
}

/// Whether a word is the name of a bus, a bundle or a variable, with a bit behind it or without one.
fn is_reference(vectors: &Vectors, word: &[u8]) -> bool
    ensures { result ≡ spec.is_reference vectors.now word.now }
{
    vector_named(vectors, word).is_some() || vector_named(vectors, stem(word)).is_some()
}

/// Whether a word is the name of a bus or bundle that has no member at a position.
fn lacks_member(vectors: &Vectors, at: usize, word: &[u8]) -> bool
    ensures { result ≡ spec.lacks_member at (spec.pins_named vectors.now word.now) }
{
    let Some(vector) = pins_named(vectors, word) else {
        return false;
    };
    match member_at(vector, at) {
        None => true,
        Some(_) => false,
    }
}

/// Whether a word cannot become a pin.
fn word_fails(place: Place<'_>, word: &[u8]) -> bool
    ensures { result ≡ spec.word_fails place.entry.vectors.now place.entry.position word.now }
{
    match place.position {
        None => is_reference(place.vectors, word),
        Some(at) => lacks_member(place.vectors, at, word),
    }
}

/// Whether one of these words cannot become a pin.
fn any_fails(place: Place<'_>, words: &[&[u8]]) -> bool
    ensures { result ≡ list_any (spec.word_fails place.entry.vectors.now place.entry.position)
        (map (λ word. word.now) words.now) }
{
    for word in words {
        if word_fails(place, word) {
            return true;
        }
    }
    false
}

/// Whether a byte separates names.
fn is_space(byte: u8) -> bool
    ensures { result ≡ spec.is_space byte }
{
    byte == b' '
}

/// The names in a text, which stand between spaces.
pub fn related_words(alloc: Global, text: &[u8]) -> Result<Vec<&[u8]>, AllocError>
    ensures { IfOk result (λ words. map (λ word. word.now) words.items ≡ spec.related_words text.now) }
{
    text.split(|byte| is_space(*byte))
        .filter(|word| !word.is_empty())
        .collect(alloc)
}

/// Adds the faults of a timing group.
fn add_timing_faults(
    alloc: Global,
    found: &mut Vec<usize>,
    place: Place<'_>,
    group: &Group,
) -> Result<(), AllocError>
    ensures { OnOk result
        (found.new.items ≡ found.old.items ++ spec.timing_faults place.entry.vectors.now place.entry.position group.now.items) }
{
    let items = all_items(alloc, group.items.as_slice())?;
    add_named(alloc, found, place, &items, b"when")?;
    let Some(text) = related_text(&items) else {
        return Ok(());
    };
    let words = related_words(alloc, text.text)?;
    add_at_if(found, any_fails(place, &words), text.at)
}

/// Adds the faults of the timing group that a statement of a pin is, if it is one.
pub(crate) fn add_item_faults(
    alloc: Global,
    found: &mut Vec<usize>,
    place: Place<'_>,
    item: &Item,
) -> Result<(), AllocError>
    ensures { OnOk result
        (found.new.items ≡ found.old.items ++ spec.timing_faults_in place.entry.vectors.now place.entry.position item.now) }
{
    match item {
        Item::Inner(group) if is_called(group, b"timing") => {
            add_timing_faults(alloc, found, place, group)
        }
        _ => Ok(()),
    }
}
