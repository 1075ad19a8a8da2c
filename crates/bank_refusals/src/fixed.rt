//! Timing groups that become the same at each position.
ghost use Rattle.std.specs.Prelude.{◌≡◌, not, IfOk, map};
ghost use Rattle.std.specs.List.{list_any, list_all};
ghost use Rattle.liberty_groups.specs.declared.tree.Item.{out-Item};
ghost use Rattle.liberty_groups.specs.Attributes.{simple_named};
ghost use Rattle.bank_refusals.specs.Faults.{related_words as words_of};
ghost use Rattle.bank_refusals.specs.Fixed as spec;

use crate::related::{pins_named, related_words};
use bus_texts::{Vectors, is_called, text_fails};
use liberty_groups::{Item, simple_attribute};
use std::alloc::{AllocError, Global};

/// Whether the text of this name that a statement is, if it is one, names no bus, bundle or variable of a bank.
pub(crate) fn names_none(
    alloc: Global,
    vectors: &Vectors,
    item: &Item,
    name: &[u8],
) -> Result<bool, AllocError>
    ensures { IfOk result (λ none. none ≡ spec.names_none vectors.now (simple_named name.now (out-Item item.now))) }
{
    match simple_attribute(item, name) {
        None => Ok(true),
        Some(text) => Ok(!text_fails(alloc, vectors, None, text.text)?),
    }
}

/// Whether one of these words is a bus or bundle.
fn any_vector_word(vectors: &Vectors, words: &[&[u8]]) -> bool
    ensures { result ≡ list_any (spec.is_vector_word vectors.now) (map (λ word. word.now) words.now) }
{
    for word in words {
        if pins_named(vectors, word).is_some() {
            return true;
        }
    }
    false
}

/// Whether a text of related pins has no bus and no bundle.
fn has_none(alloc: Global, vectors: &Vectors, text: &[u8]) -> Result<bool, AllocError>
    ensures { IfOk result (λ none. none ≡ not (list_any (spec.is_vector_word vectors.now) (words_of text.now))) }
{
    let words = related_words(alloc, text)?;
    Ok(!any_vector_word(vectors, &words))
}

/// Whether the related pins that a statement names, if it does, are no bus and no bundle.
fn relates_none(alloc: Global, vectors: &Vectors, item: &Item) -> Result<bool, AllocError>
    ensures { IfOk result (λ none. none ≡ spec.relates_none vectors.now (spec.related_in item.now)) }
{
    match simple_attribute(item, b"related_pin") {
        None => Ok(true),
        Some(text) => has_none(alloc, vectors, text.text),
    }
}

/// Whether a statement of a timing group becomes the same at each position.
fn is_fixed(alloc: Global, vectors: &Vectors, item: &Item) -> Result<bool, AllocError>
    ensures { IfOk result (λ fixed. fixed ≡ spec.is_fixed vectors.now item.now) }
{
    let names_none = names_none(alloc, vectors, item, b"when")?;
    let relates_none = relates_none(alloc, vectors, item)?;
    Ok(names_none && relates_none)
}

/// Whether all statements of a timing group become the same at each position.
pub fn are_fixed(alloc: Global, vectors: &Vectors, items: &[Item]) -> Result<bool, AllocError>
    ensures { IfOk result (λ fixed. fixed ≡ list_all (spec.is_fixed vectors.now) items.now) }
{
    for item in items {
        if !is_fixed(alloc, vectors, item)? {
            return Ok(false);
        }
    }
    Ok(true)
}

/// Whether a name is that of a text of a pin.
fn is_pin_text(name: &[u8]) -> bool
    ensures { result ≡ spec.is_pin_text name.now }
{
    name == b"function".as_slice()
        || name == b"state_function".as_slice()
        || name == b"three_state".as_slice()
}

/// Whether a statement may be at fault at a position: it is a text of a pin, or a timing group that does not become the same at
/// each.
pub(crate) fn may_fail(alloc: Global, vectors: &Vectors, item: &Item) -> Result<bool, AllocError>
    ensures { IfOk result (λ fails. fails ≡ spec.may_fail vectors.now item.now) }
{
    match item {
        Item::Simple { name, .. } => Ok(is_pin_text(name.as_slice())),
        Item::Inner(group) if is_called(group, b"timing") => {
            Ok(!are_fixed(alloc, vectors, group.items.as_slice())?)
        }
        Item::Complex { .. } | Item::Inner(_) => Ok(false),
    }
}
