//! Buses and bundles whose members have the same statements.
ghost use Rattle.std.specs.Prelude.{◌≡◌, IfOk};
ghost use Rattle.liberty_groups.specs.declared.tree.Item.{out-Item};
ghost use Rattle.bank_refusals.specs.Alike as spec;

use crate::fixed::{are_fixed, names_none};
use bus_texts::{Vectors, is_called};
use liberty_groups::{Group, Item};
use std::alloc::{AllocError, Global};

/// Whether the text of a pin that a statement is, if it is one, names no bus, bundle or variable of a bank.
fn text_stays(alloc: Global, vectors: &Vectors, item: &Item) -> Result<bool, AllocError>
    ensures { IfOk result (λ stays. stays ≡ spec.text_stays vectors.now (out-Item item.now)) }
{
    if !names_none(alloc, vectors, item, b"function")? {
        return Ok(false);
    }
    if !names_none(alloc, vectors, item, b"state_function")? {
        return Ok(false);
    }
    names_none(alloc, vectors, item, b"three_state")
}

/// Whether a group of a bus or bundle, if a statement is one, is no inner pin and becomes the same at each position.
fn group_stays(alloc: Global, vectors: &Vectors, item: &Item) -> Result<bool, AllocError>
    ensures { IfOk result (λ stays. stays ≡ spec.group_stays vectors.now (out-Item item.now)) }
{
    match item {
        Item::Simple { .. } | Item::Complex { .. } => Ok(true),
        Item::Inner(group) if is_called(group, b"pin") => Ok(false),
        Item::Inner(group) if is_called(group, b"timing") => {
            are_fixed(alloc, vectors, group.items.as_slice())
        }
        Item::Inner(_) => Ok(true),
    }
}

/// Whether a statement of a bus or bundle becomes the same for each member.
pub fn stays(alloc: Global, vectors: &Vectors, item: &Item) -> Result<bool, AllocError>
    ensures { IfOk result (λ stays. stays ≡ spec.stays vectors.now item.now) }
{
    let text = text_stays(alloc, vectors, item)?;
    let group = group_stays(alloc, vectors, item)?;
    Ok(text && group)
}

/// Whether the members of a bus or bundle have the same statements: it has no inner pins, and no text of its names a bus, a
/// bundle or a variable of a bank.
pub fn are_alike(alloc: Global, vectors: &Vectors, group: &Group) -> Result<bool, AllocError>
    ensures { IfOk result (λ alike. alike ≡ spec.are_alike vectors.now group.now) }
{
    for item in group.items.as_slice() {
        if !stays(alloc, vectors, item)? {
            return Ok(false);
        }
    }
    Ok(true)
}
