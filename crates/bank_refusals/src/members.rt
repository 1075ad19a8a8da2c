//! The pins that a bus or bundle makes, as they stand.
ghost use Rattle.std.specs.Prelude.{◌≡◌, ◌++◌, IfOk, OnOk, map};
ghost use Rattle.std.specs.List.{list_any};
ghost use Rattle.bank_refusals.specs.Members as spec;

use crate::ranges::names_bit;
use bus_texts::{Vector, is_called};
use liberty_groups::{Item, Value};
use std::alloc::{AllocError, Global};

/// A member of a bus or bundle: its position, and its name.
#[derive(Clone, Copy)]
pub struct Member<'a> {
    pub vector: &'a Vector,
    pub at: usize,
    pub name: &'a [u8],
}

/// Whether an argument of an inner pin names a member.
fn names_member(member: Member<'_>, argument: &Value) -> bool
    ensures { result ≡ spec.names_member member.entry.vector.now member.entry.at member.entry.name.now argument.now }
{
    match member.vector.bits.get(member.at) {
        None => argument.bytes() == member.name,
        Some(bit) => names_bit(member.vector.name.as_slice(), *bit, argument.bytes()),
    }
}

/// Whether one of the arguments of an inner pin names a member.
pub(crate) fn any_names(member: Member<'_>, arguments: &[Value]) -> bool
    ensures { result ≡ list_any (spec.names_member member.entry.vector.now member.entry.at member.entry.name.now) arguments.now }
{
    for argument in arguments {
        if names_member(member, argument) {
            return true;
        }
    }
    false
}

/// Whether each member has this statement of its bus or bundle.
pub fn is_shared(item: &Item) -> bool
    ensures { result ≡ spec.is_shared item.now }
{
    match item {
        Item::Simple { name, .. } => name.as_slice() != b"bus_type".as_slice(),
        Item::Complex { name, .. } => name.as_slice() != b"members".as_slice(),
        Item::Inner(group) => !is_called(group, b"pin"),
    }
}

/// References to statements.
pub fn all_items<'a>(alloc: Global, items: &'a [Item]) -> Result<Vec<&'a Item>, AllocError>
    ensures { IfOk result (λ found. map (λ item. item.now) found.items ≡ items.now) }
{
    let mut found = Vec::new(alloc);
    add_all(&mut found, items)?;
    Ok(found)
}

/// Adds references to statements.
pub(crate) fn add_all<'a>(found: &mut Vec<&'a Item>, items: &'a [Item]) -> Result<(), AllocError>
    ensures { OnOk result (map (λ item. item.now) found.new.items ≡ map (λ item. item.now) found.old.items ++ items.now) }
{
    for item in items {
        found.push(item)?;
    }
    Ok(())
}
