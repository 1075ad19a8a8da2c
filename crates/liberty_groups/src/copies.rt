//! Copies of groups.
ghost use Rattle.std.specs.Prelude.{◌≡◌, IfOk};

use crate::tree::{Group, Item, Value};
use crate::values::{Arguments, Values};
use small_bytes::SmallBytes;
use small_lists::SmallList;
use sqlite_items::Items;
use std::alloc::{AllocError, Global};

/// A copy of some bytes. An `Err` comes only where memory is wanting.
pub fn copy_bytes(alloc: Global, bytes: &[u8]) -> Result<Items<u8>, AllocError>
    ensures { IfOk result (λ copy. copy ≡ bytes.now) }
{
    Ok(Items::from_slice(alloc, bytes)?)
}

/// A copy of the bytes of a name or a value. An `Err` comes only where memory is wanting.
pub fn copy_text(alloc: Global, bytes: &[u8]) -> Result<SmallBytes, AllocError>
    ensures { IfOk result (λ copy. copy ≡ bytes.now) }
{
    Ok(SmallBytes::from_slice(alloc, bytes)?)
}

/// A value of these bytes. An `Err` comes only where memory is wanting.
pub fn value_of(alloc: Global, bytes: Items<u8>, quoted: bool) -> Result<Value, AllocError>
    ensures bytes { IfOk result (λ value. value.bytes ≡ bytes) }
    ensures quoted { IfOk result (λ value. value.quoted ≡ quoted) }
{
    let bytes = SmallBytes::from_items(alloc, bytes)?;
    Ok(Value::new(bytes, quoted))
}

/// A copy of a value. An `Err` comes only where memory is wanting.
fn copy_value(alloc: Global, value: &Value) -> Result<Value, AllocError>
    ensures { IfOk result (λ copy. copy ≡ value.now) }
{
    let bytes = copy_text(alloc, value.bytes())?;
    Ok(Value::new(bytes, value.is_quoted()))
}

/// A copy of some values. An `Err` comes only where memory is wanting.
pub fn copy_values(alloc: Global, values: &[Value]) -> Result<Values, AllocError>
    ensures { IfOk result (λ copy. copy ≡ values.now) }
{
    let mut copy = Values::with_capacity(alloc, values.len())?;
    for value in values {
        copy.push(alloc, copy_value(alloc, value)?)?;
    }
    Ok(copy)
}

/// A copy of the arguments of a group. An `Err` comes only where memory is wanting.
pub fn copy_arguments(alloc: Global, values: &[Value]) -> Result<Arguments, AllocError>
    ensures { IfOk result (λ copy. copy ≡ values.now) }
{
    Arguments::from_values(alloc, copy_values(alloc, values)?)
}

/// A copy of a statement with all that stands in it. An `Err` comes only where memory is wanting.
#[cycle(copying)]
pub fn copy_item(alloc: Global, item: &Item) -> Result<Item, AllocError>
    ensures { IfOk result (λ copy. copy ≡ item.now) }
{
    match item {
        Item::Simple { name, value, at } => Ok(Item::Simple {
            name: copy_text(alloc, name.as_slice())?,
            value: copy_values(alloc, value.as_slice())?,
            at: *at,
        }),
        Item::Complex {
            name,
            arguments,
            at,
        } => Ok(Item::Complex {
            name: copy_text(alloc, name.as_slice())?,
            arguments: copy_values(alloc, arguments.as_slice())?,
            at: *at,
        }),
        Item::Inner(group) => Ok(Item::Inner(copy_group(alloc, group)?)),
    }
}

/// Copies of statements, in order. An `Err` comes only where memory is wanting.
#[cycle(copying)]
pub fn copy_items(alloc: Global, items: &[Item]) -> Result<Items<Item>, AllocError>
    ensures { IfOk result (λ copy. copy ≡ items.now) }
{
    let mut copy = Items::from_vec(Vec::with_capacity(alloc, items.len())?);
    for item in items {
        copy.push(copy_item(alloc, item)?)?;
    }
    Ok(copy)
}

/// A copy of a group with all that stands in it. An `Err` comes only where memory is wanting.
#[cycle(copying)]
pub fn copy_group(alloc: Global, group: &Group) -> Result<Group, AllocError>
    ensures { IfOk result (λ copy. copy ≡ group.now) }
{
    Ok(Group {
        name: copy_text(alloc, group.name.as_slice())?,
        arguments: copy_arguments(alloc, group.arguments.as_slice())?,
        items: SmallList::from_items(alloc, copy_items(alloc, group.items.as_slice())?)?,
        at: group.at,
    })
}
