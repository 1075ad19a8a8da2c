//! The outputs of a core that say where its three-state outputs are driven.
ghost use Rattle.std.specs.Prelude.{◌≡◌, ◌+◌, ◌<◌, ◌^◌, ◌++◌, IfOk, OnOk, codes, decimal, map};
ghost use Rattle.liberty_groups.specs.Attributes.{shown as shown_attribute};
ghost use Rattle.core_groups.specs.Outputs.{shown, three_state_of};
ghost use Rattle.core_groups.specs.CoreGroups.{reads_alone as reads_alone_of, enable_function as enable_function_of};
ghost use Rattle.core_groups.specs.CoreGroups.{one_value as one_value_of, enable_statements as enable_statements_of};
ghost use Rattle.core_groups.specs.CoreGroups.{enable_pin as enable_pin_as, enable_pin_of};
ghost use Rattle.core_groups.specs.CoreGroups.{enable_pins};

use crate::outputs::ThreeStateOutput;
use bool_functions::{FunctionFault, read_free};
use liberty_groups::{
    Arguments, Attribute, Group, Item, SmallList, Values, copy_bytes, copy_text, last_attribute,
    value_of,
};
use sqlite_items::Items;
use std::alloc::{AllocError, Global};
use vhdl_tokens::numbered_name;

/// Whether a text is a function text by itself.
fn reads_alone(alloc: Global, text: &[u8]) -> Result<bool, AllocError>
    ensures { IfOk result (λ reads. reads ≡ reads_alone_of text.now) }
{
    match read_free(alloc, text) {
        Ok(_) => Ok(true),
        Err(FunctionFault::Memory) => Err(AllocError),
        Err(_) => Ok(false),
    }
}

/// The function of an output that is 1 where this text is 0.
fn enable_function(alloc: Global, text: &[u8]) -> Result<Items<u8>, AllocError>
    ensures { IfOk result (λ function. function ≡ enable_function_of text.now) }
{
    if !reads_alone(alloc, text)? {
        return Ok(Items::new(alloc));
    }
    let mut function = Vec::from_slice(alloc, b"!(")?;
    function.extend_from_slice(text)?;
    function.extend_from_slice(b")")?;
    Ok(Items::from_vec(function))
}

/// One text as the values of a statement or the arguments of a group.
fn one_value(alloc: Global, bytes: Items<u8>) -> Result<Values, AllocError>
    ensures { IfOk result (λ values. values ≡ one_value_of bytes) }
{
    Ok(Values::one(value_of(alloc, bytes, true)?))
}

/// A simple attribute with one text.
fn simple(alloc: Global, name: &[u8], text: Items<u8>, at: usize) -> Result<Item, AllocError>
    ensures { IfOk result (λ item. item ≡ Item.Simple name.now (one_value_of text) at) }
{
    let value = one_value(alloc, text)?;
    Ok(Item::Simple {
        name: copy_text(alloc, name)?,
        value,
        at,
    })
}

/// The statements of the output for a three-state output that floats where this statement says so.
fn enable_statements(alloc: Global, floats: Attribute<'_>) -> Result<Items<Item>, AllocError>
    ensures { IfOk result (λ items. items ≡ enable_statements_of (shown_attribute floats.entry)) }
{
    let mut items = Items::new(alloc);
    let direction = copy_bytes(alloc, b"output")?;
    items.push(simple(alloc, b"direction", direction, floats.at)?)?;
    let function = enable_function(alloc, floats.text)?;
    items.push(simple(alloc, b"function", function, floats.at)?)?;
    Ok(items)
}

/// The name of the output for the three-state output with this number, from 0.
fn enable_name(alloc: Global, number: usize) -> Result<Arguments, AllocError>
    requires { number + 1 < 2 ^ 64 }
    ensures { IfOk result (λ name. name ≡ one_value_of (codes "-e" ++ decimal (number + 1))) }
{
    let name = numbered_name(alloc, b"-e", number + 1)?;
    Arguments::from_values(alloc, one_value(alloc, name)?)
}

/// The output for the three-state output with this number, from 0, which floats where this statement says so.
fn enable_pin(alloc: Global, number: usize, floats: Attribute<'_>) -> Result<Item, AllocError>
    requires { number + 1 < 2 ^ 64 }
    ensures { IfOk result (λ pin. pin ≡ enable_pin_as number (shown_attribute floats.entry)) }
{
    let items = SmallList::from_items(alloc, enable_statements(alloc, floats)?)?;
    let arguments = enable_name(alloc, number)?;
    Ok(Item::Inner(Group {
        name: copy_text(alloc, b"pin")?,
        arguments,
        items,
        at: floats.at,
    }))
}

/// Adds the output for a three-state output of this group and number, from 0.
fn add_enable_pin(
    alloc: Global,
    items: &mut Items<Item>,
    number: usize,
    group: &Group,
) -> Result<(), AllocError>
    requires { number + 1 < 2 ^ 64 }
    ensures { OnOk result (items.new ≡ items.old ++ enable_pin_of number (three_state_of group.now)) }
{
    if let Some(floats) = last_attribute(group, b"three_state") {
        items.push(enable_pin(alloc, number, floats)?)?;
    }
    Ok(())
}

/// Adds the outputs for these three-state outputs.
pub fn add_enable_pins(
    alloc: Global,
    items: &mut Items<Item>,
    outputs: &[ThreeStateOutput<'_>],
) -> Result<(), AllocError>
    ensures { OnOk result (items.new ≡ items.old ++ enable_pins 0 (map shown outputs.now)) }
{
    for (i, output) in outputs.iter().enumerate() {
        add_enable_pin(alloc, items, i, output.group)?;
    }
    Ok(())
}
