//! Pin groups without their timing groups, with the attributes alone that are read of a pin.
ghost use Rattle.std.specs.Prelude.{◌≡◌, ◌++◌, IfOk, OnOk, map, flat_map, option_map};
ghost use Rattle.liberty_groups.specs.Attributes.{shown};
ghost use Rattle.three_state_cells.specs.PinAttributes as spec;

use cell_reader::first_offset;
use group_copies::with_items;
use liberty_groups::{
    Attribute, Group, Item, Values, copy_bytes, copy_text, last_attribute, value_of,
};
use sqlite_items::Items;
use std::alloc::{AllocError, Global};

/// The statement of an attribute.
fn statement(alloc: Global, name: &[u8], attribute: Attribute<'_>) -> Result<Item, AllocError>
    ensures { IfOk result (λ item. item ≡ spec.statement name.now (shown attribute.entry)) }
{
    let text = copy_bytes(alloc, attribute.text)?;
    Ok(Item::Simple {
        name: copy_text(alloc, name)?,
        value: Values::one(value_of(alloc, text, true)?),
        at: attribute.at,
    })
}

/// Adds the statement of an attribute, if there is one.
fn add_statement(
    alloc: Global,
    found: &mut Items<Item>,
    name: &[u8],
    attribute: Option<Attribute<'_>>,
) -> Result<(), AllocError>
    ensures { OnOk result (found.new ≡ found.old ++ spec.statement_of name.now (option_map shown attribute.entry)) }
{
    match attribute {
        None => Ok(()),
        Some(attribute) => {
            found.push(statement(alloc, name, attribute)?)?;
            Ok(())
        }
    }
}

/// Adds the attributes of these names of which the last one counts.
fn add_counted(
    alloc: Global,
    found: &mut Items<Item>,
    group: &Group,
    names: &[&[u8]],
) -> Result<(), AllocError>
    ensures { OnOk result (found.new ≡ found.old ++ flat_map (spec.counted group.now) (map (λ name. name.now) names.now)) }
{
    for name in names {
        add_statement(alloc, found, name, last_attribute(group, name))?;
    }
    Ok(())
}

/// The attribute of this name of which the least offset counts.
fn refusing(group: &Group, name: &[u8]) -> Option<Attribute<'static>>
    ensures { option_map shown result ≡ spec.refusing_of group.now name.now }
{
    match first_offset(group, name) {
        None => None,
        Some(at) => Some(Attribute { text: &[], at }),
    }
}

/// Adds the attributes of these names of which the least offset counts.
fn add_refusing(
    alloc: Global,
    found: &mut Items<Item>,
    group: &Group,
    names: &[&[u8]],
) -> Result<(), AllocError>
    ensures { OnOk result (found.new ≡ found.old ++ flat_map (spec.refusing group.now) (map (λ name. name.now) names.now)) }
{
    for name in names {
        add_statement(alloc, found, name, refusing(group, name))?;
    }
    Ok(())
}

/// The attributes that are read of a pin.
fn read_attributes(alloc: Global, group: &Group) -> Result<Items<Item>, AllocError>
    ensures { IfOk result (λ items. items ≡ spec.read_attributes group.now) }
{
    let counted: [&[u8]; 7] = [
        b"direction",
        b"function",
        b"state_function",
        b"internal_node",
        b"min_pulse_width_high",
        b"min_pulse_width_low",
        b"min_period",
    ];
    let refusing: [&[u8]; 4] = [
        b"three_state",
        b"clocked_on_also",
        b"enable_also",
        b"input_map",
    ];
    let mut items = Items::new(alloc);
    add_counted(alloc, &mut items, group, &counted)?;
    add_refusing(alloc, &mut items, group, &refusing)?;
    let floats = last_attribute(group, b"three_state");
    add_statement(alloc, &mut items, b"three_state", floats)?;
    Ok(items)
}

/// A pin group without its timing groups and what is not read of it.
pub(crate) fn untimed(alloc: Global, group: &Group) -> Result<Group, AllocError>
    ensures { IfOk result (λ made. made ≡ spec.untimed group.now) }
{
    with_items(alloc, group, read_attributes(alloc, group)?)
}
