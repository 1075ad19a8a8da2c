//! The pins of a cell.
ghost use Rattle.std.specs.Prelude.{◌≡◌, ◌++◌, OnOk, IfOk, map, flat_map};
ghost use Rattle.cell_attributes.specs.Pins.{direction_named as direction_named_of, direction_of as direction_of_group, pins_in};
ghost use Rattle.cell_attributes.specs.Pins.{owners_in};

use cell_machine::{Direction, Pin};
use liberty_groups::{Group, last_attribute};
use sqlite_items::Items;
use std::alloc::{AllocError, Global};

/// The direction that a word of `direction` stands for.
pub fn direction_named(text: &[u8]) -> Option<Direction>
    ensures { result ≡ direction_named_of text.now }
{
    if text == b"input".as_slice() {
        Some(Direction::Input)
    } else if text == b"output".as_slice() {
        Some(Direction::Output)
    } else if text == b"internal".as_slice() {
        Some(Direction::Internal)
    } else {
        None
    }
}

/// The direction of the pins of a group.
pub fn direction_of(pin: &Group) -> Option<Direction>
    ensures { result ≡ direction_of_group pin.now }
{
    match last_attribute(pin, b"direction") {
        None => None,
        Some(attribute) => direction_named(attribute.text),
    }
}

/// The pins of a group.
fn pins_of_group(alloc: Global, group: &Group) -> Result<Items<Pin>, AllocError>
    ensures { IfOk result (λ pins. pins ≡ pins_in group.now) }
{
    let direction = direction_of(group).unwrap_or(Direction::Input);
    let mut pins = Items::new(alloc);
    for name in group.arguments.as_slice() {
        let name = Items::from_slice(alloc, name.bytes())?;
        pins.push(Pin { name, direction })?;
    }
    Ok(pins)
}

/// The pins of some groups, in order.
pub fn pins_of(alloc: Global, groups: &[&Group]) -> Result<Items<Pin>, AllocError>
    ensures { IfOk result (λ pins. pins ≡ flat_map pins_in (map (λ group. group.now) groups.now)) }
{
    let mut pins = Items::new(alloc);
    for group in groups {
        pins.append(pins_of_group(alloc, group)?)?;
    }
    Ok(pins)
}

/// Adds a group for each pin that it makes.
fn add_owner<'a>(owners: &mut Vec<&'a Group>, group: &'a Group) -> Result<(), AllocError>
    ensures { OnOk result (map (λ owner. owner.now) owners.new.items ≡ map (λ owner. owner.now) owners.old.items
        ++ owners_in group.now) }
{
    for _value in group.arguments.as_slice() {
        owners.push(group)?;
    }
    Ok(())
}

/// For each pin of some groups the group that makes it.
pub fn owners_of<'a>(alloc: Global, groups: &[&'a Group]) -> Result<Vec<&'a Group>, AllocError>
    ensures { IfOk result (λ owners. map (λ owner. owner.now) owners.items ≡ flat_map owners_in
        (map (λ group. group.now) groups.now)) }
{
    let mut owners = Vec::new(alloc);
    for group in groups {
        add_owner(&mut owners, group)?;
    }
    Ok(owners)
}
