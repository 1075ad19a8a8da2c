//! Pin groups behind the limit of pins without their timing groups and what is not read of them.
ghost use Rattle.std.specs.Prelude.{◌≡◌, IfOk, map, drop};
ghost use Rattle.std.specs.List.{list_all};
ghost use Rattle.liberty_groups.specs.declared.tree.Item.{out-Item};
ghost use Rattle.three_state_cells.specs.Trimmed as spec;

use crate::pin_attributes::untimed;
use cell_attributes::groups::{is_called, is_pin};
use cell_attributes::limits::MOST_PINS;
use core_groups::is_three_state;
use liberty_groups::{Group, Item, Value};
use std::alloc::{AllocError, Global};

/// The offset of a statement.
fn place_in(item: &Item) -> usize
    ensures { result ≡ spec.place_in (out-Item item.now) }
{
    match item {
        Item::Simple { at, .. } | Item::Complex { at, .. } => *at,
        Item::Inner(group) => group.at,
    }
}

/// Whether no statement of a group stands before this offset.
fn all_behind(at: usize, group: &Group) -> bool
    ensures { result ≡ spec.all_behind at group.now }
{
    for item in group.items.as_slice() {
        if place_in(item) < at {
            return false;
        }
    }
    true
}

/// Whether there is one argument.
fn has_one(arguments: &[Value]) -> bool
    ensures { result ≡ spec.has_one arguments.now }
{
    match arguments {
        [_] => true,
        _ => false,
    }
}

/// Whether a group loses its timing groups and what is not read of it, where so many pins stand before it: it makes one pin
/// behind the limit.
fn is_trimmed(pin: usize, group: &Group) -> bool
    ensures { result ≡ spec.is_trimmed pin group.now }
{
    MOST_PINS <= pin && is_pin(group) && has_one(group.arguments.as_slice())
}

/// Whether a statement of a cell is such a group.
pub(crate) fn is_trimmed_item(pin: usize, item: &Item) -> bool
    ensures { result ≡ spec.is_trimmed_item pin (out-Item item.now) }
{
    match item {
        Item::Simple { .. } | Item::Complex { .. } => false,
        Item::Inner(group) => is_trimmed(pin, group),
    }
}

/// Whether a group has groups. A timing group without any has no table.
fn has_groups(group: &Group) -> bool
    ensures { result ≡ spec.has_groups group.now }
{
    for item in group.items.as_slice() {
        if let Item::Inner(_) = item {
            return true;
        }
    }
    false
}

/// Whether a statement is a timing group that may have tables.
fn is_timing(item: &Item) -> bool
    ensures { result ≡ spec.is_timing (out-Item item.now) }
{
    match item {
        Item::Simple { .. } | Item::Complex { .. } => false,
        Item::Inner(group) => is_called(group, b"timing") && has_groups(group),
    }
}

/// Whether a group has such timing groups.
fn is_timed(group: &Group) -> bool
    ensures { result ≡ spec.is_timed group.now }
{
    for item in group.items.as_slice() {
        if is_timing(item) {
            return true;
        }
    }
    false
}

/// Whether a group loses timing groups that may be read, where so many pins stand before it.
pub(crate) fn loses(pin: usize, group: &Group) -> bool
    ensures { result ≡ spec.loses pin group.now }
{
    is_trimmed(pin, group) && is_timed(group)
}

/// Whether a group has timing that is read apart from the trimmed core, where so many pins stand before it: what it loses, or the
/// delays of three-state outputs.
fn has_apart(pin: usize, group: &Group) -> bool
    ensures { result ≡ spec.has_apart pin group.now }
{
    loses(pin, group) || (is_three_state(group) && is_timed(group))
}

/// The same of a statement of a cell.
pub(crate) fn has_apart_in(pin: usize, item: &Item) -> bool
    ensures { result ≡ spec.has_apart_in pin (out-Item item.now) }
{
    match item {
        Item::Simple { .. } | Item::Complex { .. } => false,
        Item::Inner(group) => has_apart(pin, group),
    }
}

/// Whether none of the statements of a group that is trimmed stands before it, where so many pins do.
fn keeps_order(pin: usize, group: &Group) -> bool
    ensures { result ≡ spec.keeps_order pin group.now }
{
    !is_trimmed(pin, group) || all_behind(group.at, group)
}

/// The same of a statement of a cell.
pub(crate) fn keeps_order_in(pin: usize, item: &Item) -> bool
    ensures { result ≡ spec.keeps_order_in pin (out-Item item.now) }
{
    match item {
        Item::Simple { .. } | Item::Complex { .. } => true,
        Item::Inner(group) => keeps_order(pin, group),
    }
}

/// A group as it is where so many pins stand before it.
fn trimmed_pin(alloc: Global, pin: usize, group: Group) -> Result<Group, AllocError>
    ensures { IfOk result (λ made. made ≡ spec.trimmed_pin pin group) }
{
    if is_trimmed(pin, &group) {
        untimed(alloc, &group)
    } else {
        Ok(group)
    }
}

/// A statement of a cell as it is where so many pins stand before it.
pub(crate) fn trimmed_item(alloc: Global, pin: usize, item: Item) -> Result<Item, AllocError>
    ensures { IfOk result (λ made. made ≡ spec.trimmed_item pin (out-Item item)) }
{
    match item {
        Item::Simple { name, value, at } => Ok(Item::Simple { name, value, at }),
        Item::Complex {
            name,
            arguments,
            at,
        } => Ok(Item::Complex {
            name,
            arguments,
            at,
        }),
        Item::Inner(group) => Ok(Item::Inner(trimmed_pin(alloc, pin, group)?)),
    }
}

/// How many pins a group of a cell makes.
fn pins_made(group: &Group) -> usize
    ensures { result ≡ spec.pins_made group.now }
{
    if is_pin(group) {
        group.arguments.len()
    } else {
        0
    }
}

/// How many pins a statement of a cell makes.
pub(crate) fn pins_in_item(item: &Item) -> usize
    ensures { result ≡ spec.pins_in_item (out-Item item.now) }
{
    match item {
        Item::Simple { .. } | Item::Complex { .. } => 0,
        Item::Inner(group) => pins_made(group),
    }
}

/// Whether all of these groups, and all of their statements, stand no less far than this offset.
fn all_stand_behind(at: usize, owners: &[&Group]) -> bool
    ensures { result ≡ list_all (spec.stands_behind at) (map (λ owner. owner.now) owners.now) }
{
    for owner in owners {
        if owner.at < at || !all_behind(at, owner) {
            return false;
        }
    }
    true
}

/// Whether there are such groups, and none of them, and no statement of one, stands before the first.
fn first_stands_first(owners: &[&Group]) -> bool
    ensures { result ≡ spec.are_behind (map (λ owner. owner.now) owners.now) }
{
    match owners.split_first() {
        None => false,
        Some((first, _)) => all_stand_behind(first.at, owners),
    }
}

/// Whether there are pins behind the limit, where these groups make all pins, and none of the groups of these, and no statement
/// of one, stands before the first of the groups.
pub(crate) fn are_behind(owners: &[&Group]) -> bool
    ensures { result ≡ spec.are_behind (drop 64 (map (λ owner. owner.now) owners.now)) }
{
    if owners.len() <= MOST_PINS {
        return false;
    }
    first_stands_first(&owners[MOST_PINS..])
}
