//! The timing groups of three-state outputs, as their delays are read.
ghost use Rattle.std.specs.Prelude.{◌≡◌, ◌++◌, ◌∷◌, [], IfOk, OnOk, map};
ghost use Rattle.timing_arcs.specs.Timing.{timing_groups as timing_groups_of};
ghost use Rattle.core_groups.specs.DriverGroups.{has_type as has_type_of, is_unread as is_unread_of};
ghost use Rattle.core_groups.specs.DriverGroups.{is_no_type as is_no_type_of, read_items as read_items_of};
ghost use Rattle.core_groups.specs.DriverGroups.{driver_timing as driver_timing_of, driver_item as driver_item_of};
ghost use Rattle.core_groups.specs.DriverGroups.{driver_pin as driver_pin_of};

use cell_attributes::groups::is_missing;
use group_copies::{Keeps, kept_items, with_items};
use liberty_groups::{Group, Item, copy_items, inner_group, last_attribute};
use sqlite_items::Items;
use std::alloc::{AllocError, Global};

/// Whether this is the type of a timing group.
fn has_type(group: &Group, word: &[u8]) -> bool
    ensures { result ≡ has_type_of word.now group.now }
{
    match last_attribute(group, b"timing_type") {
        None => false,
        Some(attribute) => attribute.text == word,
    }
}

/// Whether a timing group is left out whatever else it says.
fn is_unread(group: &Group) -> bool
    ensures { result ≡ is_unread_of group.now }
{
    has_type(group, b"three_state_disable") || !is_missing(group, b"when")
}

/// All statements of a timing group but for its type.
struct Untyped;

impl Keeps for Untyped {
    ghost keeps = { λ _. is_no_type_of };

    fn is_kept(&self, item: &Item) -> bool {
        match item {
            Item::Simple { name, .. } => name.as_slice() != b"timing_type".as_slice(),
            Item::Complex { .. } | Item::Inner(_) => true,
        }
    }
}

/// What is read of a timing group.
fn read_items(alloc: Global, group: &Group) -> Result<Items<Item>, AllocError>
    ensures { IfOk result (λ items. items ≡ read_items_of group.now) }
{
    if is_unread(group) {
        Ok(Items::new(alloc))
    } else if has_type(group, b"three_state_enable") {
        kept_items(alloc, &Untyped, group.items.as_slice())
    } else {
        copy_items(alloc, group.items.as_slice())
    }
}

/// A timing group of a three-state output as it is read.
fn driver_timing(alloc: Global, group: &Group) -> Result<Group, AllocError>
    ensures { IfOk result (λ timing. timing ≡ driver_timing_of group.now) }
{
    with_items(alloc, group, read_items(alloc, group)?)
}

/// The timing groups of a pin, in order.
pub fn timing_groups(alloc: Global, pin: &Group) -> Result<Vec<&Group>, AllocError>
    ensures { IfOk result (λ groups. map (λ group. group.now) groups.items ≡ timing_groups_of pin.now) }
{
    let mut groups = Vec::new(alloc);
    for item in pin.items.as_slice() {
        if let Some(group) = inner_group(item, b"timing") {
            groups.push(group)?;
        }
    }
    Ok(groups)
}

/// These timing groups of three-state outputs, as they are read.
fn driver_timings(alloc: Global, groups: &[&Group]) -> Result<Items<Item>, AllocError>
    ensures { IfOk result (λ items. items ≡ map driver_item_of (map (λ group. group.now) groups.now)) }
{
    let mut items = Items::new(alloc);
    for group in groups {
        items.push(Item::Inner(driver_timing(alloc, group)?))?;
    }
    Ok(items)
}

/// The pin group of three-state outputs, with its timing groups as they are read.
#[tactic(auto, unfolding(crate::specs::DriverGroups::driver_pin))]
pub fn driver_pin(alloc: Global, pin: &Group) -> Result<Group, AllocError>
    ensures { IfOk result (λ driver. driver ≡ driver_pin_of pin.now) }
{
    let groups = timing_groups(alloc, pin)?;
    with_items(alloc, pin, driver_timings(alloc, &groups)?)
}
